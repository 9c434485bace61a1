//! What a command line chooses.
use flow_types::{Amounts, Name, Text};

/// Where jobs run, by `-T`.
#[derive(Clone, Copy, Debug, PartialEq, Eq)]
pub enum Transport {
    /// `local`, the default: on this machine.
    Local,
    /// `wq`: on workers, over the network.
    WorkQueue,
}

/// When files that nobody needs any more are removed, by `-g`.
#[derive(Clone, Copy, Debug, PartialEq, Eq)]
pub enum Mode {
    /// `none`, the default.
    Never,
    /// `ref_cnt`: as soon as no rule needs them.
    RefCount,
    /// `on_demand`: once the storage is wanted.
    OnDemand,
}

/// What the call does.
#[derive(Clone, Copy, Debug, PartialEq, Eq)]
pub enum Work {
    /// Runs the flow, the default.
    Run,
    /// Removes the files that the flow made, by `-c`.
    Clean,
    /// Prints the log, by `--print-log`.
    PrintLog,
}

/// Where jobs run, and how many at once.
#[derive(Clone, Copy, Debug, PartialEq, Eq)]
pub struct Service {
    /// `-T`.
    pub transport: Transport,
    /// The port at which workers are met, by `-p`: from 1, 9123 by default.
    pub port: u16,
    /// How many jobs run at once, by `-j`: 1 to 16, 4 by default.
    pub jobs: u32,
}

/// What a run may use up.
#[derive(Clone, Copy, Debug, PartialEq, Eq)]
pub struct Limits {
    /// How often a failed rule is tried again, by `-r`: 0 to 1,000, 0 by default.
    pub retries: u32,
    /// The most bytes that made files take, by `--storage-limit`: 0 to 2^60, no limit by default.
    pub storage: Option<u64>,
    /// How often the wait for workers ends with nothing heard before the run gives up, by
    /// `--idle-limit`: 1 to 1,000,000,000, which is the default.
    pub idle: u32,
}

/// The language of a flow's text.
#[derive(Clone, Copy, Debug, PartialEq, Eq)]
pub enum Language {
    /// Makeflow text, the default.
    Make,
    /// JX, by `--jx`.
    Jx,
}

/// The flow.
#[derive(Drop)]
pub enum Flow {
    /// That of a file, FILE.
    File { name: Name, language: Language },
    /// One that is made up, of so many rules: 1 to 5,000, by `--generate`.
    Generated { rules: u32 },
}

/// What a command line of `makeflow` chooses.
#[derive(Drop)]
pub struct Options {
    /// Where jobs run, and how many at once.
    pub service: Service,
    /// What the run may use up.
    pub limits: Limits,
    /// What there is on this machine, by `--local-cores`, `--local-memory` and `--local-disk`, each
    /// 0 to 1,000,000,000: by default 64 cores, 1,000,000 MB and 1,000,000,000 MB.
    pub local: Amounts,
    /// When files are removed, by `-g`.
    pub mode: Mode,
    /// What the call does.
    pub work: Work,
    /// FILE, or what stands in its place.
    pub flow: Flow,
    /// The log's name, by `-l`: by default FILE and `.makeflowlog`, or `generated.makeflowlog`.
    pub log: Name,
}

/// What a command line of `work_queue_worker` chooses.
#[derive(Drop)]
pub struct WorkerOptions {
    /// What the worker has, by `--cores`, `--memory` and `--disk`, each 0 to 1,000,000,000: by
    /// default 4 cores, 4,096 MB and 16,384 MB.
    pub total: Amounts,
    /// The size of its cache in MB of 1,048,576 bytes, by `--cache`: 0 to 1,000,000, 4,096 by
    /// default.
    pub cache: u32,
    /// HOST, as it is given: where the master or foreman is.
    pub host: Text,
    /// PORT, from 1.
    pub port: u16,
}

/// What a command line of `work_queue_foreman` chooses.
#[derive(Drop)]
pub struct ForemanOptions {
    /// The port at which workers are met, by `-p`: from 1, 9123 by default.
    pub listening: u16,
    /// The size of its cache in MB of 1,048,576 bytes, by `--cache`: 0 to 1,000,000, 4,096 by
    /// default.
    pub cache: u32,
    /// HOST, as it is given: where the master is.
    pub host: Text,
    /// PORT, from 1.
    pub port: u16,
}
