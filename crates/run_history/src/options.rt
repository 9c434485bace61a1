//! What a run is asked for.
use flow_types::Amounts;

/// When made files that nothing needs any more are collected.
#[derive(Clone, Copy, Debug, PartialEq, Eq)]
pub enum Mode {
    Never,
    /// As soon as nothing needs them.
    RefCount,
    /// Where a ready rule doesn't fit the storage.
    OnDemand,
}

/// What a run is asked for. The limit is in bytes; `wq` says that rules run on workers, but for the
/// local ones.
#[derive(Clone, Copy, Debug, PartialEq, Eq)]
pub struct Options {
    pub mode: Mode,
    pub limit: Option<u64>,
    pub retries: u32,
    pub wq: bool,
    pub local: Amounts,
}
