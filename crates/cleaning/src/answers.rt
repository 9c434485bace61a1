//! What a look at a log and a cleaning answer.
use flow_types::{Digest, Record, Rows};
use log_recover::RecoverFault;

/// Why a log can't be used for a plan.
#[derive(Clone, Copy, Debug, PartialEq, Eq)]
pub enum LookFault {
    /// The log isn't read: its file is damaged, its site failed, or memory was wanting.
    Log(RecoverFault),
    /// The part was opened for another plan. These are the digest that was logged, and that of this
    /// plan.
    OtherFlow { logged: Digest, found: Digest },
    /// The record with this number, counted from 0, may not stand where it does; it is the first
    /// such.
    NotLegal { at: u32 },
    /// The log was read, and there is no memory to look at its records.
    Memory,
}

/// Why a log can't be used for a plan, with its records. Where it isn't read there are none.
#[derive(Drop)]
pub struct LookRefused {
    pub why: LookFault,
    pub records: Rows<Record>,
}

/// A part that was ended.
#[derive(Drop)]
pub struct Cleaned {
    /// What the log has now.
    pub records: Rows<Record>,
    /// So many made files were present by the records, and each is removed.
    pub removed: u32,
}

/// Why a part isn't ended, or not all of its files are removed.
#[derive(Clone, Copy, Debug, PartialEq, Eq)]
pub enum CleanFault {
    /// The log can't be used for the plan.
    Look(LookFault),
    /// The log has so many records, and takes none more.
    LogFull { records: u32 },
    /// The log was looked at, and the site failed behind that.
    Site,
    /// The log was looked at, and memory was wanting behind that.
    Memory,
}

/// Why a part isn't ended, or not all of its files are removed, with the records of its log. Where
/// it isn't read there are none.
#[derive(Drop)]
pub struct CleanRefused {
    pub why: CleanFault,
    /// Behind the look, at Site and at Memory, the log may have the end of the part beside these.
    pub records: Rows<Record>,
}
