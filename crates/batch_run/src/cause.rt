//! Why a batch ended.
ghost use Rattle.std.specs.Prelude.{◌≡◌};
ghost use Rattle.batch_run.specs.Batch.{status_of};

/// Why a batch ended.
#[derive(Clone, Copy, Debug, PartialEq, Eq)]
pub enum BatchCause {
    /// Each task was given back, and its line printed.
    Done,
    /// The words aren't the program's name, a port from 1 to 65,535 and a name.
    Usage,
    /// There is no file of the name.
    FileMissing,
    /// The first line, counted from 1, that isn't UTF-8 or has more than 1,048,576 bytes.
    BadLine { line: u64 },
    /// More than 100,000 lines aren't empty.
    TooMany,
    /// The folder's count of failures rose between these.
    SiteFault { before: u64, after: u64 },
    /// The hall's count of failures rose between these.
    HallFault { before: u64, after: u64 },
    /// The sink's count of failures rose between these.
    SinkFault { before: u64, after: u64 },
    /// Nobody came and no worker told anything, 1,000,000 times.
    Idle,
    /// Want of memory.
    Memory,
}

impl BatchCause {
    /// The exit status.
    pub fn status(self) -> u8
        ensures { result ≡ status_of self }
    {
        match self {
            BatchCause::Done => 0,
            BatchCause::Usage => 2,
            BatchCause::FileMissing => 3,
            BatchCause::BadLine { .. } => 3,
            BatchCause::TooMany => 3,
            BatchCause::SiteFault { .. } => 5,
            BatchCause::HallFault { .. } => 5,
            BatchCause::SinkFault { .. } => 5,
            BatchCause::Idle => 7,
            BatchCause::Memory => 8,
        }
    }
}
