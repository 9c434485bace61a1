//! Why a link is to be left.
ghost use Rattle.std.specs.Prelude.{◌≡◌, ◌<◌};

use flow_types::Memory;
use outside::Fault;

/// Why a link is to be left.
#[derive(Clone, Copy, Debug, PartialEq, Eq)]
pub enum Leave {
    /// The other end has closed it.
    Closed,
    /// It failed.
    Failed,
    /// What came is no frame of a message.
    Bad,
    /// The peer spoke out of turn, or against a task.
    Unexpected,
    /// Want of memory.
    Memory,
}

impl Leave {
    // Why a link is left of which a call failed so.
    pub(crate) fn of(fault: Fault) -> Leave
        ensures failed { fault ≡ Fault.Failed → result ≡ Leave.Failed }
        ensures memory { fault ≡ Fault.Memory → result ≡ Leave.Memory }
    {
        match fault {
            Fault::Failed => Leave::Failed,
            Fault::Memory => Leave::Memory,
        }
    }
}

impl From<Memory> for Leave {
    ghost use Rattle.std.specs.Prelude.{◌≡◌};
    ghost use Rattle.peers.specs.declared.leave.Leave.TheVariants as leaves;

    ghost from_gives = { λ _ e. e ≡ leaves.Memory };

    fn from(_: Memory) -> Self {
        Leave::Memory
    }
}
