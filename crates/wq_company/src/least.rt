//! When no task that waits can fit a peer. No contract speaks of these needs: they spare looks at
//! tasks.
use flow_types::{Amounts, Needs};

/// What fits no peer in a round, once one task was found that doesn't.
#[derive(Clone, Copy)]
pub(crate) struct Refused {
    needs: Needs,
    bytes: u64,
}

impl Refused {
    /// A task of these needs and so many bytes of inputs.
    pub fn new(needs: Needs, bytes: u64) -> Refused {
        Refused { needs, bytes }
    }

    /// Whether a task of these needs and so many bytes of inputs is no smaller.
    pub fn covers(self, needs: Needs, bytes: u64) -> bool {
        bytes >= self.bytes && is_same(self.needs, needs)
    }
}

fn is_same(one: Needs, other: Needs) -> bool {
    match one {
        Needs::Whole => matches!(other, Needs::Whole),
        Needs::Stated(amounts) => is_stated(other, amounts),
    }
}

fn is_stated(needs: Needs, amounts: Amounts) -> bool {
    match needs {
        Needs::Whole => false,
        Needs::Stated(other) => {
            amounts.cores == other.cores
                && amounts.memory == other.memory
                && amounts.disk == other.disk
        }
    }
}

const NOTHING: Amounts = Amounts {
    cores: 0,
    memory: 0,
    disk: 0,
};

fn least_amounts(one: Amounts, other: Amounts) -> Amounts {
    Amounts {
        cores: one.cores.min(other.cores),
        memory: one.memory.min(other.memory),
        disk: one.disk.min(other.disk),
    }
}

fn least_stated(amounts: Amounts, needs: Needs) -> Amounts {
    match needs {
        Needs::Whole => NOTHING,
        Needs::Stated(other) => least_amounts(amounts, other),
    }
}

/// Needs that fit wherever one of these does.
pub fn least_of(one: Needs, other: Needs) -> Needs {
    match one {
        Needs::Whole if matches!(other, Needs::Whole) => Needs::Whole,
        Needs::Whole => Needs::Stated(NOTHING),
        Needs::Stated(amounts) => Needs::Stated(least_stated(amounts, other)),
    }
}
