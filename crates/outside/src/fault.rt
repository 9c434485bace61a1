//! What a call of the outside answers where it fails.
ghost use Rattle.std.specs.Prelude.{◌≡◌, ◌-◌, ◌^◌, ◌+◌};
ghost use Rattle.outside.specs.declared.fault.Fault.TheVariants.{Memory};

use std::alloc::{AllocError, AllocFailed};

/// Why a call of the outside didn't do its work.
#[derive(Clone, Copy, Debug, PartialEq, Eq)]
pub enum Fault {
    /// The object failed, and counted it.
    Failed,
    /// Want of memory, or the object's count stands at its last value.
    Memory,
}

impl From<AllocError> for Fault {
    ghost from_gives = { λ _ e. e ≡ Memory };

    fn from(_: AllocError) -> Self {
        Fault::Memory
    }
}

impl<T: Drop> From<AllocFailed<T>> for Fault {
    ghost from_gives = { λ _ e. e ≡ Memory };

    fn from(_: AllocFailed<T>) -> Self {
        Fault::Memory
    }
}

impl From<flow_types::Memory> for Fault {
    ghost from_gives = { λ _ e. e ≡ Memory };

    fn from(_: flow_types::Memory) -> Self {
        Fault::Memory
    }
}

/// Counts a failure. A count at its last value stays there, and want of memory is answered in its
/// place.
pub fn failed(count: &mut u64) -> Fault
    ensures failed { result ≡ Fault.Failed → count.new ≡ count.old + 1 }
    ensures memory { result ≡ Fault.Memory → (count.old ≡ 2 ^ 64 - 1) × (count.new ≡ count.old) }
{
    if *count == u64::MAX {
        return Fault::Memory;
    }
    *count += 1;
    Fault::Failed
}
