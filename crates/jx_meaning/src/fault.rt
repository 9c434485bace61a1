//! Why an expression has no value.
ghost use Rattle.std.specs.Prelude.{◌≡◌};

use flow_types::Memory;
use std::alloc::{AllocError, AllocFailed};
use thiserror::Error;

/// Why an expression has no value, with the byte of the node where that shows.
#[derive(Clone, Copy, Debug, PartialEq, Eq, Error)]
pub enum EvalFault {
    /// The name has no value, or there is no function of that name.
    #[error("unknown name at {0}")]
    UnknownName(usize),
    /// A value is of a kind that can't stand here.
    #[error("wrong kind at {0}")]
    WrongKind(usize),
    /// The number has more than 64 bits.
    #[error("overflow at {0}")]
    Overflow(usize),
    /// The divisor or the step is 0.
    #[error("zero divisor at {0}")]
    ZeroDivisor(usize),
    /// There is no item of this index.
    #[error("index out of range at {0}")]
    IndexRange(usize),
    /// The object has no such key.
    #[error("no such key at {0}")]
    NoSuchKey(usize),
    /// The format or the template has a mark that is none.
    #[error("bad mark at {0}")]
    BadMark(usize),
    /// The function takes another number of arguments.
    #[error("wrong number of arguments at {0}")]
    ArgCount(usize),
    /// Too many nodes were evaluated, or the value would be too large.
    #[error("too much at {0}")]
    TooMuch(usize),
    /// There is no memory.
    #[error("out of memory")]
    Memory,
}

impl From<Memory> for EvalFault {
    ghost use Rattle.jx_meaning.specs.declared.fault.EvalFault.TheVariants as fault;

    ghost from_gives = { λ _ e. e ≡ fault.Memory };

    fn from(_lack: Memory) -> EvalFault {
        EvalFault::Memory
    }
}

impl From<AllocError> for EvalFault {
    ghost use Rattle.jx_meaning.specs.declared.fault.EvalFault.TheVariants as fault;

    ghost from_gives = { λ _ e. e ≡ fault.Memory };

    fn from(_lack: AllocError) -> EvalFault {
        EvalFault::Memory
    }
}

impl<T: Drop> From<AllocFailed<T>> for EvalFault {
    ghost use Rattle.jx_meaning.specs.declared.fault.EvalFault.TheVariants as fault;

    ghost from_gives = { λ _ e. e ≡ fault.Memory };

    fn from(_lack: AllocFailed<T>) -> EvalFault {
        EvalFault::Memory
    }
}
