//! Why a text is no expression.
ghost use Rattle.std.specs.Prelude.{◌≡◌};

use flow_types::Memory;
use std::alloc::{AllocError, AllocFailed};
use thiserror::Error;

/// Why a text is no expression, with the byte where that shows.
#[derive(Clone, Copy, Debug, PartialEq, Eq, Error)]
pub enum JxFault {
    /// The bytes stop being UTF-8 here.
    #[error("not UTF-8 at {0}")]
    NotUtf8(usize),
    /// The text can't go on with what stands here, or can't end here.
    #[error("unexpected at {0}")]
    Unexpected(usize),
    /// The text in quotes that begins here has no end.
    #[error("open text at {0}")]
    OpenText(usize),
    /// A number with a fraction or an exponent begins here.
    #[error("float at {0}")]
    FloatUnsupported(usize),
    /// A whole number of more than 64 bits begins here.
    #[error("integer too wide at {0}")]
    IntTooWide(usize),
    /// Here begins one level of nesting too many.
    #[error("too deep at {0}")]
    TooDeep(usize),
    /// The text has too many bytes.
    #[error("text too large")]
    TooLarge,
    /// There is no memory.
    #[error("out of memory")]
    Memory,
}

impl From<Memory> for JxFault {
    ghost use Rattle.jx_tokens.specs.declared.fault.JxFault.TheVariants as fault;

    ghost from_gives = { λ _ e. e ≡ fault.Memory };

    fn from(_lack: Memory) -> JxFault {
        JxFault::Memory
    }
}

impl From<AllocError> for JxFault {
    ghost use Rattle.jx_tokens.specs.declared.fault.JxFault.TheVariants as fault;

    ghost from_gives = { λ _ e. e ≡ fault.Memory };

    fn from(_lack: AllocError) -> JxFault {
        JxFault::Memory
    }
}

impl<T: Drop> From<AllocFailed<T>> for JxFault {
    ghost use Rattle.jx_tokens.specs.declared.fault.JxFault.TheVariants as fault;

    ghost from_gives = { λ _ e. e ≡ fault.Memory };

    fn from(_lack: AllocFailed<T>) -> JxFault {
        JxFault::Memory
    }
}
