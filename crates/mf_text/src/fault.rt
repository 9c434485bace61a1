//! Why a Makeflow text was refused.
ghost use Rattle.std.specs.Prelude.{◌≡◌};

use flow_types::{Memory, Text};
use std::alloc::{AllocError, AllocFailed};
use std::fmt;
use thiserror::Error;

/// Why a Makeflow text gives no flow. Lines are counted from 1.
#[derive(Drop, Error)]
pub enum MakeFault {
    /// The place of the first byte that is no part of a UTF-8 text.
    #[error("not UTF-8 at {0}")]
    NotUtf8(usize),
    /// A quote isn't closed in its line.
    #[error("line {0}: open quote")]
    OpenQuote(u32),
    /// A text that is no name, or a name without a value.
    #[error("line {0}: unknown name {name}", name = .1.as_str())]
    UnknownName(u32, Text),
    /// A `$(` or `${` without its closing mark.
    #[error("line {0}: open parenthesis")]
    OpenParen(u32),
    /// The head of a rule without its colon.
    #[error("line {0}: no colon")]
    NoColon(u32),
    /// A rule without a command.
    #[error("line {0}: no command")]
    NoCommand(u32),
    /// A command without a rule.
    #[error("line {0}: stray command")]
    StrayCommand(u32),
    /// A number out of form or above its limit.
    #[error("line {0}: bad number")]
    BadNumber(u32),
    /// The limit, in bytes, that was passed.
    #[error("too large, at most {0} bytes")]
    TooLarge(u64),
    /// Want of memory.
    #[error("out of memory")]
    Memory,
}

impl fmt::Debug for MakeFault {
    fn fmt<W: fmt::Write>(&self, f: &mut fmt::Formatter<W>) -> fmt::Result {
        fmt::Display::fmt(self, f)
    }
}

impl From<Memory> for MakeFault {
    ghost use Rattle.mf_text.specs.declared.fault.MakeFault.TheVariants.{Memory};

    ghost from_gives = { λ _ e. e ≡ Memory };

    fn from(_: Memory) -> MakeFault {
        MakeFault::Memory
    }
}

impl From<AllocError> for MakeFault {
    ghost use Rattle.mf_text.specs.declared.fault.MakeFault.TheVariants.{Memory};

    ghost from_gives = { λ _ e. e ≡ Memory };

    fn from(_: AllocError) -> MakeFault {
        MakeFault::Memory
    }
}

impl<T: Drop> From<AllocFailed<T>> for MakeFault {
    ghost use Rattle.mf_text.specs.declared.fault.MakeFault.TheVariants.{Memory};

    ghost from_gives = { λ _ e. e ≡ Memory };

    fn from(_: AllocFailed<T>) -> MakeFault {
        MakeFault::Memory
    }
}
