//! Why a JX text says no flow.
ghost use Rattle.std.specs.Prelude.{◌≡◌};

use flow_types::{Memory, Text};
use jx_meaning::EvalFault;
use jx_tokens::JxFault;
use std::alloc::{AllocError, AllocFailed};
use std::fmt;
use thiserror::Error;

/// Why a JX text says no flow. Rules are counted from 0; outside of the rules there is none.
#[derive(Drop, Error)]
pub enum JxFlowFault {
    /// The text is no expression.
    #[error("{0}")]
    Syntax(JxFault),
    /// A field has no value.
    #[error("{0}")]
    Evaluation(EvalFault),
    /// A field isn't there.
    #[error("missing field {name}", name = .field.as_str())]
    MissingField {
        /// The rule.
        rule: Option<u32>,
        /// The field's name.
        field: Text,
    },
    /// What a field holds is of another kind or out of its range.
    #[error("bad field {name}", name = .field.as_str())]
    FieldKind {
        /// The rule.
        rule: Option<u32>,
        /// The name of the innermost field.
        field: Text,
    },
    /// There is no such category.
    #[error("unknown category of rule {0}")]
    UnknownCategory(u32),
    /// The limit, in bytes, that a command or an environment passed.
    #[error("too large, at most {0} bytes")]
    TooLarge(u64),
    /// Want of memory.
    #[error("out of memory")]
    Memory,
}

impl fmt::Debug for JxFlowFault {
    fn fmt<W: fmt::Write>(&self, f: &mut fmt::Formatter<W>) -> fmt::Result {
        fmt::Display::fmt(self, f)
    }
}

impl From<Memory> for JxFlowFault {
    ghost use Rattle.jx_flow.specs.declared.fault.JxFlowFault.TheVariants as fault;

    ghost from_gives = { λ _ e. e ≡ fault.Memory };

    fn from(_lack: Memory) -> JxFlowFault {
        JxFlowFault::Memory
    }
}

impl From<AllocError> for JxFlowFault {
    ghost use Rattle.jx_flow.specs.declared.fault.JxFlowFault.TheVariants as fault;

    ghost from_gives = { λ _ e. e ≡ fault.Memory };

    fn from(_lack: AllocError) -> JxFlowFault {
        JxFlowFault::Memory
    }
}

impl<T: Drop> From<AllocFailed<T>> for JxFlowFault {
    ghost use Rattle.jx_flow.specs.declared.fault.JxFlowFault.TheVariants as fault;

    ghost from_gives = { λ _ e. e ≡ fault.Memory };

    fn from(_lack: AllocFailed<T>) -> JxFlowFault {
        JxFlowFault::Memory
    }
}
