//! Why a line is no request.
ghost use Rattle.std.specs.Prelude.{◌≡◌};
ghost use Rattle.serve_lines.specs.Requests.{name_of_part};

use flow_types::Memory;
use std::alloc::{AllocError, AllocFailed};

/// A member of a request.
#[derive(Clone, Copy, Debug, PartialEq, Eq)]
pub enum Part {
    Submit,
    Inputs,
    Outputs,
    Env,
    Bound,
    Cores,
    Memory,
    Disk,
    Cancel,
}

impl Part {
    /// The member's key.
    pub fn name(self) -> &'static str
        ensures { result.now ≡ name_of_part self }
    {
        match self {
            Part::Submit => "submit",
            Part::Inputs => "inputs",
            Part::Outputs => "outputs",
            Part::Env => "env",
            Part::Bound => "bound",
            Part::Cores => "cores",
            Part::Memory => "memory",
            Part::Disk => "disk",
            Part::Cancel => "cancel",
        }
    }
}

/// Why a line is no request.
#[derive(Clone, Copy, Debug, PartialEq, Eq)]
pub enum Refusal {
    /// It has more than 16,777,216 bytes.
    TooLong,
    /// It isn't UTF-8.
    NotText,
    /// It is no JSON text, or nests deeper than 127.
    NotJson,
    /// It is a JSON text of another kind than an object.
    NotObject,
    /// It has a member that its request doesn't have.
    Unknown,
    /// This member isn't there and has to be, or isn't what it has to be.
    Bad(Part),
}

/// Why nothing was read of a line.
#[derive(Clone, Copy, Debug, PartialEq, Eq)]
pub enum LineFault {
    /// The line is no request.
    Refused(Refusal),
    /// Want of memory.
    Memory,
}

impl From<Memory> for LineFault {
    ghost use Rattle.serve_lines.specs.declared.fault.LineFault.TheVariants as fault;

    ghost from_gives = { λ _ e. e ≡ fault.Memory };

    fn from(_lack: Memory) -> LineFault {
        LineFault::Memory
    }
}

impl From<AllocError> for LineFault {
    ghost use Rattle.serve_lines.specs.declared.fault.LineFault.TheVariants as fault;

    ghost from_gives = { λ _ e. e ≡ fault.Memory };

    fn from(_lack: AllocError) -> LineFault {
        LineFault::Memory
    }
}

impl<T: Drop> From<AllocFailed<T>> for LineFault {
    ghost use Rattle.serve_lines.specs.declared.fault.LineFault.TheVariants as fault;

    ghost from_gives = { λ _ e. e ≡ fault.Memory };

    fn from(_lack: AllocFailed<T>) -> LineFault {
        LineFault::Memory
    }
}
