//! Why a log can't be recovered.
use outside::Fault;
use thiserror::Error;

/// Why a log can't be recovered.
#[derive(Clone, Copy, Debug, PartialEq, Eq, Error)]
pub enum RecoverFault {
    /// The site failed.
    #[error("the site of the log failed")]
    Site,
    /// The file is longer than a log that isn't begun, and doesn't begin as a log.
    #[error("the file is no log")]
    BadHeader,
    /// No gate stands at this place, or an open one and no record.
    #[error("the log is damaged at byte {at}")]
    BadRecord { at: u64 },
    /// There is no memory.
    #[error("out of memory")]
    Memory,
}

impl From<Fault> for RecoverFault {
    ghost use Rattle.std.specs.Prelude.{◌≡◌};
    ghost use Rattle.log_recover.specs.declared.fault.RecoverFault.TheVariants.{Site, Memory};
    ghost use Rattle.outside.specs.declared.fault.Fault.TheVariants as outer;

    ghost from_gives = { λ f e. (f ≡ outer.Failed → e ≡ Site) × (f ≡ outer.Memory → e ≡ Memory) };

    fn from(fault: Fault) -> Self {
        match fault {
            Fault::Failed => RecoverFault::Site,
            Fault::Memory => RecoverFault::Memory,
        }
    }
}
