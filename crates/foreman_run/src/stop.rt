//! Why a foreman stops.
ghost use Rattle.std.specs.Prelude.{◌≡◌};
ghost use Rattle.peer_run.specs.declared.halt.Halt.{Halt as HaltValue};
ghost use Rattle.peer_run.specs.declared.halt.Halt.TheVariants as halts;

use outside::Fault;
use peer_run::Halt;

/// Why a foreman stops.
#[derive(Clone, Copy, Debug, PartialEq, Eq)]
pub enum Stop {
    /// It leaves its parent.
    Left(Halt),
    /// The place where its workers come failed.
    Hall,
}

impl Stop {
    // Why it stops where a call of the link to its parent failed so.
    pub(crate) fn of(fault: Fault) -> Stop
        ensures link { fault ≡ Fault.Failed → result ≡ Stop.Left halts.Link }
        ensures memory { fault ≡ Fault.Memory → result ≡ Stop.Left halts.Memory }
        ensures left { (halt : HaltValue) × (result ≡ Stop.Left halt) }
    {
        match fault {
            Fault::Failed => Stop::Left(Halt::Link),
            Fault::Memory => Stop::Left(Halt::Memory),
        }
    }
}
