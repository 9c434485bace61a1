//! Prints how a peer ends.
ghost use Rattle.std.specs.Prelude.{◌≡◌, ◌≤◌};
ghost use Rattle.peer_run.specs.Causes.{printed_cause};
ghost use Rattle.peer_run.specs.Ended.{IsPrinted};

use crate::PeerCause;
use outside::{Fault, Sink};

fn printed_cause(cause: PeerCause, before: u64, after: u64, printed: Result<(), Fault>) -> PeerCause
    ensures { result ≡ printed_cause before after cause printed }
{
    match printed {
        Ok(()) => cause,
        Err(Fault::Failed) => PeerCause::SinkFault { before, after },
        Err(Fault::Memory) => PeerCause::Memory,
    }
}

/// Prints the line of a peer that ends by this cause, and answers the cause that stands then.
pub fn tell<O: Sink>(cause: PeerCause, line: &[u8], out: &mut O) -> PeerCause
    ensures { IsPrinted O.tells (O.count out.old) (O.count out.new) (O.bytes out.old)
        (O.bytes out.new) line.now cause result }
{
    let before = out.faults();
    let printed = out.write(line);
    printed_cause(cause, before, out.faults(), printed)
}
