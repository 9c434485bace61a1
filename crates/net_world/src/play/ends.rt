//! Ends of a run.
ghost use Rattle.std.specs.Prelude.{◌≡◌, OnOk};
ghost use Rattle.run_history.specs.Answers.{kind_of};
ghost use Rattle.world_laws.specs.Worlds.{ends};
ghost use Rattle.net_world.specs.Plays.{Turns};

use crate::play::{Play, note};
use flow_types::{EndKind, Memory, Record};
use run_history::Check;

impl Play {
    // The run ends, where it hasn't and its answer is one that is logged.
    pub(crate) fn end(&mut self) -> Result<(), Memory>
        ensures { OnOk result (Turns (λ P O w. ends P O w) self.old self.new) }
    {
        if self.table.has_ended() {
            return Ok(());
        }
        if !self.table.is_begun() {
            return Ok(());
        }
        match kind_of(self.table.end()) {
            Some(kind) => note(&mut self.records, Record::Ended { moment: 0, kind }),
            None => Ok(()),
        }
    }
}

// The kind of the end that an answer is logged by.
fn kind_of(answer: Check) -> Option<EndKind>
    ensures { result ≡ kind_of answer }
{
    match answer {
        Check::Going | Check::Halted | Check::LogFull { .. } => None,
        Check::Complete { .. } => Some(EndKind::Complete),
        Check::CommandFailed { .. } => Some(EndKind::CommandFailed),
        Check::InputsTooLarge { .. } => Some(EndKind::InputsTooLarge),
        Check::NoRoom { .. } => Some(EndKind::NoRoom),
        Check::Waited(_) => Some(EndKind::Waited),
    }
}
