//! What the calls of a desk share: one more record, and what is answered by a desk that works no
//! more.
ghost use Rattle.std.specs.Prelude.{◌≡◌, ◌≢◌, ◌≤◌, ◌++◌, ◌∷◌, [], length, IsErrOf, true, false};
ghost use Rattle.run_history.specs.declared.moves.Move.TheVariants as moves;
ghost use Rattle.run_history.specs.History.{is_cleaned};
ghost use Rattle.run_history.specs.Legal.{is_allowed};
ghost use Rattle.run_history.specs.Links.{records_of};
ghost use Rattle.run_history.specs.Moves.{is_served};
ghost use Rattle.rule_graph.specs.Spelling.{plan_digest};
ghost use Rattle.log_records.specs.Spelling.{ListsFew, spelling};
ghost use Rattle.outside.specs.Disk.{LeavesOnly};
ghost use Rattle.desk.specs.Admitted.{IsAdmitted};
ghost use Rattle.desk.specs.Asked.{IsAskedFailure, IsAskedLoss, MayFail};
ghost use Rattle.desk.specs.Claims.{Works};
ghost use Rattle.desk.specs.Follows.{Follows, IsShaped};
ghost use Rattle.desk.specs.Kept.{Fits, Keeps, ReadsStay, StaysBeside, FilesHold, KeepsEither};
ghost use Rattle.desk.specs.Room.{KeepsAmple, closes, longest_closing};
ghost use Rattle.desk.specs.declared.answers.CloseRefused.TheVariants as refused;
ghost use Rattle.desk.specs.State.{IsFine, Records, has_room};

use super::Desk;
use crate::entry::log_entry;
use crate::follow::follow;
use crate::room::places_behind;
use crate::{ClaimRefused, CloseRefused, Terms, Trouble};
use flow_types::{Memory, Record};
use outside::{Commands, Fault, Site};
use task_core::Admission;

impl<F: Commands, S: Site, T: Terms, A: Admission> Desk<F, S, T, A> {
    /// Whether the desk works, for a claim.
    pub(super) fn working(&self) -> Result<(), ClaimRefused>
        ensures { Works self.now result }
    {
        match self.trouble {
            Trouble::Fine => Ok(()),
            Trouble::Broken { before, after } => Err(ClaimRefused::Broken { before, after }),
            Trouble::Wants => Err(ClaimRefused::Memory),
        }
    }

    /// Adds a record that may stand there, and whose files the site has. Where memory is wanting
    /// before the log is touched, nothing has changed.
    pub(super) fn record(&mut self, entry: Record) -> Result<(), CloseRefused>
        requires few { ListsFew entry }
        requires fine { IsFine self.old.trouble }
        requires allowed { is_allowed self.old.plan (plan_digest self.old.plan)
            (records_of self.old.moves) entry ≡ true }
        requires served { is_served self.old.plan self.old.options self.old.moves entry ≡ true }
        requires failure { IsAskedFailure (MayFail T.trust F.gives F.may_fail T.sources)
            self.old.plan entry }
        requires loss { IsAskedLoss T.keen self.old.stop self.old.moves (moves.Logged entry) }
        requires admitted { IsAdmitted A.admitted self.old.plan self.old.options
            (records_of self.old.moves) entry }
        requires goes_on { is_cleaned entry ≡ false }
        requires shaped { IsShaped self.old.plan entry }
        requires follows { Follows self.old.plan self.old.options self.old.stop self.old.moves
            entry }
        requires places { has_room self.old.plan (records_of self.old.moves ++ entry ∷ [])
            ≡ true }
        requires files { S.tells → T.kept → FilesHold (Fits T.trust F.gives T.sources) self.old.plan
            (records_of self.old.moves ++ entry ∷ []) (S.may_leave self.old.site) }
        ensures reply { Records S.count self.old entry result self.new }
        ensures any_moment { S.tells → T.kept
            → LeavesOnly S.moment S.images_since self.old.site self.new.site
            (KeepsEither (Fits T.trust F.gives T.sources) self.old.plan self.old.log
            (records_of self.old.moves) entry) }
        ensures others { S.tells → StaysBeside S.may_leave S.moment S.images_since
            (λ m. m ≢ self.old.log) self.old.site self.new.site }
        ensures reads { S.tells → ReadsStay S.files
            (λ m. m ≢ self.old.log) self.old.site self.new.site }
        ensures later { S.count self.old.site ≤ S.count self.new.site }
        ensures never { S.ample self.old.site → closes entry ≡ true
            → length (spelling entry) ≤ longest_closing → IsErrOf result refused.Memory → ⊥ }
        ensures spared { S.ample self.old.site → closes entry ≡ false
            → length (spelling entry) ≤ longest_closing → IsErrOf result refused.Memory
            → self.new ≡ self.old }
        ensures ample { KeepsAmple (S.ample self.old.site) (S.ample self.new.site)
            (S.count self.new.site) result }
    {
        let more = places_behind(&self.table, &entry);
        match log_entry(
            &mut self.site,
            &mut self.log,
            &mut self.records,
            &mut self.steps,
            entry,
            more,
        ) {
            Ok(()) => {
                follow(&mut self.table, &self.records[self.records.len() - 1]);
                Ok(())
            }
            Err(Fault::Failed) => {
                let before = self.faults;
                let after = self.site.faults();
                self.trouble = Trouble::Broken { before, after };
                Err(CloseRefused::Broken { before, after })
            }
            Err(Fault::Memory) => {
                if self.log.is_fine() {
                    return Err(CloseRefused::Memory);
                }
                self.trouble = Trouble::Wants;
                Err(CloseRefused::Memory)
            }
        }
    }
}
