//! Stops, and the end of a run.
ghost use Rattle.std.specs.Prelude.{◌≡◌, ◌≢◌, IfSome, IsErrOf, true, false, None, is_some};
ghost use Rattle.flow_types.specs.Plans.{is_empty};
ghost use Rattle.flow_types.specs.declared.plan.Plan.{Plan as PlanValue};
ghost use Rattle.run_history.specs.Admissions.{stop_by};
ghost use Rattle.run_history.specs.History.{part};
ghost use Rattle.run_history.specs.Answers.{end_of, has_ended, stop_of};
ghost use Rattle.run_history.specs.Links.{records_of};
ghost use Rattle.outside.specs.Disk.{LeavesOnly};
ghost use Rattle.desk.specs.declared.answers.EndRefused.TheVariants as refused;
ghost use Rattle.desk.specs.Ends.{Answers, Ends, KeepsEnd, says_stopped};
ghost use Rattle.desk.specs.Kept.{Fits, Keeps, ReadsStay, StaysBeside, FilesHold};
ghost use Rattle.desk.specs.Room.{KeepsAmple};
ghost use Rattle.desk.specs.State.{IsFine, has_room};

use super::Desk;
use crate::kinds::kind_of;
use crate::{ClaimRefused, CloseRefused, EndRefused, Terms};
use flow_types::{Memory, Record};
use outside::{Commands, Site};
use run_history::{Check, Stop};
use task_core::{Admission, AdmitAll, Reply};

// Whether the reply to a stop says that one stands.
fn says_stopped(reply: Reply) -> bool
    ensures { result ≡ says_stopped reply }
{
    match reply {
        Reply::Stopped(stands) => stands,
        _ => false,
    }
}

impl<F: Commands, S: Site, T: Terms, A: Admission> Desk<F, S, T, A> {
    /// Asks for a stop, and answers whether one stands now. The first stop stays. Where none stands
    /// Halt is set always, and Waited where waiting is in vain: no attempt runs, no file is wanted,
    /// and some admitted ready rule fits the storage, but no live link takes such a rule. It takes
    /// no memory. Condition: the admission stands for the plan.
    pub fn stop_by(&mut self, admission: &mut A, why: Stop) -> bool
        requires stands { A.stands_for admission.old self.old.plan }
        ensures answer { result ≡ is_some self.new.stop }
        ensures stop { self.new ≡ record self.old {
          stop = stop_by A.admitted self.old.plan self.old.options self.old.moves self.old.stop
              why;
        } }
        ensures stays { (P : PlanValue) → A.stands_for admission.old P
            → A.stands_for admission.new P }
    {
        says_stopped(self.table.stop_by(admission, why))
    }

    /// Whether this run has ended: `end` has logged it.
    pub fn has_ended(&self) -> bool
        ensures { result ≡ has_ended (records_of self.now.moves) }
    {
        self.table.has_ended()
    }

    /// How the run ends, or why it goes on, for a desk whose run has not ended.
    fn ending(&self) -> Check
        requires goes_on { has_ended (records_of self.now.moves) ≡ false }
        ensures answer { result ≡ end_of self.now.plan self.now.options self.now.moves
            self.now.stop }
        ensures opened { is_empty (part (records_of self.now.moves)) ≡ false }
        ensures places { has_room self.now.plan (records_of self.now.moves) ≡ true }
        ensures files { S.tells → T.kept → IsFine self.now.trouble
            → FilesHold (Fits T.trust F.gives T.sources) self.now.plan (records_of self.now.moves)
            (S.may_leave self.now.site) }
        ensures still { S.tells → T.kept → IsFine self.now.trouble
            → LeavesOnly S.moment S.images_since self.now.site self.now.site
            (Keeps (Fits T.trust F.gives T.sources) self.now.plan self.now.log
            (records_of self.now.moves)) }
    {
        self.table.check()
    }

    /// What the end of this run answered, where it has ended.
    fn answered(&self) -> Option<Check>
        ensures ended { IfSome result (λ answer.
            Answers self.now.plan self.now.options self.now.moves self.now.stop answer) }
        ensures goes_on { result ≡ None → has_ended (records_of self.now.moves) ≡ false }
        ensures still { S.tells → T.kept → IsFine self.now.trouble
            → LeavesOnly S.moment S.images_since self.now.site self.now.site
            (Keeps (Fits T.trust F.gives T.sources) self.now.plan self.now.log
            (records_of self.now.moves)) }
    {
        self.table.ended_with()
    }

    /// The first end of this run.
    fn end_now(&mut self, moment: u64) -> Result<Check, EndRefused>
        requires fine { IsFine self.old.trouble }
        requires goes_on { has_ended (records_of self.old.moves) ≡ false }
        ensures reply { Ends S.count self.old moment result self.new }
        ensures any_moment { S.tells → T.kept
            → LeavesOnly S.moment S.images_since self.old.site self.new.site
            (KeepsEnd (Fits T.trust F.gives T.sources) self.old moment) }
        ensures others { S.tells → StaysBeside S.may_leave S.moment S.images_since
            (λ m. m ≢ self.old.log) self.old.site self.new.site }
        ensures reads { S.tells → ReadsStay S.files
            (λ m. m ≢ self.old.log) self.old.site self.new.site }
        ensures spares { S.ample self.old.site → IsErrOf result refused.Memory
            → self.new ≡ self.old }
        ensures ample { KeepsAmple (S.ample self.old.site) (S.ample self.new.site)
            (S.count self.new.site) result }
    {
        let answer = self.ending();
        match kind_of(answer) {
            Some(kind) => match self.record(Record::Ended { moment, kind }) {
                Ok(()) => Ok(answer),
                Err(CloseRefused::Stale { .. }) => unreachable!(),
                Err(CloseRefused::Broken { before, after }) => {
                    Err(EndRefused::Broken { before, after })
                }
                Err(CloseRefused::Memory) => Err(EndRefused::Memory),
            },
            None => Ok(answer),
        }
    }

    /// How the run ends, or why it goes on. Complete, CommandFailed, InputsTooLarge, NoRoom and
    /// Waited are logged as its end. Once this run has ended it answers the same again, whatever
    /// stop was asked for since, and logs nothing more.
    pub fn end(&mut self, moment: u64) -> Result<Check, EndRefused>
        ensures reply { Ends S.count self.old moment result self.new }
        ensures any_moment { S.tells → T.kept → IsFine self.old.trouble
            → LeavesOnly S.moment S.images_since self.old.site self.new.site
            (KeepsEnd (Fits T.trust F.gives T.sources) self.old moment) }
        ensures others { S.tells → StaysBeside S.may_leave S.moment S.images_since
            (λ m. m ≢ self.old.log) self.old.site self.new.site }
        ensures reads { S.tells → ReadsStay S.files
            (λ m. m ≢ self.old.log) self.old.site self.new.site }
        ensures spares { S.ample self.old.site → IsFine self.old.trouble
            → IsErrOf result refused.Memory → self.new ≡ self.old }
        ensures ample { KeepsAmple (S.ample self.old.site) (S.ample self.new.site)
            (S.count self.new.site) result }
    {
        match self.working() {
            Ok(()) => {}
            Err(ClaimRefused::Broken { before, after }) => {
                return Err(EndRefused::Broken { before, after });
            }
            Err(ClaimRefused::Memory) => return Err(EndRefused::Memory),
        }
        match self.answered() {
            Some(answer) => Ok(answer),
            None => self.end_now(moment),
        }
    }
}

impl<F: Commands, S: Site, T: Terms> Desk<F, S, T, AdmitAll> {
    /// Asks for a stop, and answers whether one stands now. The first stop stays. Where none stands
    /// Halt is set always, and Waited where waiting is in vain: no attempt runs, no file is wanted,
    /// and some ready rule fits the storage, but no live link takes such a rule. It takes no
    /// memory.
    pub fn stop(&mut self, why: Stop) -> bool
        ensures answer { result ≡ is_some self.new.stop }
        ensures stop { self.new ≡ record self.old {
          stop = stop_of self.old.plan self.old.options self.old.moves self.old.stop why;
        } }
    {
        let mut all = AdmitAll;
        self.stop_by(&mut all, why)
    }
}
