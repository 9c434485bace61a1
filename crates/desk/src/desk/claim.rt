//! Claims, and what an attempt is to do.
ghost use Rattle.std.specs.Prelude.{◌≡◌, ◌≢◌, ◌≤◌, ◌<◌, length, Some, IfOk, IsErrOf, Ok, true};
ghost use Rattle.std.specs.Prelude.{false};
ghost use Rattle.std.specs.Vec.{vec_capacity};
ghost use Rattle.flow_types.specs.Plans.{is_empty, makes};
ghost use Rattle.run_history.specs.History.{next_attempt, part};
ghost use Rattle.flow_types.specs.declared.plan.Plan.{Plan as PlanValue};
ghost use Rattle.run_history.specs.Admissions.{claim_by, is_claimable};
ghost use Rattle.run_history.specs.Laws.{started_as};
ghost use Rattle.run_history.specs.Links.{is_live, records_of};
ghost use Rattle.outside.specs.Disk.{LeavesOnly};
ghost use Rattle.task_core.specs.Surveys.{claimed};
ghost use Rattle.desk.specs.declared.answers.ClaimRefused.TheVariants as refused;
ghost use Rattle.desk.specs.Claims.{Claims, ClaimsBy, KeepsClaim, KeepsClaimBy, Starts};
ghost use Rattle.desk.specs.Kept.{Fits, Keeps, ReadsStay, StaysBeside, FilesHold, KeepsEither};
ghost use Rattle.desk.specs.Room.{KeepsAmple};
ghost use Rattle.desk.specs.Tasks.{task_of};
ghost use Rattle.desk.specs.State.{IsFine};

use super::Desk;
use crate::attempt::Attempt;
use crate::room::room_for;
use crate::tasks::task_with;
use crate::{Claim, ClaimRefused, CloseRefused, Terms};
use flow_types::{AttemptNo, Content, LinkNo, Memory, Record, RuleNo, Task};
use outside::{Commands, Site};
use run_history::Nothing;
use std::alloc::Global;
use task_core::{Admission, AdmitAll};

impl<F: Commands, S: Site, T: Terms, A: Admission> Desk<F, S, T, A> {
    /// The number of the next attempt.
    fn next_number(&self) -> AttemptNo
        ensures number { result ≡ record { 0 = next_attempt (records_of self.now.moves) } }
        ensures opened { is_empty (part (records_of self.now.moves)) ≡ false }
        ensures files { S.tells → T.kept → IsFine self.now.trouble
            → FilesHold (Fits T.trust F.gives T.sources) self.now.plan (records_of self.now.moves)
            (S.may_leave self.now.site) }
        ensures still { S.tells → T.kept → IsFine self.now.trouble
            → LeavesOnly S.moment S.images_since self.now.site self.now.site
            (Keeps (Fits T.trust F.gives T.sources) self.now.plan self.now.log
            (records_of self.now.moves)) }
    {
        self.table.next_attempt()
    }

    /// Room for the contents of a rule's outputs.
    fn rows_for(&self, rule: RuleNo) -> Result<Vec<Content>, Memory>
        requires rule { rule.0 < length self.now.plan.rules }
        ensures { IfOk result (λ rows. length (makes self.now.plan rule.0) ≤ vec_capacity rows) }
    {
        room_for(self.alloc, self.table.plan(), rule)
    }

    /// Starts an admitted rule that a claim for a live link may answer. All but the choice of the
    /// rule is done here.
    pub(crate) fn take(
        &mut self,
        rule: RuleNo,
        link: LinkNo,
        moment: u64,
    ) -> Result<Attempt, ClaimRefused>
        requires fine { IsFine self.old.trouble }
        requires lives { is_live self.old.options self.old.moves link.0 ≡ true }
        requires claimable { is_claimable self.old.plan self.old.options self.old.moves
            self.old.stop link.0 rule.0
            ≡ true }
        requires admitted { A.admitted self.old.plan self.old.options (records_of self.old.moves)
            rule.0
            ≡ true }
        ensures reply { Starts S.count self.old rule link moment result self.new }
        ensures any_moment { S.tells → T.kept
            → LeavesOnly S.moment S.images_since self.old.site self.new.site
            (KeepsEither (Fits T.trust F.gives T.sources) self.old.plan self.old.log
            (records_of self.old.moves) (started_as self.old.moves rule moment link)) }
        ensures others { S.tells → StaysBeside S.may_leave S.moment S.images_since
            (λ m. m ≢ self.old.log) self.old.site self.new.site }
        ensures reads { S.tells → ReadsStay S.files
            (λ m. m ≢ self.old.log) self.old.site self.new.site }
        ensures spares { S.ample self.old.site → IsErrOf result refused.Memory
            → self.new ≡ self.old }
        ensures ample { KeepsAmple (S.ample self.old.site) (S.ample self.new.site)
            (S.count self.new.site) result }
    {
        let number = self.next_number();
        let Ok(rows) = self.rows_for(rule) else {
            return Err(ClaimRefused::Memory);
        };
        match self.record(Record::Started {
            moment,
            rule,
            attempt: number,
            link,
        }) {
            Ok(()) => Ok(Attempt {
                rule,
                number,
                link,
                rows,
            }),
            Err(CloseRefused::Stale { .. }) => unreachable!(),
            Err(CloseRefused::Broken { before, after }) => {
                Err(ClaimRefused::Broken { before, after })
            }
            Err(CloseRefused::Memory) => Err(ClaimRefused::Memory),
        }
    }

    /// The rule that a claim for the link takes, or why there is none.
    fn chosen(&self, link: LinkNo, admission: &mut A) -> Result<RuleNo, Nothing>
        requires stands { A.stands_for admission.old self.now.plan }
        ensures chosen { claimed result ≡ claim_by A.admitted self.now.plan self.now.options
            self.now.moves self.now.stop link.0 }
        ensures claimable { IfOk result (λ rule. is_claimable self.now.plan self.now.options
            self.now.moves self.now.stop link.0 rule.0
            ≡ true) }
        ensures admitted { IfOk result (λ rule. A.admitted self.now.plan self.now.options
            (records_of self.now.moves) rule.0
            ≡ true) }
        ensures still { S.tells → T.kept → IsFine self.now.trouble
            → LeavesOnly S.moment S.images_since self.now.site self.now.site
            (Keeps (Fits T.trust F.gives T.sources) self.now.plan self.now.log
            (records_of self.now.moves)) }
        ensures stays { (P : PlanValue) → A.stands_for admission.old P
            → A.stands_for admission.new P }
    {
        self.table.choice_by(link, admission)
    }

    /// Starts the least rule that may run on the link, fits it and the storage and is admitted, or
    /// answers why there is none: as without an admission, and last that rules fit both and none of
    /// them is admitted. Want of memory for it alone doesn't end the desk's work, and nothing has
    /// changed. Conditions: the link lives, and the admission stands for the plan.
    pub fn claim_by(
        &mut self,
        link: LinkNo,
        admission: &mut A,
        moment: u64,
    ) -> Result<Claim, ClaimRefused>
        requires lives { is_live self.old.options self.old.moves link.0 ≡ true }
        requires stands { A.stands_for admission.old self.old.plan }
        ensures reply { ClaimsBy A.admitted S.count self.old link moment result self.new }
        ensures any_moment { S.tells → T.kept → IsFine self.old.trouble
            → LeavesOnly S.moment S.images_since self.old.site self.new.site
            (KeepsClaimBy A.admitted (Fits T.trust F.gives T.sources) self.old link moment) }
        ensures others { S.tells → StaysBeside S.may_leave S.moment S.images_since
            (λ m. m ≢ self.old.log) self.old.site self.new.site }
        ensures reads { S.tells → ReadsStay S.files
            (λ m. m ≢ self.old.log) self.old.site self.new.site }
        ensures spares { S.ample self.old.site → IsFine self.old.trouble
            → IsErrOf result refused.Memory → self.new ≡ self.old }
        ensures ample { KeepsAmple (S.ample self.old.site) (S.ample self.new.site)
            (S.count self.new.site) result }
        ensures stays { (P : PlanValue) → A.stands_for admission.old P
            → A.stands_for admission.new P }
    {
        match self.working() {
            Ok(()) => {}
            Err(why) => return Err(why),
        }
        match self.chosen(link, admission) {
            Ok(rule) => match self.take(rule, link, moment) {
                Ok(attempt) => Ok(Claim::Taken(attempt)),
                Err(why) => Err(why),
            },
            Err(why) => Ok(Claim::Nothing(why)),
        }
    }

    /// What an attempt is to do, as it is handed out: its number, the number of this run's opening,
    /// and what its rule says, with the bound of each output in bytes. Condition: the attempt's
    /// rule is in the plan.
    pub fn task(&self, alloc: Global, attempt: &Attempt) -> Result<Task, Memory>
        requires { attempt.now.rule.0 < length self.now.plan.rules }
        ensures { IfOk result (λ task. task_of self.now.plan (records_of self.now.moves) attempt.now
            ≡ Some task) }
    {
        let run = self.table.runs_so_far().saturating_sub(1);
        let plan = self.table.plan();
        let rule = &plan.rules.as_slice()[attempt.rule.0 as usize];
        task_with(alloc, plan, rule, attempt.number, run)
    }
}

impl<F: Commands, S: Site, T: Terms> Desk<F, S, T, AdmitAll> {
    /// Starts the least rule that may run on the link and fits, or answers why there is none. Want
    /// of memory for it alone doesn't end the desk's work, and nothing has changed. Condition: the
    /// link lives.
    pub fn claim(&mut self, link: LinkNo, moment: u64) -> Result<Claim, ClaimRefused>
        requires lives { is_live self.old.options self.old.moves link.0 ≡ true }
        ensures reply { Claims S.count self.old link moment result self.new }
        ensures any_moment { S.tells → T.kept → IsFine self.old.trouble
            → LeavesOnly S.moment S.images_since self.old.site self.new.site
            (KeepsClaim (Fits T.trust F.gives T.sources) self.old link moment) }
        ensures others { S.tells → StaysBeside S.may_leave S.moment S.images_since
            (λ m. m ≢ self.old.log) self.old.site self.new.site }
        ensures reads { S.tells → ReadsStay S.files
            (λ m. m ≢ self.old.log) self.old.site self.new.site }
        ensures spares { S.ample self.old.site → IsFine self.old.trouble
            → IsErrOf result refused.Memory → self.new ≡ self.old }
        ensures ample { KeepsAmple (S.ample self.old.site) (S.ample self.new.site)
            (S.count self.new.site) result }
    {
        let mut all = AdmitAll;
        self.claim_by(link, &mut all, moment)
    }
}
