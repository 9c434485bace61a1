//! Claims, what an attempt is to do, and what it takes in.
ghost use Rattle.std.specs.Prelude.{◌≡◌, ◌<◌, length, Some, IfOk};
ghost use Rattle.flow_types.specs.Serial.{serial};
ghost use Rattle.run_history.specs.Links.{records_of};
ghost use Rattle.desk.specs.Inputs.{IsWhole};
ghost use Rattle.desk.specs.Tasks.{task_of};
ghost use Rattle.flow_types.specs.declared.plan.Plan.{Plan as PlanValue};
ghost use Rattle.board.specs.Calls.{AreCounts, Called, ClaimsByHere, ClaimsHere, OnBoard};
ghost use Rattle.board.specs.Calls.{ReadsHere};
ghost use Rattle.board.specs.Goes.{OthersStay};

use super::{Board, Pass};
use crate::shared::Shared;
use desk::{Attempt, Claim, ClaimRefused, InputRefused, Terms};
use flow_types::{Bytes, FileNo, LinkNo, Memory, Task};
use outside::{Commands, Site};
use std::alloc::Global;
use std::sync::Wait;
use std::sync::ledger::Ledger;
use task_core::{Admission, AdmitAll};
use turns::Counted;

impl<F: Commands, S: Site, T: Terms, A: Admission, L: Ledger> Board<F, S, T, A, L> {
    /// Starts an admitted rule, as the desk's `claim_by` says. Where the link doesn't live at the
    /// turn, the answer is want of memory, and nothing changes. Condition: the admission stands for
    /// the desk's plan.
    pub fn claim_by<W: Wait>(
        &self,
        rt: &W,
        pass: &mut Pass<F, S, T, A, L>,
        link: LinkNo,
        admission: &mut A,
        moment: u64,
    ) -> Result<Claim, ClaimRefused>
        requires of { pass.old.of ≡ self.now }
        requires stands { OnBoard pass.old (λ d. A.stands_for admission.old d.plan) }
        ensures called { Called S.tells S.files S.may_leave S.moment S.images_since pass.old
            pass.new (λ found after.
            ClaimsByHere A.admitted S.count found link moment result after) }
        ensures stays { (P : PlanValue) → A.stands_for admission.old P
            → A.stands_for admission.new P }
    {
        self.turns.turn_mut(
            rt,
            pass,
            (),
            &mut |shared: &mut Shared<F, S, T, A>, _: ()| -> Counted<Result<Claim, ClaimRefused>>
                requires stands { A.stands_for admission.now shared.old.plan }
                ensures reply { ClaimsByHere A.admitted S.count shared.old link moment result.reply
                    shared.new }
                ensures others { OthersStay S.tells S.files S.may_leave S.moment S.images_since
                    shared.old shared.new }
                ensures counts { AreCounts shared.new result.moves result.done }
                ensures stays { (P : PlanValue) → A.stands_for admission.entry.now P
                    → A.stands_for admission.exit.now P }
            {
                let reply = shared.claim_by(link, admission, moment);
                shared.count(reply)
            },
        )
    }

    /// What an attempt is to do, as the desk's `task` says. Condition: the attempt's rule is in the
    /// plan.
    pub fn task<W: Wait>(
        &self,
        rt: &W,
        pass: &mut Pass<F, S, T, A, L>,
        alloc: Global,
        attempt: &Attempt,
    ) -> Result<Task, Memory>
        requires of { pass.old.of ≡ self.now }
        requires rule { OnBoard pass.old (λ d. attempt.now.rule.0 < length d.plan.rules) }
        ensures called { Called S.tells S.files S.may_leave S.moment S.images_since pass.old
            pass.new (λ found after. IfOk result (λ task.
            task_of found.plan (records_of found.moves) attempt.now ≡ Some task)
            × (after ≡ found)) }
    {
        self.turns.turn(
            rt,
            pass,
            attempt,
            |shared: &mut Shared<F, S, T, A>, attempt: &Attempt| -> Counted<Result<Task, Memory>>
                requires rule { attempt.now.rule.0 < length shared.old.plan.rules }
                ensures reply { IfOk result.reply (λ task.
                    task_of shared.old.plan (records_of shared.old.moves) attempt.now
                    ≡ Some task) }
                ensures same { shared.new ≡ shared.old }
                ensures counts { AreCounts shared.new result.moves result.done }
            {
                let reply = shared.desk.task(alloc, attempt);
                shared.count(reply)
            },
        )
    }

    /// The content of a file, as the desk's `read_input` says. Where the file isn't present at the
    /// turn, the answer is want of memory, and nothing changes.
    pub fn read_input<W: Wait>(
        &self,
        rt: &W,
        pass: &mut Pass<F, S, T, A, L>,
        alloc: Global,
        file: FileNo,
    ) -> Result<Bytes, InputRefused>
        requires of { pass.old.of ≡ self.now }
        ensures called { Called S.tells S.files S.may_leave S.moment S.images_since pass.old
            pass.new (λ found after. ReadsHere S.tells S.files S.count found file result after
            × IfOk result (λ bytes. S.tells → T.kept → T.trust
            → serial found.plan F.gives T.sources file.0 ≡ Some bytes)) }
        ensures whole { S.tells → T.kept → IsWhole result }
    {
        self.turns.turn(
            rt,
            pass,
            (),
            |shared: &mut Shared<F, S, T, A>, _: ()| -> Counted<Result<Bytes, InputRefused>>
                ensures reply { ReadsHere S.tells S.files S.count shared.old file result.reply
                    shared.new }
                ensures honest { IfOk result.reply (λ bytes. S.tells → T.kept → T.trust
                    → serial shared.old.plan F.gives T.sources file.0 ≡ Some bytes) }
                ensures whole { S.tells → T.kept → IsWhole result.reply }
                ensures others { OthersStay S.tells S.files S.may_leave S.moment S.images_since
                    shared.old shared.new }
                ensures counts { AreCounts shared.new result.moves result.done }
            {
                let reply = shared.read_input(alloc, file);
                shared.count(reply)
            },
        )
    }
}

impl<F: Commands, S: Site, T: Terms, L: Ledger> Board<F, S, T, AdmitAll, L> {
    /// Starts a rule, as the desk's `claim` says. Where the link doesn't live at the turn, the
    /// answer is want of memory, and nothing changes.
    pub fn claim<W: Wait>(
        &self,
        rt: &W,
        pass: &mut Pass<F, S, T, AdmitAll, L>,
        link: LinkNo,
        moment: u64,
    ) -> Result<Claim, ClaimRefused>
        requires of { pass.old.of ≡ self.now }
        ensures called { Called S.tells S.files S.may_leave S.moment S.images_since pass.old
            pass.new (λ found after. ClaimsHere S.count found link moment result after) }
    {
        self.turns.turn(
            rt,
            pass,
            (),
            |shared: &mut Shared<F, S, T, AdmitAll>, _: ()| -> Counted<Result<Claim, ClaimRefused>>
                ensures reply { ClaimsHere S.count shared.old link moment result.reply shared.new }
                ensures others { OthersStay S.tells S.files S.may_leave S.moment S.images_since
                    shared.old shared.new }
                ensures counts { AreCounts shared.new result.moves result.done }
            {
                let reply = shared.claim(link, moment);
                shared.count(reply)
            },
        )
    }
}
