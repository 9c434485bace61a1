//! The closing of an attempt: it is done, it failed, or it is lost.
ghost use Rattle.std.specs.Prelude.{◌≡◌, ◌≢◌, ◌<◌, length, map, true, IfOk};
ghost use Rattle.flow_types.specs.declared.records.Record.TheVariants as entries;
ghost use Rattle.flow_types.specs.Plans.{makes};
ghost use Rattle.run_history.specs.Legal.{is_failure_at};
ghost use Rattle.run_history.specs.Links.{records_of};
ghost use Rattle.run_history.specs.Storage.{has_failed};
ghost use Rattle.desk.specs.Asked.{MayFail};
ghost use Rattle.desk.specs.Kept.{IsElse, logged};
ghost use Rattle.desk.specs.State.{AreOutputs, CanLose, Closes, IsDue, closed, is_final};
ghost use Rattle.board.specs.Calls.{AreCounts, Called, OnBoard, Sees};
ghost use Rattle.board.specs.Goes.{Stay};

use super::{Board, Pass};
use crate::shared::Shared;
use desk::{Attempt, CloseRefused, Terms};
use flow_types::{Bytes, Failure, Rows};
use outside::{Commands, Site};
use run_history::Next;
use std::sync::Wait;
use std::sync::ledger::Ledger;
use task_core::Admission;
use turns::Counted;

impl<F: Commands, S: Site, T: Terms, A: Admission, L: Ledger> Board<F, S, T, A, L> {
    /// Closes an attempt that made these outputs, as the desk's `finish` says. Conditions: the
    /// attempt's rule is in the plan, and the outputs are its, and honest work where there is trust.
    pub fn finish<W: Wait>(
        &self,
        rt: &W,
        pass: &mut Pass<F, S, T, A, L>,
        attempt: Attempt,
        outs: &Rows<Bytes>,
        moment: u64,
    ) -> Result<(), CloseRefused>
        requires of { pass.old.of ≡ self.now }
        requires rule { OnBoard pass.old (λ d. attempt.rule.0 < length d.plan.rules) }
        requires outputs { OnBoard pass.old (λ d. AreOutputs d.plan attempt.rule.0 outs.now) }
        requires honest { OnBoard pass.old (λ d. T.trust
            → IsDue d.plan F.gives T.sources attempt.rule.0 outs.now) }
        ensures called { Called S.tells S.files S.may_leave S.moment S.images_since pass.old
            pass.new (λ found after. Closes S.count found attempt.rule attempt.number attempt.link
            (entries.Done moment attempt.rule attempt.number (map logged outs.now)) result after) }
    {
        self.turns.turn(
            rt,
            pass,
            (attempt, outs),
            |shared: &mut Shared<F, S, T, A>, given: (Attempt, &Rows<Bytes>)| -> Counted<
                Result<(), CloseRefused>,
            >
                requires rule { given.0.rule.0 < length shared.old.plan.rules }
                requires outputs { AreOutputs shared.old.plan given.0.rule.0 given.1.now }
                requires honest { T.trust
                    → IsDue shared.old.plan F.gives T.sources given.0.rule.0 given.1.now }
                ensures reply { Closes S.count shared.old given.entry.0.rule given.entry.0.number
                    given.entry.0.link (entries.Done moment given.entry.0.rule given.entry.0.number
                    (map logged given.entry.1.now)) result.reply shared.new }
                ensures others { S.tells → Stay S.tells S.files S.may_leave S.moment S.images_since
                    (IsElse shared.old.plan shared.old.log (makes shared.old.plan
                    given.entry.0.rule.0)) shared.old.site shared.new.site }
                ensures counts { AreCounts shared.new result.moves result.done }
            {
                let (attempt, outs) = given;
                let reply = shared.desk.finish(attempt, outs, moment);
                shared.count(reply)
            },
        )
    }

    /// Closes an attempt whose command failed, as the desk's `fail` says. Conditions: the attempt's
    /// rule is in the plan, and the failure is one of it, and of honest work where there is trust.
    pub fn fail<W: Wait>(
        &self,
        rt: &W,
        pass: &mut Pass<F, S, T, A, L>,
        attempt: Attempt,
        why: Failure,
        moment: u64,
    ) -> Result<Next, CloseRefused>
        requires of { pass.old.of ≡ self.now }
        requires rule { OnBoard pass.old (λ d. attempt.rule.0 < length d.plan.rules) }
        requires index { OnBoard pass.old (λ d.
            is_failure_at why (length (makes d.plan attempt.rule.0)) ≡ true) }
        requires honest { OnBoard pass.old (λ d.
            MayFail T.trust F.gives F.may_fail T.sources d.plan attempt.rule.0 why) }
        ensures called { Called S.tells S.files S.may_leave S.moment S.images_since pass.old
            pass.new (λ found after. Closes S.count found attempt.rule attempt.number attempt.link
            (entries.Failed moment attempt.rule attempt.number why) (closed result) after
            × IfOk result (λ next.
            is_final next ≡ has_failed (records_of after.moves) attempt.rule.0)) }
    {
        self.turns.turn(
            rt,
            pass,
            attempt,
            |shared: &mut Shared<F, S, T, A>, attempt: Attempt| -> Counted<
                Result<Next, CloseRefused>,
            >
                requires rule { attempt.rule.0 < length shared.old.plan.rules }
                requires index { is_failure_at why (length (makes shared.old.plan attempt.rule.0))
                    ≡ true }
                requires honest { MayFail T.trust F.gives F.may_fail T.sources shared.old.plan
                    attempt.rule.0 why }
                ensures reply { Closes S.count shared.old attempt.rule attempt.number attempt.link
                    (entries.Failed moment attempt.rule attempt.number why) (closed result.reply)
                    shared.new }
                ensures next { IfOk result.reply (λ next. is_final next
                    ≡ has_failed (records_of shared.new.moves) attempt.rule.0) }
                ensures others { S.tells → Stay S.tells S.files S.may_leave S.moment S.images_since
                    (λ m. m ≢ shared.old.log) shared.old.site shared.new.site }
                ensures counts { AreCounts shared.new result.moves result.done }
            {
                let reply = shared.desk.fail(attempt, why, moment);
                shared.count(reply)
            },
        )
    }

    /// Gives an attempt up, as the desk's `lose` says. Conditions: the attempt's rule is in the
    /// plan, and on a link where attempts are kept as long as may be the pass has seen why it may
    /// be lost.
    pub fn lose<W: Wait>(
        &self,
        rt: &W,
        pass: &mut Pass<F, S, T, A, L>,
        attempt: Attempt,
        moment: u64,
    ) -> Result<(), CloseRefused>
        requires of { pass.old.of ≡ self.now }
        requires rule { OnBoard pass.old (λ d. attempt.rule.0 < length d.plan.rules) }
        requires keen { T.keen attempt.link.0
            → Sees pass.old (λ d. CanLose d attempt.link.0) }
        ensures called { Called S.tells S.files S.may_leave S.moment S.images_since pass.old
            pass.new (λ found after. Closes S.count found attempt.rule attempt.number attempt.link
            (entries.Lost moment attempt.rule attempt.number) result after) }
    {
        self.turns.turn(
            rt,
            pass,
            attempt,
            |shared: &mut Shared<F, S, T, A>, attempt: Attempt| -> Counted<Result<(), CloseRefused>>
                requires rule { attempt.rule.0 < length shared.old.plan.rules }
                requires keen { T.keen attempt.link.0 → CanLose shared.old attempt.link.0 }
                ensures reply { Closes S.count shared.old attempt.rule attempt.number attempt.link
                    (entries.Lost moment attempt.rule attempt.number) result.reply shared.new }
                ensures others { S.tells → Stay S.tells S.files S.may_leave S.moment S.images_since
                    (λ m. m ≢ shared.old.log) shared.old.site shared.new.site }
                ensures counts { AreCounts shared.new result.moves result.done }
            {
                let reply = shared.desk.lose(attempt, moment);
                shared.count(reply)
            },
        )
    }
}
