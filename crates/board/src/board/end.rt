//! Collections, stops, and the end of a run.
ghost use Rattle.std.specs.Prelude.{◌≡◌, ◌≢◌, is_some};
ghost use Rattle.desk.specs.Collections.{Collects, IsUncollected};
ghost use Rattle.desk.specs.Ends.{Ends};
ghost use Rattle.flow_types.specs.declared.plan.Plan.{Plan as PlanValue};
ghost use Rattle.board.specs.Calls.{AreCounts, Called, IsGone, OnBoard, Stops, StopsBy};
ghost use Rattle.board.specs.Goes.{Stay};

use super::{Board, Pass};
use crate::shared::Shared;
use desk::{CollectRefused, EndRefused, Terms};
use flow_types::FileNo;
use outside::{Commands, Site};
use run_history::{Check, Stop};
use std::sync::Wait;
use std::sync::ledger::Ledger;
use task_core::{Admission, AdmitAll};
use turns::Counted;

impl<F: Commands, S: Site, T: Terms, A: Admission, L: Ledger> Board<F, S, T, A, L> {
    /// Drops the file that is wanted for collection, as the desk's `collect` says.
    pub fn collect<W: Wait>(
        &self,
        rt: &W,
        pass: &mut Pass<F, S, T, A, L>,
        moment: u64,
    ) -> Result<Option<FileNo>, CollectRefused>
        requires of { pass.old.of ≡ self.now }
        ensures called { Called S.tells S.files S.may_leave S.moment S.images_since pass.old
            pass.new (λ found after. Collects S.count found moment result after
            × IsGone S.tells S.files found result after) }
    {
        self.turns.turn(
            rt,
            pass,
            (),
            |shared: &mut Shared<F, S, T, A>, _: ()| -> Counted<
                Result<Option<FileNo>, CollectRefused>,
            >
                ensures reply { Collects S.count shared.old moment result.reply shared.new }
                ensures gone { IsGone S.tells S.files shared.old result.reply shared.new }
                ensures others { S.tells → Stay S.tells S.files S.may_leave S.moment S.images_since
                    (IsUncollected shared.old) shared.old.site shared.new.site }
                ensures counts { AreCounts shared.new result.moves result.done }
            {
                let reply = shared.desk.collect(moment);
                shared.count(reply)
            },
        )
    }

    /// Asks for a stop, as the desk's `stop_by` says. Condition: the admission stands for the desk's
    /// plan.
    pub fn stop_by<W: Wait>(
        &self,
        rt: &W,
        pass: &mut Pass<F, S, T, A, L>,
        admission: &mut A,
        why: Stop,
    ) -> bool
        requires of { pass.old.of ≡ self.now }
        requires stands { OnBoard pass.old (λ d. A.stands_for admission.old d.plan) }
        ensures called { Called S.tells S.files S.may_leave S.moment S.images_since pass.old
            pass.new (λ found after. (result ≡ is_some after.stop)
            × StopsBy A.admitted found why after) }
        ensures stays { (P : PlanValue) → A.stands_for admission.old P
            → A.stands_for admission.new P }
    {
        self.turns.turn_mut(
            rt,
            pass,
            (),
            &mut |shared: &mut Shared<F, S, T, A>, _: ()| -> Counted<bool>
                requires stands { A.stands_for admission.now shared.old.plan }
                ensures reply { result.reply ≡ is_some shared.new.stop }
                ensures stops { StopsBy A.admitted shared.old why shared.new }
                ensures counts { AreCounts shared.new result.moves result.done }
                ensures stays { (P : PlanValue) → A.stands_for admission.entry.now P
                    → A.stands_for admission.exit.now P }
            {
                let reply = shared.desk.stop_by(admission, why);
                shared.count(reply)
            },
        )
    }

    /// How the run ends, or why it goes on, as the desk's `end` says.
    pub fn end<W: Wait>(
        &self,
        rt: &W,
        pass: &mut Pass<F, S, T, A, L>,
        moment: u64,
    ) -> Result<Check, EndRefused>
        requires of { pass.old.of ≡ self.now }
        ensures called { Called S.tells S.files S.may_leave S.moment S.images_since pass.old
            pass.new (λ found after. Ends S.count found moment result after) }
    {
        self.turns.turn(
            rt,
            pass,
            (),
            |shared: &mut Shared<F, S, T, A>, _: ()| -> Counted<Result<Check, EndRefused>>
                ensures reply { Ends S.count shared.old moment result.reply shared.new }
                ensures others { S.tells → Stay S.tells S.files S.may_leave S.moment S.images_since
                    (λ m. m ≢ shared.old.log) shared.old.site shared.new.site }
                ensures counts { AreCounts shared.new result.moves result.done }
            {
                let reply = shared.desk.end(moment);
                shared.count(reply)
            },
        )
    }
}

impl<F: Commands, S: Site, T: Terms, L: Ledger> Board<F, S, T, AdmitAll, L> {
    /// Asks for a stop, as the desk's `stop` says.
    pub fn stop<W: Wait>(&self, rt: &W, pass: &mut Pass<F, S, T, AdmitAll, L>, why: Stop) -> bool
        requires of { pass.old.of ≡ self.now }
        ensures called { Called S.tells S.files S.may_leave S.moment S.images_since pass.old
            pass.new (λ found after. (result ≡ is_some after.stop) × Stops found why after) }
    {
        self.turns.turn(
            rt,
            pass,
            (),
            |shared: &mut Shared<F, S, T, AdmitAll>, _: ()| -> Counted<bool>
                ensures reply { result.reply ≡ is_some shared.new.stop }
                ensures stops { Stops shared.old why shared.new }
                ensures counts { AreCounts shared.new result.moves result.done }
            {
                let reply = shared.desk.stop(why);
                shared.count(reply)
            },
        )
    }
}
