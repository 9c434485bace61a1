//! How a start that the pool had has ended.
ghost use Rattle.std.specs.Prelude.{◌≡◌, List, None, OnOk, Option, Some, false};
ghost use Rattle.flow_types.specs.declared.job.Start.{Start as StartValue};
ghost use Rattle.flow_types.specs.declared.plan.Plan.{Plan as PlanValue};
ghost use Rattle.flow_types.specs.Plans.{IsValid};
ghost use Rattle.flow_types.specs.Serial.{serial};
ghost use Rattle.outside.specs.Jobs.{IsSuccess};
ghost use Rattle.run_history.specs.Links.{records_of};
ghost use Rattle.worker_pool.specs.declared.hand.Tally.{Tally};
ghost use Rattle.worker_pool.specs.Tallies.{plus, tally_of};
ghost use Rattle.desk.specs.declared.attempt.Attempt.{Attempt as AttemptValue};
ghost use Rattle.desk.specs.State.{DeskState, IsFine};
ghost use Rattle.local_run.specs.declared.halt.Halt.{Halt as HaltValue};
ghost use Rattle.local_run.specs.Course.{TellsJobs};
ghost use Rattle.local_run.specs.Losses.{SparesAll};
ghost use Rattle.local_run.specs.Underway.{AwayState};
ghost use Rattle.local_run.specs.Underway.{IsOutcomeAt, IsShapedPool, IsSurePool, RunsAt, ToldOf};
ghost use Rattle.local_run.specs.Underway.{Underway, halt_after};

use crate::Halt;
use crate::closing::{fail, finish, give_up};
use crate::held::Held;
use desk::{Attempt, Desk, Terms};
use flow_types::Outcome;
use outside::{Clock, Commands, Site};
use task_core::Admission;
use worker_pool::{Pool, Terms as PoolTerms};

/// Closes the attempt by how its job ended.
fn close<B: PoolTerms, F: Commands, S: Site, T: Terms, A: Admission, C: Clock>(
    desk: &mut Desk<F, S, T, A>,
    admission: &mut A,
    attempt: Attempt,
    outcome: Outcome,
    clock: &C,
) -> Result<(), Halt>
    requires valid { IsValid desk.old.plan }
    requires stands { A.stands_for admission.old desk.old.plan }
    requires runs { RunsAt desk.old.plan (IsFine desk.old.trouble) (records_of desk.old.moves)
        attempt }
    requires outcome { IsOutcomeAt desk.old.plan T.trust F.gives F.may_fail T.sources
        attempt.rule.0 outcome }
    ensures underway { (away : AwayState) (first : DeskState S) (held : List AttemptValue)
        (waiting : List StartValue) (heard : Tally) (halt : Option HaltValue)
        → (IsSurePool B.fits → IsSuccess outcome)
        → Underway T.trust F.gives F.may_fail T.sources S.tells T.kept (IsSurePool B.fits)
        S.files S.may_leave S.moment S.images_since away first
        desk.old held waiting (Some attempt) heard halt
        → Underway T.trust F.gives F.may_fail T.sources S.tells T.kept (IsSurePool B.fits)
        S.files S.may_leave S.moment S.images_since away first
        desk.new held waiting None (plus heard (tally_of outcome))
        (halt_after result halt) }
    ensures spares { attempt.link.0 ≡ 0 → OnOk result (SparesAll desk.old.moves desk.new.moves) }
    ensures stays { (P : PlanValue) → A.stands_for admission.old P → A.stands_for admission.new P }
{
    match outcome {
        Outcome::Success(outs) => finish::<B, F, S, T, A>(desk, attempt, &outs, clock.now()),
        Outcome::Failed(why) => fail::<B, F, S, T, A>(desk, attempt, why, clock.now()),
        Outcome::NotRun => Err(give_up::<B, F, S, T, A, C>(
            desk,
            admission,
            attempt,
            clock,
            Halt::Runner,
        )),
    }
}

/// Takes one report, where one is ready, and closes its attempt by how the job ended. It answers
/// whether there was one.
pub fn hear<B: PoolTerms, F: Commands, S: Site, T: Terms, A: Admission, C: Clock>(
    desk: &mut Desk<F, S, T, A>,
    admission: &mut A,
    held: &mut Held,
    pool: &mut Pool<B>,
    clock: &C,
) -> bool
    requires valid { IsValid desk.old.plan }
    requires stands { A.stands_for admission.old desk.old.plan }
    requires shaped { IsShapedPool B.fits }
    requires told { T.trust → TellsJobs desk.old.plan desk.old.options
        (ToldOf F.gives F.may_fail B.fits) (serial desk.old.plan F.gives T.sources) }
    requires underway { (away : AwayState) × (first : DeskState S)
        × Underway T.trust F.gives F.may_fail T.sources S.tells T.kept (IsSurePool B.fits)
        S.files S.may_leave S.moment S.images_since away first desk.old held.old.attempts
        pool.old.waiting None pool.old.heard held.old.halt }
    ensures underway { (away : AwayState) (first : DeskState S)
        → Underway T.trust F.gives F.may_fail T.sources S.tells T.kept (IsSurePool B.fits)
        S.files S.may_leave S.moment S.images_since away first desk.old held.old.attempts
        pool.old.waiting None pool.old.heard held.old.halt
        → Underway T.trust F.gives F.may_fail T.sources S.tells T.kept (IsSurePool B.fits)
        S.files S.may_leave S.moment S.images_since away first desk.new held.new.attempts
        pool.new.waiting None pool.new.heard held.new.halt }
    ensures line { pool.new.line ≡ pool.old.line }
    ensures spares { held.new.halt ≡ None
        → (held.old.halt ≡ None) × SparesAll desk.old.moves desk.new.moves }
    ensures stays { (P : PlanValue) → A.stands_for admission.old P → A.stands_for admission.new P }
{
    let Some(report) = pool.hear() else {
        return false;
    };
    let attempt = held.take(report.attempt);
    if let Err(why) = close::<B, F, S, T, A, C>(desk, admission, attempt, report.outcome, clock) {
        held.stop(why);
    }
    true
}
