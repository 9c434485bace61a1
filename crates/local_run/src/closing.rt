//! The ends of an attempt.
ghost use Rattle.std.specs.Prelude.{◌≡◌, ◌<◌, ◌++◌, ◌∷◌, [], List, None, Option, Some};
ghost use Rattle.std.specs.Prelude.{OnOk, length, slice_get, true};
ghost use Rattle.flow_types.specs.declared.job.Outcome.TheVariants as outcomes;
ghost use Rattle.flow_types.specs.declared.job.Start.{Start as StartValue};
ghost use Rattle.flow_types.specs.declared.plan.Rule.{Rule};
ghost use Rattle.flow_types.specs.declared.plan.Plan.{Plan as PlanValue};
ghost use Rattle.flow_types.specs.Plans.{IsValid, makes};
ghost use Rattle.flow_types.specs.Serial.{job_of, serial};
ghost use Rattle.run_history.specs.Legal.{is_failure_at};
ghost use Rattle.run_history.specs.Links.{records_of};
ghost use Rattle.worker_pool.specs.declared.hand.Tally.{Tally};
ghost use Rattle.worker_pool.specs.Tallies.{plus, tally_of};
ghost use Rattle.desk.specs.declared.attempt.Attempt.{Attempt as AttemptValue};
ghost use Rattle.desk.specs.State.{AreOutputs, DeskState, IsDue, IsFine};
ghost use Rattle.local_run.specs.declared.halt.Halt.{Halt as HaltValue};
ghost use Rattle.local_run.specs.Course.{GivesUp};
ghost use Rattle.local_run.specs.Losses.{EndsIt, done_as, failed_as};
ghost use Rattle.local_run.specs.Underway.{AwayState};
ghost use Rattle.local_run.specs.Underway.{IsSurePool, MayStop, RunsAt, Underway, halt_after};

use crate::Halt;
use desk::{Attempt, CloseRefused, Desk, Terms};
use flow_types::{Bytes, Failure, Rows};
use outside::{Clock, Commands, Site};
use run_history::Stop;
use task_core::Admission;
use worker_pool::Terms as PoolTerms;

/// Stops the run and gives the attempt up, for this cause. Where the site fails or memory is
/// wanting in it, that is the cause.
pub(crate) fn give_up<B: PoolTerms, F: Commands, S: Site, T: Terms, A: Admission, C: Clock>(
    desk: &mut Desk<F, S, T, A>,
    admission: &mut A,
    attempt: Attempt,
    clock: &C,
    why: Halt,
) -> Halt
    requires valid { IsValid desk.old.plan }
    requires stands { A.stands_for admission.old desk.old.plan }
    requires runs { RunsAt desk.old.plan (IsFine desk.old.trouble) (records_of desk.old.moves)
        attempt }
    ensures underway { (away : AwayState) (first : DeskState S) (held : List AttemptValue)
        (waiting : List StartValue) (heard : Tally) (halt : Option HaltValue)
        → Underway T.trust F.gives F.may_fail T.sources S.tells T.kept (IsSurePool B.fits)
        S.files S.may_leave S.moment S.images_since away first
        desk.old held waiting (Some attempt) heard halt
        → (IsFine desk.old.trouble → MayStop S.tells T.kept (IsSurePool B.fits) S.files
        desk.old heard why)
        → Underway T.trust F.gives F.may_fail T.sources S.tells T.kept (IsSurePool B.fits)
        S.files S.may_leave S.moment S.images_since away first
        desk.new held waiting None heard (Some result) }
    ensures halt { GivesUp why desk.old.trouble desk.new.trouble result }
    ensures stays { (P : PlanValue) → A.stands_for admission.old P → A.stands_for admission.new P }
{
    let _stops = desk.stop_by(admission, Stop::Halt);
    match desk.lose(attempt, clock.now()) {
        Ok(()) => why,
        Err(CloseRefused::Stale { .. }) => unreachable!(),
        Err(CloseRefused::Broken { .. }) => Halt::Site,
        Err(CloseRefused::Memory) => Halt::Memory,
    }
}

/// Finishes the attempt with what its job gave.
pub(crate) fn finish<B: PoolTerms, F: Commands, S: Site, T: Terms, A: Admission>(
    desk: &mut Desk<F, S, T, A>,
    attempt: Attempt,
    outs: &Rows<Bytes>,
    moment: u64,
) -> Result<(), Halt>
    requires valid { IsValid desk.old.plan }
    requires runs { RunsAt desk.old.plan (IsFine desk.old.trouble) (records_of desk.old.moves)
        attempt }
    requires outputs { AreOutputs desk.old.plan attempt.rule.0 outs.now }
    requires honest { T.trust
        → IsDue desk.old.plan F.gives T.sources attempt.rule.0 outs.now }
    ensures underway { (away : AwayState) (first : DeskState S) (held : List AttemptValue)
        (waiting : List StartValue) (heard : Tally) (halt : Option HaltValue)
        → Underway T.trust F.gives F.may_fail T.sources S.tells T.kept (IsSurePool B.fits)
        S.files S.may_leave S.moment S.images_since away first
        desk.old held waiting (Some attempt) heard halt
        → Underway T.trust F.gives F.may_fail T.sources S.tells T.kept (IsSurePool B.fits)
        S.files S.may_leave S.moment S.images_since away first
        desk.new held waiting None heard
        (halt_after result halt) }
    ensures ends { OnOk result
        (EndsIt desk.old.moves attempt (done_as attempt outs.now) desk.new.moves) }
{
    let _works = desk.works();
    match desk.finish(attempt, outs, moment) {
        Ok(()) => Ok(()),
        Err(CloseRefused::Stale { .. }) => unreachable!(),
        Err(CloseRefused::Broken { .. }) => Err(Halt::Site),
        Err(CloseRefused::Memory) => Err(Halt::Memory),
    }
}

/// Closes the attempt, whose command failed.
pub(crate) fn fail<B: PoolTerms, F: Commands, S: Site, T: Terms, A: Admission>(
    desk: &mut Desk<F, S, T, A>,
    attempt: Attempt,
    why: Failure,
    moment: u64,
) -> Result<(), Halt>
    requires valid { IsValid desk.old.plan }
    requires runs { RunsAt desk.old.plan (IsFine desk.old.trouble) (records_of desk.old.moves)
        attempt }
    requires index { is_failure_at why (length (makes desk.old.plan attempt.rule.0)) ≡ true }
    requires honest { T.trust
        → (row : Rule) → slice_get desk.old.plan.rules attempt.rule.0 ≡ Some row
        → F.may_fail (job_of desk.old.plan row (serial desk.old.plan F.gives T.sources)) why }
    ensures underway { (away : AwayState) (first : DeskState S) (held : List AttemptValue)
        (waiting : List StartValue) (heard : Tally) (halt : Option HaltValue)
        → (IsSurePool B.fits → ⊥)
        → Underway T.trust F.gives F.may_fail T.sources S.tells T.kept (IsSurePool B.fits)
        S.files S.may_leave S.moment S.images_since away first
        desk.old held waiting (Some attempt) heard halt
        → Underway T.trust F.gives F.may_fail T.sources S.tells T.kept (IsSurePool B.fits)
        S.files S.may_leave S.moment S.images_since away first
        desk.new held waiting None
        (plus heard (tally_of (outcomes.Failed why))) (halt_after result halt) }
    ensures ends { OnOk result
        (EndsIt desk.old.moves attempt (failed_as attempt why) desk.new.moves) }
{
    let _works = desk.works();
    match desk.fail(attempt, why, moment) {
        Ok(_) => Ok(()),
        Err(CloseRefused::Stale { .. }) => unreachable!(),
        Err(CloseRefused::Broken { .. }) => Err(Halt::Site),
        Err(CloseRefused::Memory) => Err(Halt::Memory),
    }
}
