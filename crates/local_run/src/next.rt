//! What a run does next: it starts a rule, or drops the file that is to go first.
ghost use Rattle.std.specs.Prelude.{◌≡◌, ◌≤◌, ◌<◌, ◌+◌, Err, IfOk, List, None, Some};
ghost use Rattle.std.specs.Prelude.{OnOk, false, length, true};
ghost use Rattle.std.specs.List.{list_all};
ghost use Rattle.flow_types.specs.declared.job.Start.{Start as StartValue};
ghost use Rattle.flow_types.specs.declared.plan.Plan.{Plan as PlanValue};
ghost use Rattle.flow_types.specs.Plans.{IsValid, takes};
ghost use Rattle.run_history.specs.Admissions.{claim_by};
ghost use Rattle.run_history.specs.Links.{may_run_on, records_of};
ghost use Rattle.run_history.specs.Storage.{is_present};
ghost use Rattle.worker_pool.specs.declared.hand.Tally.{Tally};
ghost use Rattle.desk.specs.declared.attempt.Attempt.{Attempt as AttemptValue};
ghost use Rattle.desk.specs.State.{DeskState, IsFine};
ghost use Rattle.local_run.specs.Course.{HasNothing, is_collect_first};
ghost use Rattle.local_run.specs.Jobs.{halt_by};
ghost use Rattle.local_run.specs.Losses.{SparesAll};
ghost use Rattle.local_run.specs.Underway.{AwayState};
ghost use Rattle.local_run.specs.Underway.{IsSurePool, Underway, halt_after};

use crate::Halt;
use crate::closing::give_up;
use crate::held::Held;
use crate::job::job_for;
use desk::{Attempt, Claim, ClaimRefused, CollectRefused, Desk, InputRefused, Terms};
use flow_types::{LinkNo, Start};
use outside::{Clock, Commands, Site};
use run_history::Nothing;
use std::alloc::Global;
use std::sync::Wait;
use task_core::Admission;
use worker_pool::{Pool, Terms as PoolTerms};

/// Why a run stops whose input isn't read.
pub(crate) fn halt_by(why: InputRefused) -> Halt
    ensures { result ≡ halt_by why }
{
    match why {
        InputRefused::Damaged {
            file,
            logged,
            found,
        } => Halt::Damaged {
            file,
            logged,
            found,
        },
        InputRefused::Broken { .. } => Halt::Site,
        InputRefused::Memory => Halt::Memory,
    }
}

/// Whether it is that a file is to be dropped first.
fn is_collect_first(why: Nothing) -> bool
    ensures { result ≡ is_collect_first why }
{
    matches!(why, Nothing::CollectFirst(_))
}

/// Where a claim for the local place took no rule since a file is to be dropped first, drops that,
/// if the log has a place, and answers whether it did.
fn make_way<B: PoolTerms, F: Commands, S: Site, C: Clock, T: Terms, A: Admission>(
    desk: &mut Desk<F, S, T, A>,
    why: Nothing,
    clock: &C,
) -> Result<bool, Halt>
    requires fine { IsFine desk.old.trouble }
    requires nothing { claim_by A.admitted desk.old.plan desk.old.options desk.old.moves
        desk.old.stop 0 ≡ Err why }
    ensures underway { (away : AwayState) (first : DeskState S) (held : List AttemptValue)
        (waiting : List StartValue) (heard : Tally)
        → Underway T.trust F.gives F.may_fail T.sources S.tells T.kept (IsSurePool B.fits)
        S.files S.may_leave S.moment S.images_since away first
        desk.old held waiting None heard None
        → Underway T.trust F.gives F.may_fail T.sources S.tells T.kept (IsSurePool B.fits)
        S.files S.may_leave S.moment S.images_since away first
        desk.new held waiting None heard
        (halt_after result None) }
    ensures grew { IfOk result (λ dropped. dropped ≡ true
        → length (records_of desk.old.moves) + 1 ≤ length (records_of desk.new.moves)) }
    ensures rests { IfOk result (λ dropped. dropped ≡ false → HasNothing A.admitted desk.new) }
    ensures spares { OnOk result (SparesAll desk.old.moves desk.new.moves) }
{
    if !is_collect_first(why) {
        return Ok(false);
    }
    match desk.collect(clock.now()) {
        Ok(Some(_)) => Ok(true),
        Ok(None) => Ok(false),
        Err(CollectRefused::LogPlaces) => Ok(false),
        Err(CollectRefused::Broken { .. }) => Err(Halt::Site),
        Err(CollectRefused::Memory) => Err(Halt::Memory),
    }
}

/// Holds the attempt and hands its job to the pool. Where its inputs can't be read, or memory is
/// wanting, the run stops.
fn begin<B: PoolTerms, W: Wait, F: Commands, S: Site, T: Terms, A: Admission, C: Clock>(
    rt: &W,
    alloc: Global,
    desk: &mut Desk<F, S, T, A>,
    admission: &mut A,
    held: &mut Held,
    pool: &mut Pool<B>,
    attempt: Attempt,
    clock: &C,
)
    requires valid { IsValid desk.old.plan }
    requires stands { A.stands_for admission.old desk.old.plan }
    requires base { T.trust → S.tells × T.kept }
    requires rule { attempt.rule.0 < length desk.old.plan.rules }
    requires here { attempt.link.0 ≡ 0 }
    requires placed { may_run_on desk.old.plan desk.old.options attempt.rule.0 0 ≡ true }
    requires fine { IsFine desk.old.trouble }
    requires present { list_all (is_present desk.old.plan (records_of desk.old.moves))
        (takes desk.old.plan attempt.rule.0) ≡ true }
    requires room { length pool.old.waiting < 64 }
    requires underway { (away : AwayState) × (first : DeskState S)
        × Underway T.trust F.gives F.may_fail T.sources S.tells T.kept (IsSurePool B.fits)
        S.files S.may_leave S.moment S.images_since away first desk.old held.old.attempts
        pool.old.waiting (Some attempt) pool.old.heard None }
    requires going { held.old.halt ≡ None }
    ensures underway { (away : AwayState) (first : DeskState S)
        → Underway T.trust F.gives F.may_fail T.sources S.tells T.kept (IsSurePool B.fits)
        S.files S.may_leave S.moment S.images_since away first desk.old held.old.attempts
        pool.old.waiting (Some attempt) pool.old.heard None
        → Underway T.trust F.gives F.may_fail T.sources S.tells T.kept (IsSurePool B.fits)
        S.files S.may_leave S.moment S.images_since away first desk.new held.new.attempts
        pool.new.waiting None pool.new.heard held.new.halt }
    ensures line { pool.new.line ≡ pool.old.line }
    ensures stays { held.new.halt ≡ None → desk.new.moves ≡ desk.old.moves }
    ensures standing { (P : PlanValue) → A.stands_for admission.old P → A.stands_for admission.new P }
{
    let job = match job_for(alloc, desk, &attempt) {
        Ok(job) => job,
        Err(why) => {
            let halt = give_up::<B, F, S, T, A, C>(desk, admission, attempt, clock, halt_by(why));
            held.stop(halt);
            return;
        }
    };
    let number = attempt.number();
    match held.hold(attempt) {
        Ok(()) => pool.give(
            rt,
            Start {
                attempt: number,
                job,
            },
        ),
        Err(attempt) => {
            let halt = give_up::<B, F, S, T, A, C>(desk, admission, attempt, clock, Halt::Memory);
            held.stop(halt);
        }
    }
}

/// Starts a rule, if a claim for the local place gives one, or drops the file that is to go first.
/// It answers whether it did anything; then the run may have stopped by it, and else the log has
/// more records.
pub(crate) fn next<B: PoolTerms, W: Wait, F: Commands, S: Site, T: Terms, A: Admission, C: Clock>(
    rt: &W,
    alloc: Global,
    desk: &mut Desk<F, S, T, A>,
    admission: &mut A,
    held: &mut Held,
    pool: &mut Pool<B>,
    clock: &C,
) -> bool
    requires valid { IsValid desk.old.plan }
    requires stands { A.stands_for admission.old desk.old.plan }
    requires base { T.trust → S.tells × T.kept }
    requires room { length pool.old.waiting < 64 }
    requires underway { (away : AwayState) × (first : DeskState S)
        × Underway T.trust F.gives F.may_fail T.sources S.tells T.kept (IsSurePool B.fits)
        S.files S.may_leave S.moment S.images_since away first desk.old held.old.attempts
        pool.old.waiting None pool.old.heard None }
    requires going { held.old.halt ≡ None }
    ensures underway { (away : AwayState) (first : DeskState S)
        → Underway T.trust F.gives F.may_fail T.sources S.tells T.kept (IsSurePool B.fits)
        S.files S.may_leave S.moment S.images_since away first desk.old held.old.attempts
        pool.old.waiting None pool.old.heard None
        → Underway T.trust F.gives F.may_fail T.sources S.tells T.kept (IsSurePool B.fits)
        S.files S.may_leave S.moment S.images_since away first desk.new held.new.attempts
        pool.new.waiting None pool.new.heard held.new.halt }
    ensures still { result ≡ false → (held.new ≡ held.old) × (pool.new ≡ pool.old) }
    ensures line { pool.new.line ≡ pool.old.line }
    ensures grew { result ≡ true → held.new.halt ≡ None
        → length (records_of desk.old.moves) + 1 ≤ length (records_of desk.new.moves) }
    ensures rests { result ≡ false → HasNothing A.admitted desk.new }
    ensures spares { held.new.halt ≡ None → SparesAll desk.old.moves desk.new.moves }
    ensures stays { (P : PlanValue) → A.stands_for admission.old P → A.stands_for admission.new P }
{
    let _works = desk.works();
    match desk.claim_by(LinkNo(0), admission, clock.now()) {
        Ok(Claim::Taken(attempt)) => {
            begin(rt, alloc, desk, admission, held, pool, attempt, clock);
            true
        }
        Ok(Claim::Nothing(why)) => match make_way::<B, F, S, C, T, A>(desk, why, clock) {
            Ok(dropped) => dropped,
            Err(halt) => {
                held.stop(halt);
                true
            }
        },
        Err(ClaimRefused::Broken { .. }) => {
            held.stop(Halt::Site);
            true
        }
        Err(ClaimRefused::Memory) => {
            held.stop(Halt::Memory);
            true
        }
    }
}
