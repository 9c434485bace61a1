//! The end of a service: nothing is held any more.
ghost use Rattle.std.specs.Prelude.{◌≡◌, ◌<◌, ℕ, List, None, Option, Some};
ghost use Rattle.flow_types.specs.declared.job.Start.{Start as StartValue};
ghost use Rattle.flow_types.specs.declared.plan.Plan.{Plan as PlanValue};
ghost use Rattle.flow_types.specs.Plans.{IsValid};
ghost use Rattle.worker_pool.specs.declared.hand.Tally.{Tally};
ghost use Rattle.desk.specs.State.{DeskState};
ghost use Rattle.local_run.specs.declared.halt.Halt.{Halt as HaltValue};
ghost use Rattle.local_run.specs.declared.halt.Halt.TheVariants as halts;
ghost use Rattle.local_run.specs.Underway.{IsSurePool, halt_after};
ghost use Rattle.wq_run.specs.Comes.{Finished};
ghost use Rattle.wq_run.specs.Dues.{IsIllLink};
ghost use Rattle.wq_run.specs.Keeping.{KeepsOn};
ghost use Rattle.wq_run.specs.Calm.{Asked, IsComing, IsSureOf, IsSureCompany, IsUnmet, KeepsCalm};
ghost use Rattle.wq_run.specs.Seats.{IsManned, Manned, Meets, inside_of};
ghost use Rattle.wq_run.specs.Trusted.{StaysOpen};

use crate::company::{Company, dismiss};
use crate::reliance::Trust;
use desk::{Desk, Terms};
use links::Hall;
use local_run::{Halt, Held, settle};
use outside::{Clock, Commands, Site};
use std::alloc::Global;
use task_core::Admission;
use worker_pool::Terms as PoolTerms;

/// Stops the run for want of memory, where nothing has stopped it.
fn stop_wanting(held: &mut Held)
    ensures wants { held.old.halt ≡ None
        → held.new ≡ record held.old { halt = Some halts.Memory } }
    ensures stays { (why : HaltValue) → held.old.halt ≡ Some why → held.new ≡ held.old }
{
    if held.is_going() {
        held.stop(Halt::Memory);
    }
}

/// Gives up what is still held, here or at a worker, which is something only where memory was
/// wanting, and tells why the run stopped.
pub(crate) fn finish<
    B: PoolTerms,
    F: Commands,
    S: Site,
    H: Hall<F>,
    T: Terms + Trust,
    A: Admission,
    C: Clock,
>(
    alloc: Global,
    desk: &mut Desk<F, S, T, A>,
    admission: &mut A,
    held: Held,
    company: &mut Company<F, H::Way, T>,
    hall: &mut H,
    clock: &C,
) -> Result<(), Halt>
    requires valid { IsValid desk.old.plan }
    requires stands { A.stands_for admission.old desk.old.plan }
    requires keen { (k : ℕ) → 0 < k → T.keen k → ⊥ }
    requires manned { IsManned T.trust F.gives F.may_fail T.sources S.tells T.kept (IsSurePool B.fits)
        S.files S.may_leave S.moment S.images_since desk.old held company.old.seats }
    ensures ended { (first : DeskState S) (waiting : List StartValue) (heard : Tally)
        → Manned T.trust F.gives F.may_fail T.sources S.tells T.kept (IsSurePool B.fits)
        S.files S.may_leave S.moment S.images_since first desk.old held waiting heard
        company.old.seats
        → Finished T.trust F.gives F.may_fail T.sources S.tells T.kept (IsSurePool B.fits)
        S.files S.may_leave S.moment S.images_since first desk.new heard
        company.new.seats result }
    ensures listens { StaysOpen T.holds (H.listens hall.old) (H.honest hall.old)
        (H.listens hall.new) (H.honest hall.new) }
    ensures due { (limit : ℕ) → H.Way.tells → KeepsOn
        (IsIllLink F.gives F.may_fail H.Way.history H.Way.count H.Way.idle_count H.Way.is_closed limit)
        H.Way.history desk.old.moves desk.new.moves held.halt (halt_after result None) company.old
        company.new (H.got hall.old) (H.got hall.new) }
    ensures calm { (asked : Option Asked) → H.Way.tells
        → KeepsCalm (IsSureCompany F.gives F.may_fail H.Way.history H.Way.idle_count
        (IsSureOf H.Way.sure H.Way.offers asked) (IsComing H.sure H.staffed asked hall.old)
        (IsUnmet H.manned H.idle_count asked hall.old) desk.old.moves company.old) (IsSureCompany
        F.gives F.may_fail H.Way.history H.Way.idle_count (IsSureOf H.Way.sure H.Way.offers asked)
        (IsComing H.sure H.staffed asked hall.new) (IsUnmet H.manned H.idle_count asked hall.new)
        desk.new.moves company.new) desk.old.moves desk.new.moves held.halt (halt_after result None)
        company.old company.new }
    ensures met { Meets (H.count hall.old) (H.count hall.new) (H.got hall.old)
        (H.got hall.new) (H.given hall.old) (H.given hall.new) (H.idle_count hall.old)
        (H.idle_count hall.new) (inside_of company.old) (inside_of company.new)
        company.old.failed company.new.failed company.old.lost company.new.lost }
    ensures stays { (P : PlanValue) → A.stands_for admission.old P
        → A.stands_for admission.new P }
{
    let mut held = held;
    if company.is_idle() {
        return settle::<B, F, S, T, A, C>(desk, admission, held, clock);
    }
    stop_wanting(&mut held);
    dismiss::<B, F, S, H, T, A, C>(company, alloc, desk, &mut held, hall, clock);
    settle::<B, F, S, T, A, C>(desk, admission, held, clock)
}
