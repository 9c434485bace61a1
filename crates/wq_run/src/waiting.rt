//! Waiting for workers, while nothing runs.
ghost use Rattle.std.specs.Prelude.{◌≡◌, ◌≤◌, ◌<◌, [], ℕ, None, Option, length};
ghost use Rattle.flow_types.specs.declared.plan.Plan.{Plan as PlanValue};
ghost use Rattle.flow_types.specs.Plans.{IsValid};
ghost use Rattle.run_history.specs.Links.{records_of};
ghost use Rattle.run_history.specs.Storage.{running_rules};
ghost use Rattle.desk.specs.State.{IsFine};
ghost use Rattle.local_run.specs.Underway.{IsSurePool, halt_after};
ghost use Rattle.wq_run.specs.Comes.{ComesOn};
ghost use Rattle.wq_run.specs.Dues.{IsIllLink};
ghost use Rattle.wq_run.specs.Keeping.{KeepsOn};
ghost use Rattle.wq_run.specs.Calm.{Asked, IsComing, IsSureOf, IsSureCompany, IsUnmet, KeepsCalm};
ghost use Rattle.wq_run.specs.Seats.{AreSeats, IsManned, KeepsManned, Meets, gathered, inside_of};
ghost use Rattle.wq_run.specs.Trusted.{IsOf, IsOpen};

use crate::company::{Company, round};
use crate::finishing::finish;
use crate::reliance::Trust;
use desk::{Desk, Terms};
use links::Hall;
use local_run::{Halt, Held};
use outside::{Clock, Commands, Site};
use std::alloc::Global;
use std::sync::Wait;
use task_core::Admission;
use worker_pool::Terms as PoolTerms;

/// Looks for workers until one joins, states other amounts or may be asked again, or nobody came so
/// often.
fn look<
    B: PoolTerms,
    W: Wait,
    F: Commands,
    S: Site,
    H: Hall<F>,
    T: Terms + Trust,
    A: Admission,
    C: Clock,
>(
    rt: &W,
    alloc: Global,
    desk: &mut Desk<F, S, T, A>,
    held: &mut Held,
    company: &mut Company<F, H::Way, T>,
    hall: &mut H,
    limit: u32,
    clock: &C,
)
    requires valid { IsValid desk.old.plan }
    requires of { IsOf T.trust F.gives T.sources S.tells T.kept T.holds T.plan T.options T.run T.due
        desk.old.plan desk.old.options (records_of desk.old.moves) }
    requires keen { (k : ℕ) → 0 < k → T.keen k → ⊥ }
    requires listens { IsOpen T.holds (H.listens hall.old) (H.honest hall.old) }
    requires manned { IsManned T.trust F.gives F.may_fail T.sources S.tells T.kept (IsSurePool B.fits)
        S.files S.may_leave S.moment S.images_since desk.old held.old company.old.seats }
    ensures manned { KeepsManned T.trust F.gives F.may_fail T.sources S.tells T.kept (IsSurePool B.fits)
        S.files S.may_leave S.moment S.images_since desk.old desk.new
        held.old held.new company.old.seats company.new.seats }
    ensures listens { IsOpen T.holds (H.listens hall.new) (H.honest hall.new) }
    ensures due { H.Way.tells → KeepsOn
        (IsIllLink F.gives F.may_fail H.Way.history H.Way.count H.Way.idle_count H.Way.is_closed limit)
        H.Way.history desk.old.moves desk.new.moves held.old.halt held.new.halt company.old
        company.new (H.got hall.old) (H.got hall.new) }
    ensures calm { (asked : Option Asked) → H.Way.tells
        → KeepsCalm (IsSureCompany F.gives F.may_fail H.Way.history H.Way.idle_count
        (IsSureOf H.Way.sure H.Way.offers asked) (IsComing H.sure H.staffed asked hall.old)
        (IsUnmet H.manned H.idle_count asked hall.old) desk.old.moves company.old) (IsSureCompany
        F.gives F.may_fail H.Way.history H.Way.idle_count (IsSureOf H.Way.sure H.Way.offers asked)
        (IsComing H.sure H.staffed asked hall.new) (IsUnmet H.manned H.idle_count asked hall.new)
        desk.new.moves company.new) desk.old.moves desk.new.moves held.old.halt held.new.halt
        company.old company.new }
    ensures met { Meets (H.count hall.old) (H.count hall.new) (H.got hall.old)
        (H.got hall.new) (H.given hall.old) (H.given hall.new) (H.idle_count hall.old)
        (H.idle_count hall.new) (inside_of company.old) (inside_of company.new)
        company.old.failed company.new.failed company.old.lost company.new.lost }
{
    let start = hall.idles();
    let moves = desk.moves_made();
    let mut is_busy = true;
    for _ in rt.forever() {
        is_busy = round::<B, F, S, H, T, A, C>(
            company, alloc, desk, held, hall, limit, is_busy, clock,
        );
        if !held.is_going() || !company.is_going() {
            return;
        }
        if desk.moves_made() != moves || company.has_eased() {
            return;
        }
        if hall.idles().saturating_sub(start) >= u64::from(limit) {
            return;
        }
    }
    unreachable!()
}

/// Waits until a worker joins or states other amounts, or nobody came so often.
pub(crate) fn wait<
    B: PoolTerms,
    W: Wait,
    F: Commands,
    S: Site,
    H: Hall<F>,
    T: Terms + Trust,
    A: Admission,
    C: Clock,
>(
    rt: &W,
    alloc: Global,
    desk: &mut Desk<F, S, T, A>,
    admission: &mut A,
    company: &mut Company<F, H::Way, T>,
    hall: &mut H,
    limit: u32,
    clock: &C,
) -> Result<(), Halt>
    requires valid { IsValid desk.old.plan }
    requires stands { A.stands_for admission.old desk.old.plan }
    requires fine { IsFine desk.old.trouble }
    requires idle { length (running_rules desk.old.plan (records_of desk.old.moves)) ≤ 0 }
    requires of { IsOf T.trust F.gives T.sources S.tells T.kept T.holds T.plan T.options T.run T.due
        desk.old.plan desk.old.options (records_of desk.old.moves) }
    requires keen { (k : ℕ) → 0 < k → T.keen k → ⊥ }
    requires listens { IsOpen T.holds (H.listens hall.old) (H.honest hall.old) }
    requires seats { AreSeats desk.old.plan desk.old.options desk.old.moves company.old.seats }
    requires none { gathered company.old.seats ≡ [] }
    ensures came { (n m : ℕ) → ComesOn T.trust F.gives F.may_fail T.sources S.tells T.kept (IsSurePool B.fits)
        S.files S.may_leave S.moment S.images_since desk.old desk.new n n m m result }
    ensures seats { AreSeats desk.new.plan desk.new.options desk.new.moves company.new.seats }
    ensures none { gathered company.new.seats ≡ [] }
    ensures listens { IsOpen T.holds (H.listens hall.new) (H.honest hall.new) }
    ensures due { H.Way.tells → KeepsOn
        (IsIllLink F.gives F.may_fail H.Way.history H.Way.count H.Way.idle_count H.Way.is_closed limit)
        H.Way.history desk.old.moves desk.new.moves None (halt_after result None) company.old
        company.new (H.got hall.old) (H.got hall.new) }
    ensures calm { (asked : Option Asked) → H.Way.tells
        → KeepsCalm (IsSureCompany F.gives F.may_fail H.Way.history H.Way.idle_count
        (IsSureOf H.Way.sure H.Way.offers asked) (IsComing H.sure H.staffed asked hall.old)
        (IsUnmet H.manned H.idle_count asked hall.old) desk.old.moves company.old) (IsSureCompany
        F.gives F.may_fail H.Way.history H.Way.idle_count (IsSureOf H.Way.sure H.Way.offers asked)
        (IsComing H.sure H.staffed asked hall.new) (IsUnmet H.manned H.idle_count asked hall.new)
        desk.new.moves company.new) desk.old.moves desk.new.moves None (halt_after result None)
        company.old company.new }
    ensures met { Meets (H.count hall.old) (H.count hall.new) (H.got hall.old)
        (H.got hall.new) (H.given hall.old) (H.given hall.new) (H.idle_count hall.old)
        (H.idle_count hall.new) (inside_of company.old) (inside_of company.new)
        company.old.failed company.new.failed company.old.lost company.new.lost }
    ensures stays { (P : PlanValue) → A.stands_for admission.old P
        → A.stands_for admission.new P }
{
    let mut held = Held::new(alloc);
    look::<B, W, F, S, H, T, A, C>(rt, alloc, desk, &mut held, company, hall, limit, clock);
    finish::<B, F, S, H, T, A, C>(alloc, desk, admission, held, company, hall, clock)
}
