//! What is heard of the workers, and what they are asked.
ghost use Rattle.std.specs.Prelude.{◌≡◌, ◌<◌, ℕ, Option, length};
ghost use Rattle.std.specs.List.{AllByRecursion};
ghost use Rattle.flow_types.specs.declared.plan.Plan.{Plan as PlanValue};
ghost use Rattle.flow_types.specs.Plans.{IsValid};
ghost use Rattle.run_history.specs.Links.{records_of};
ghost use Rattle.local_run.specs.Underway.{IsSurePool};
ghost use Rattle.wq_run.specs.Dues.{IsIllLink};
ghost use Rattle.wq_run.specs.Keeping.{KeepsAt, KeepsOn};
ghost use Rattle.wq_run.specs.Calm.{Asked, IsComing, IsSureOf, IsSureCompany, IsSureSeat, IsUnmet};
ghost use Rattle.wq_run.specs.Calm.{KeepsCalm, KeepsCalmAt};
ghost use Rattle.wq_run.specs.Seats.{IsManned, KeepsManned, Meets, SeatsAfter, inside_of, seats_under};
ghost use Rattle.wq_run.specs.Trusted.{IsOf, StaysOpen};

use super::Company;
use super::parting::part_at;
use crate::reliance::Trust;
use desk::{Desk, Terms};
use links::Hall;
use local_run::Held;
use outside::{Clock, Commands, Site};
use peers::Leave;
use std::alloc::Global;
use task_core::Admission;
use worker_pool::Terms as PoolTerms;

/// Hears what the worker at this place tells, and answers whether it told anything.
fn hear_at<
    B: PoolTerms,
    F: Commands,
    S: Site,
    H: Hall<F>,
    T: Terms + Trust,
    A: Admission,
    C: Clock,
>(
    company: &mut Company<F, H::Way, T>,
    alloc: Global,
    desk: &mut Desk<F, S, T, A>,
    held: &mut Held,
    at: usize,
    is_turn: bool,
    limit: u32,
    clock: &C,
) -> Result<bool, Leave>
    requires valid { IsValid desk.old.plan }
    requires of { IsOf T.trust F.gives T.sources S.tells T.kept T.holds T.plan T.options T.run T.due
        desk.old.plan desk.old.options (records_of desk.old.moves) }
    requires keen { (k : ℕ) → 0 < k → T.keen k → ⊥ }
    requires manned { IsManned T.trust F.gives F.may_fail T.sources S.tells T.kept (IsSurePool B.fits)
        S.files S.may_leave S.moment S.images_since desk.old held.old company.old.seats }
    ensures manned { SeatsAfter T.trust F.gives F.may_fail T.sources S.tells T.kept (IsSurePool B.fits)
        S.files S.may_leave S.moment S.images_since at desk.old desk.new
        held.old held.new company.old.seats company.new.seats result }
    ensures due { H.Way.tells → KeepsAt
        (IsIllLink F.gives F.may_fail H.Way.history H.Way.count H.Way.idle_count H.Way.is_closed limit)
        H.Way.history at desk.old.moves desk.new.moves held.old.halt held.new.halt company.old
        company.new result }
    ensures calm { (asked : Option Asked) → H.Way.tells
        → KeepsCalmAt (AllByRecursion
        (IsSureSeat F.gives F.may_fail H.Way.history (IsSureOf H.Way.sure H.Way.offers asked))
        company.old.seats) (AllByRecursion
        (IsSureSeat F.gives F.may_fail H.Way.history (IsSureOf H.Way.sure H.Way.offers asked))
        company.new.seats) desk.old.moves desk.new.moves held.old.halt held.new.halt result }
    ensures many { length company.new.seats ≡ length company.old.seats }
    ensures numbers { (k : ℕ) → seats_under k company.new.seats ≡ seats_under k company.old.seats }
    ensures newest { company.new.newest ≡ company.old.newest }
    ensures guests { company.new.guests ≡ company.old.guests }
    ensures failed { company.new.failed ≡ company.old.failed }
    ensures lost { company.new.lost ≡ company.old.lost }
{
    let Some(seat) = company.seats.get_mut(at) else {
        return Ok(false);
    };
    seat.serve::<B, S, A, C>(alloc, desk, held, is_turn, limit, clock)
}

/// Starts a rule at the worker at this place, if it may be asked and a claim gives one, and answers
/// whether it did anything.
fn claim_at<
    B: PoolTerms,
    F: Commands,
    S: Site,
    H: Hall<F>,
    T: Terms + Trust,
    A: Admission,
    C: Clock,
>(
    company: &mut Company<F, H::Way, T>,
    alloc: Global,
    desk: &mut Desk<F, S, T, A>,
    admission: &mut A,
    held: &mut Held,
    at: usize,
    clock: &C,
) -> Result<bool, Leave>
    requires valid { IsValid desk.old.plan }
    requires stands { A.stands_for admission.old desk.old.plan }
    requires of { IsOf T.trust F.gives T.sources S.tells T.kept T.holds T.plan T.options T.run T.due
        desk.old.plan desk.old.options (records_of desk.old.moves) }
    requires keen { (k : ℕ) → 0 < k → T.keen k → ⊥ }
    requires manned { IsManned T.trust F.gives F.may_fail T.sources S.tells T.kept (IsSurePool B.fits)
        S.files S.may_leave S.moment S.images_since desk.old held.old company.old.seats }
    ensures manned { SeatsAfter T.trust F.gives F.may_fail T.sources S.tells T.kept (IsSurePool B.fits)
        S.files S.may_leave S.moment S.images_since at desk.old desk.new
        held.old held.new company.old.seats company.new.seats result }
    ensures due { (limit : ℕ) → H.Way.tells → KeepsAt
        (IsIllLink F.gives F.may_fail H.Way.history H.Way.count H.Way.idle_count H.Way.is_closed limit)
        H.Way.history at desk.old.moves desk.new.moves held.old.halt held.new.halt company.old
        company.new result }
    ensures calm { (asked : Option Asked) → H.Way.tells
        → KeepsCalmAt (AllByRecursion
        (IsSureSeat F.gives F.may_fail H.Way.history (IsSureOf H.Way.sure H.Way.offers asked))
        company.old.seats) (AllByRecursion
        (IsSureSeat F.gives F.may_fail H.Way.history (IsSureOf H.Way.sure H.Way.offers asked))
        company.new.seats) desk.old.moves desk.new.moves held.old.halt held.new.halt result }
    ensures many { length company.new.seats ≡ length company.old.seats }
    ensures numbers { (k : ℕ) → seats_under k company.new.seats ≡ seats_under k company.old.seats }
    ensures newest { company.new.newest ≡ company.old.newest }
    ensures guests { company.new.guests ≡ company.old.guests }
    ensures failed { company.new.failed ≡ company.old.failed }
    ensures lost { company.new.lost ≡ company.old.lost }
    ensures stays { (P : PlanValue) → A.stands_for admission.old P
        → A.stands_for admission.new P }
{
    if company.is_barred_at(at) {
        return Ok(false);
    }
    if !held.is_going() {
        return Ok(false);
    }
    let Some(seat) = company.seats.get_mut(at) else {
        return Ok(false);
    };
    seat.claim::<B, S, A, C>(alloc, desk, admission, held, clock)
}

/// As `hear_at`; a link that is to be left is left.
fn visit<B: PoolTerms, F: Commands, S: Site, H: Hall<F>, T: Terms + Trust, A: Admission, C: Clock>(
    company: &mut Company<F, H::Way, T>,
    alloc: Global,
    desk: &mut Desk<F, S, T, A>,
    held: &mut Held,
    hall: &mut H,
    at: usize,
    is_turn: bool,
    limit: u32,
    clock: &C,
) -> bool
    requires valid { IsValid desk.old.plan }
    requires of { IsOf T.trust F.gives T.sources S.tells T.kept T.holds T.plan T.options T.run T.due
        desk.old.plan desk.old.options (records_of desk.old.moves) }
    requires keen { (k : ℕ) → 0 < k → T.keen k → ⊥ }
    requires manned { IsManned T.trust F.gives F.may_fail T.sources S.tells T.kept (IsSurePool B.fits)
        S.files S.may_leave S.moment S.images_since desk.old held.old company.old.seats }
    ensures manned { KeepsManned T.trust F.gives F.may_fail T.sources S.tells T.kept (IsSurePool B.fits)
        S.files S.may_leave S.moment S.images_since desk.old desk.new
        held.old held.new company.old.seats company.new.seats }
    ensures listens { StaysOpen T.holds (H.listens hall.old) (H.honest hall.old)
        (H.listens hall.new) (H.honest hall.new) }
    ensures due { H.Way.tells → KeepsOn
        (IsIllLink F.gives F.may_fail H.Way.history H.Way.count H.Way.idle_count H.Way.is_closed limit)
        H.Way.history desk.old.moves desk.new.moves held.old.halt held.new.halt company.old
        company.new (H.got hall.old) (H.got hall.new) }
    ensures calm { (asked : Option Asked) → H.Way.tells
        → KeepsCalm (IsSureCompany F.gives F.may_fail H.Way.history H.Way.idle_count
        (IsSureOf H.Way.sure H.Way.offers asked) (IsComing H.sure H.staffed asked hall.old)
        (IsUnmet H.manned H.idle_count asked hall.old) desk.old.moves company.old) (IsSureCompany
        F.gives F.may_fail H.Way.history H.Way.idle_count (IsSureOf H.Way.sure H.Way.offers asked)
        (IsComing H.sure H.staffed asked hall.new) (IsUnmet H.manned H.idle_count asked hall.new)
        desk.new.moves company.new) desk.old.moves desk.new.moves held.old.halt held.new.halt
        company.old company.new }
    ensures met { Meets (H.count hall.old) (H.count hall.new) (H.got hall.old)
        (H.got hall.new) (H.given hall.old) (H.given hall.new) (H.idle_count hall.old)
        (H.idle_count hall.new) (inside_of company.old) (inside_of company.new)
        company.old.failed company.new.failed company.old.lost company.new.lost }
{
    match hear_at::<B, F, S, H, T, A, C>(company, alloc, desk, held, at, is_turn, limit, clock) {
        Ok(did) => did,
        Err(leave) => {
            company.leaves(leave);
            part_at::<B, F, S, H, T, A, C>(company, alloc, desk, held, hall, at, clock);
            true
        }
    }
}

/// As `claim_at`; a link that is to be left is left.
fn ask<B: PoolTerms, F: Commands, S: Site, H: Hall<F>, T: Terms + Trust, A: Admission, C: Clock>(
    company: &mut Company<F, H::Way, T>,
    alloc: Global,
    desk: &mut Desk<F, S, T, A>,
    admission: &mut A,
    held: &mut Held,
    hall: &mut H,
    at: usize,
    clock: &C,
) -> bool
    requires valid { IsValid desk.old.plan }
    requires stands { A.stands_for admission.old desk.old.plan }
    requires of { IsOf T.trust F.gives T.sources S.tells T.kept T.holds T.plan T.options T.run T.due
        desk.old.plan desk.old.options (records_of desk.old.moves) }
    requires keen { (k : ℕ) → 0 < k → T.keen k → ⊥ }
    requires manned { IsManned T.trust F.gives F.may_fail T.sources S.tells T.kept (IsSurePool B.fits)
        S.files S.may_leave S.moment S.images_since desk.old held.old company.old.seats }
    ensures manned { KeepsManned T.trust F.gives F.may_fail T.sources S.tells T.kept (IsSurePool B.fits)
        S.files S.may_leave S.moment S.images_since desk.old desk.new
        held.old held.new company.old.seats company.new.seats }
    ensures listens { StaysOpen T.holds (H.listens hall.old) (H.honest hall.old)
        (H.listens hall.new) (H.honest hall.new) }
    ensures due { (limit : ℕ) → H.Way.tells → KeepsOn
        (IsIllLink F.gives F.may_fail H.Way.history H.Way.count H.Way.idle_count H.Way.is_closed limit)
        H.Way.history desk.old.moves desk.new.moves held.old.halt held.new.halt company.old
        company.new (H.got hall.old) (H.got hall.new) }
    ensures calm { (asked : Option Asked) → H.Way.tells
        → KeepsCalm (IsSureCompany F.gives F.may_fail H.Way.history H.Way.idle_count
        (IsSureOf H.Way.sure H.Way.offers asked) (IsComing H.sure H.staffed asked hall.old)
        (IsUnmet H.manned H.idle_count asked hall.old) desk.old.moves company.old) (IsSureCompany
        F.gives F.may_fail H.Way.history H.Way.idle_count (IsSureOf H.Way.sure H.Way.offers asked)
        (IsComing H.sure H.staffed asked hall.new) (IsUnmet H.manned H.idle_count asked hall.new)
        desk.new.moves company.new) desk.old.moves desk.new.moves held.old.halt held.new.halt
        company.old company.new }
    ensures met { Meets (H.count hall.old) (H.count hall.new) (H.got hall.old)
        (H.got hall.new) (H.given hall.old) (H.given hall.new) (H.idle_count hall.old)
        (H.idle_count hall.new) (inside_of company.old) (inside_of company.new)
        company.old.failed company.new.failed company.old.lost company.new.lost }
    ensures stays { (P : PlanValue) → A.stands_for admission.old P
        → A.stands_for admission.new P }
{
    match claim_at::<B, F, S, H, T, A, C>(company, alloc, desk, admission, held, at, clock) {
        Ok(did) => did,
        Err(leave) => {
            company.leaves(leave);
            part_at::<B, F, S, H, T, A, C>(company, alloc, desk, held, hall, at, clock);
            true
        }
    }
}

/// Hears what each worker tells, and answers whether any told something.
pub(super) fn visit_all<
    B: PoolTerms,
    F: Commands,
    S: Site,
    H: Hall<F>,
    T: Terms + Trust,
    A: Admission,
    C: Clock,
>(
    company: &mut Company<F, H::Way, T>,
    alloc: Global,
    desk: &mut Desk<F, S, T, A>,
    held: &mut Held,
    hall: &mut H,
    is_turn: bool,
    limit: u32,
    clock: &C,
) -> bool
    requires valid { IsValid desk.old.plan }
    requires of { IsOf T.trust F.gives T.sources S.tells T.kept T.holds T.plan T.options T.run T.due
        desk.old.plan desk.old.options (records_of desk.old.moves) }
    requires keen { (k : ℕ) → 0 < k → T.keen k → ⊥ }
    requires manned { IsManned T.trust F.gives F.may_fail T.sources S.tells T.kept (IsSurePool B.fits)
        S.files S.may_leave S.moment S.images_since desk.old held.old company.old.seats }
    ensures manned { KeepsManned T.trust F.gives F.may_fail T.sources S.tells T.kept (IsSurePool B.fits)
        S.files S.may_leave S.moment S.images_since desk.old desk.new
        held.old held.new company.old.seats company.new.seats }
    ensures listens { StaysOpen T.holds (H.listens hall.old) (H.honest hall.old)
        (H.listens hall.new) (H.honest hall.new) }
    ensures due { H.Way.tells → KeepsOn
        (IsIllLink F.gives F.may_fail H.Way.history H.Way.count H.Way.idle_count H.Way.is_closed limit)
        H.Way.history desk.old.moves desk.new.moves held.old.halt held.new.halt company.old
        company.new (H.got hall.old) (H.got hall.new) }
    ensures calm { (asked : Option Asked) → H.Way.tells
        → KeepsCalm (IsSureCompany F.gives F.may_fail H.Way.history H.Way.idle_count
        (IsSureOf H.Way.sure H.Way.offers asked) (IsComing H.sure H.staffed asked hall.old)
        (IsUnmet H.manned H.idle_count asked hall.old) desk.old.moves company.old) (IsSureCompany
        F.gives F.may_fail H.Way.history H.Way.idle_count (IsSureOf H.Way.sure H.Way.offers asked)
        (IsComing H.sure H.staffed asked hall.new) (IsUnmet H.manned H.idle_count asked hall.new)
        desk.new.moves company.new) desk.old.moves desk.new.moves held.old.halt held.new.halt
        company.old company.new }
    ensures met { Meets (H.count hall.old) (H.count hall.new) (H.got hall.old)
        (H.got hall.new) (H.given hall.old) (H.given hall.new) (H.idle_count hall.old)
        (H.idle_count hall.new) (inside_of company.old) (inside_of company.new)
        company.old.failed company.new.failed company.old.lost company.new.lost }
{
    let mut did = false;
    for at in 0..company.seats.len() {
        if visit::<B, F, S, H, T, A, C>(
            company, alloc, desk, held, hall, at, is_turn, limit, clock,
        ) {
            did = true;
        }
    }
    did
}

/// Starts a rule at each worker for which a claim gives one, and answers whether it did anything.
pub(crate) fn ask_all<
    B: PoolTerms,
    F: Commands,
    S: Site,
    H: Hall<F>,
    T: Terms + Trust,
    A: Admission,
    C: Clock,
>(
    company: &mut Company<F, H::Way, T>,
    alloc: Global,
    desk: &mut Desk<F, S, T, A>,
    admission: &mut A,
    held: &mut Held,
    hall: &mut H,
    clock: &C,
) -> bool
    requires valid { IsValid desk.old.plan }
    requires stands { A.stands_for admission.old desk.old.plan }
    requires of { IsOf T.trust F.gives T.sources S.tells T.kept T.holds T.plan T.options T.run T.due
        desk.old.plan desk.old.options (records_of desk.old.moves) }
    requires keen { (k : ℕ) → 0 < k → T.keen k → ⊥ }
    requires manned { IsManned T.trust F.gives F.may_fail T.sources S.tells T.kept (IsSurePool B.fits)
        S.files S.may_leave S.moment S.images_since desk.old held.old company.old.seats }
    ensures manned { KeepsManned T.trust F.gives F.may_fail T.sources S.tells T.kept (IsSurePool B.fits)
        S.files S.may_leave S.moment S.images_since desk.old desk.new
        held.old held.new company.old.seats company.new.seats }
    ensures listens { StaysOpen T.holds (H.listens hall.old) (H.honest hall.old)
        (H.listens hall.new) (H.honest hall.new) }
    ensures due { (limit : ℕ) → H.Way.tells → KeepsOn
        (IsIllLink F.gives F.may_fail H.Way.history H.Way.count H.Way.idle_count H.Way.is_closed limit)
        H.Way.history desk.old.moves desk.new.moves held.old.halt held.new.halt company.old
        company.new (H.got hall.old) (H.got hall.new) }
    ensures calm { (asked : Option Asked) → H.Way.tells
        → KeepsCalm (IsSureCompany F.gives F.may_fail H.Way.history H.Way.idle_count
        (IsSureOf H.Way.sure H.Way.offers asked) (IsComing H.sure H.staffed asked hall.old)
        (IsUnmet H.manned H.idle_count asked hall.old) desk.old.moves company.old) (IsSureCompany
        F.gives F.may_fail H.Way.history H.Way.idle_count (IsSureOf H.Way.sure H.Way.offers asked)
        (IsComing H.sure H.staffed asked hall.new) (IsUnmet H.manned H.idle_count asked hall.new)
        desk.new.moves company.new) desk.old.moves desk.new.moves held.old.halt held.new.halt
        company.old company.new }
    ensures met { Meets (H.count hall.old) (H.count hall.new) (H.got hall.old)
        (H.got hall.new) (H.given hall.old) (H.given hall.new) (H.idle_count hall.old)
        (H.idle_count hall.new) (inside_of company.old) (inside_of company.new)
        company.old.failed company.new.failed company.old.lost company.new.lost }
    ensures stays { (P : PlanValue) → A.stands_for admission.old P
        → A.stands_for admission.new P }
{
    let mut did = false;
    for at in 0..company.seats.len() {
        if ask::<B, F, S, H, T, A, C>(company, alloc, desk, admission, held, hall, at, clock) {
            did = true;
        }
    }
    did
}
