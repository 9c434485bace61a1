//! A look at all that workers tell, and the end of their service.
ghost use Rattle.std.specs.Prelude.{◌≡◌, ◌<◌, ◌+◌, [], ℕ, List, None, Option};
ghost use Rattle.std.specs.Prelude.{false, length, true};
ghost use Rattle.flow_types.specs.Plans.{IsValid};
ghost use Rattle.run_history.specs.declared.moves.Move.{Move};
ghost use Rattle.run_history.specs.Links.{records_of};
ghost use Rattle.local_run.specs.Underway.{IsSurePool};
ghost use Rattle.wq_run.specs.Calm.{Asked, IsComing, IsSureOf, IsSureCompany, IsUnmet, KeepsCalm};
ghost use Rattle.wq_run.specs.Dues.{IsIllLink, KeepsDue};
ghost use Rattle.wq_run.specs.Keeping.{KeepsOn};
ghost use Rattle.wq_run.specs.Seats.{IsManned, KeepsManned, Meets, gathered, inside_of};
ghost use Rattle.wq_run.specs.Trusted.{IsOf, IsOpen, StaysOpen};
ghost use Rattle.wq_run.specs.Vain.{HandsBack};

use super::Company;
use super::guests::greet_all;
use super::hall::{hand_back, has_turn, meet};
use super::parting::part;
use super::visits::visit_all;
use crate::reliance::Trust;
use desk::{Desk, Terms};
use links::Hall;
use local_run::Held;
use outside::{Clock, Commands, Site};
use std::alloc::Global;
use task_core::Admission;
use worker_pool::Terms as PoolTerms;

// Whether one of these did something.
fn any(told: bool, joined: bool, came: bool) -> bool {
    told || joined || came
}

/// Hears what workers and guests tell, of each one piece at most, and lets in who has come, one at
/// most. It answers whether there was anything. Unless there is something to do it waits first.
pub(crate) fn round<
    B: PoolTerms,
    F: Commands,
    S: Site,
    H: Hall<F>,
    T: Terms + Trust,
    A: Admission,
    C: Clock,
>(
    company: &mut Company<F, H::Way, T>,
    alloc: Global,
    desk: &mut Desk<F, S, T, A>,
    held: &mut Held,
    hall: &mut H,
    limit: u32,
    is_busy: bool,
    clock: &C,
) -> bool
    requires valid { IsValid desk.old.plan }
    requires of { IsOf T.trust F.gives T.sources S.tells T.kept T.holds T.plan T.options T.run T.due
        desk.old.plan desk.old.options (records_of desk.old.moves) }
    requires keen { (k : ℕ) → 0 < k → T.keen k → ⊥ }
    requires listens { IsOpen T.holds (H.listens hall.old) (H.honest hall.old) }
    requires manned { IsManned T.trust F.gives F.may_fail T.sources S.tells T.kept (IsSurePool B.fits)
        S.files S.may_leave S.moment S.images_since desk.old held.old company.old.seats }
    ensures manned { KeepsManned T.trust F.gives F.may_fail T.sources S.tells T.kept (IsSurePool B.fits)
        S.files S.may_leave S.moment S.images_since desk.old desk.new
        held.old held.new company.old.seats company.new.seats }
    ensures listens { IsOpen T.holds (H.listens hall.new) (H.honest hall.new) }
    ensures due { H.Way.tells → KeepsOn
        (IsIllLink F.gives F.may_fail H.Way.history H.Way.count H.Way.idle_count H.Way.is_closed limit)
        H.Way.history desk.old.moves desk.new.moves held.old.halt held.new.halt company.old
        company.new (H.got hall.old) (H.got hall.new) }
    ensures calm { (asked : Option Asked) → H.Way.tells
        → KeepsCalm (IsSureCompany F.gives F.may_fail H.Way.history H.Way.idle_count
        (IsSureOf H.Way.sure H.Way.offers asked) (IsComing H.sure H.staffed asked hall.old)
        (IsUnmet H.manned H.idle_count asked hall.old) desk.old.moves company.old) (IsSureCompany
        F.gives F.may_fail H.Way.history H.Way.idle_count (IsSureOf H.Way.sure H.Way.offers asked)
        (IsComing H.sure H.staffed asked hall.new) (IsUnmet H.manned H.idle_count asked hall.new)
        desk.new.moves company.new) desk.old.moves desk.new.moves held.old.halt held.new.halt
        company.old company.new }
    ensures met { Meets (H.count hall.old) (H.count hall.new) (H.got hall.old)
        (H.got hall.new) (H.given hall.old) (H.given hall.new) (H.idle_count hall.old)
        (H.idle_count hall.new) (inside_of company.old) (inside_of company.new)
        company.old.failed company.new.failed company.old.lost company.new.lost }
{
    let is_turn = has_turn::<F, H, T>(company, hall, is_busy);
    let told = visit_all::<B, F, S, H, T, A, C>(
        company, alloc, desk, held, hall, is_turn, limit, clock,
    );
    let joined = greet_all::<B, F, S, H, T, A>(company, alloc, desk, hall, is_turn);
    let came = meet::<F, H, T>(company, alloc, hall, is_turn);
    any(told, joined, came)
}

/// Leaves the last seat, if there is one, and answers whether there was.
fn dismiss_last<
    B: PoolTerms,
    F: Commands,
    S: Site,
    H: Hall<F>,
    T: Terms + Trust,
    A: Admission,
    C: Clock,
>(
    company: &mut Company<F, H::Way, T>,
    alloc: Global,
    desk: &mut Desk<F, S, T, A>,
    held: &mut Held,
    hall: &mut H,
    clock: &C,
) -> bool
    requires valid { IsValid desk.old.plan }
    requires keen { (k : ℕ) → 0 < k → T.keen k → ⊥ }
    requires manned { IsManned T.trust F.gives F.may_fail T.sources S.tells T.kept (IsSurePool B.fits)
        S.files S.may_leave S.moment S.images_since desk.old held.old company.old.seats }
    ensures manned { KeepsManned T.trust F.gives F.may_fail T.sources S.tells T.kept (IsSurePool B.fits)
        S.files S.may_leave S.moment S.images_since desk.old desk.new
        held.old held.new company.old.seats company.new.seats }
    ensures listens { StaysOpen T.holds (H.listens hall.old) (H.honest hall.old)
        (H.listens hall.new) (H.honest hall.new) }
    ensures due { (limit : ℕ) → H.Way.tells
        → (held.old.halt ≡ None → company.old.failed ≡ false → company.old.lost ≡ false → ⊥)
        → KeepsOn
        (IsIllLink F.gives F.may_fail H.Way.history H.Way.count H.Way.idle_count H.Way.is_closed limit)
        H.Way.history desk.old.moves desk.new.moves held.old.halt held.new.halt company.old
        company.new (H.got hall.old) (H.got hall.new) }
    ensures met { Meets (H.count hall.old) (H.count hall.new) (H.got hall.old)
        (H.got hall.new) (H.given hall.old) (H.given hall.new) (H.idle_count hall.old)
        (H.idle_count hall.new) (inside_of company.old) (inside_of company.new)
        company.old.failed company.new.failed company.old.lost company.new.lost }
    ensures fewer { result ≡ true
        → length company.old.seats ≡ length company.new.seats + 1 }
    ensures none { result ≡ false → company.new.seats ≡ [] }
{
    match company.seats.pop() {
        Some(mut seat) => {
            seat.farewell(alloc);
            part::<B, F, S, H, T, A, C>(company, alloc, desk, held, hall, seat, clock);
            true
        }
        None => false,
    }
}

/// Lets all workers and guests go. What runs at a worker is cancelled and given up.
pub(crate) fn dismiss<
    B: PoolTerms,
    F: Commands,
    S: Site,
    H: Hall<F>,
    T: Terms + Trust,
    A: Admission,
    C: Clock,
>(
    company: &mut Company<F, H::Way, T>,
    alloc: Global,
    desk: &mut Desk<F, S, T, A>,
    held: &mut Held,
    hall: &mut H,
    clock: &C,
)
    requires valid { IsValid desk.old.plan }
    requires keen { (k : ℕ) → 0 < k → T.keen k → ⊥ }
    requires manned { IsManned T.trust F.gives F.may_fail T.sources S.tells T.kept (IsSurePool B.fits)
        S.files S.may_leave S.moment S.images_since desk.old held.old company.old.seats }
    ensures manned { KeepsManned T.trust F.gives F.may_fail T.sources S.tells T.kept (IsSurePool B.fits)
        S.files S.may_leave S.moment S.images_since desk.old desk.new
        held.old held.new company.old.seats company.new.seats }
    ensures seats { company.new.seats ≡ [] }
    ensures guests { company.new.guests ≡ [] }
    ensures listens { StaysOpen T.holds (H.listens hall.old) (H.honest hall.old)
        (H.listens hall.new) (H.honest hall.new) }
    ensures due { (limit : ℕ) → H.Way.tells
        → (held.old.halt ≡ None → company.old.failed ≡ false → company.old.lost ≡ false → ⊥)
        → KeepsOn
        (IsIllLink F.gives F.may_fail H.Way.history H.Way.count H.Way.idle_count H.Way.is_closed limit)
        H.Way.history desk.old.moves desk.new.moves held.old.halt held.new.halt company.old
        company.new (H.got hall.old) (H.got hall.new) }
    ensures met { Meets (H.count hall.old) (H.count hall.new) (H.got hall.old)
        (H.got hall.new) (H.given hall.old) (H.given hall.new) (H.idle_count hall.old)
        (H.idle_count hall.new) (inside_of company.old) (inside_of company.new)
        company.old.failed company.new.failed company.old.lost company.new.lost }
{
    while dismiss_last::<B, F, S, H, T, A, C>(company, alloc, desk, held, hall, clock) {}
    while let Some(peer) = company.guests.pop() {
        hand_back::<F, H, T>(company, alloc, hall, None, peer.into_way());
    }
}

/// Lets all workers and guests go, at whom nothing runs.
pub(crate) fn disband<F: Commands, H: Hall<F>, T: Terms + Trust>(
    company: &mut Company<F, H::Way, T>,
    alloc: Global,
    hall: &mut H,
)
    requires none { gathered company.old.seats ≡ [] }
    ensures seats { company.new.seats ≡ [] }
    ensures guests { company.new.guests ≡ [] }
    ensures failed { company.new.failed ≡ company.old.failed }
    ensures listens { StaysOpen T.holds (H.listens hall.old) (H.honest hall.old)
        (H.listens hall.new) (H.honest hall.new) }
    ensures due { (limit : ℕ) (moves : List Move) → H.Way.tells → KeepsDue
        (IsIllLink F.gives F.may_fail H.Way.history H.Way.count H.Way.idle_count H.Way.is_closed limit)
        H.Way.history moves moves None None company.old company.new (H.got hall.old)
        (H.got hall.new) }
    ensures hands { H.Way.tells → company.old.guests ≡ [] → company.new.lost ≡ false
        → HandsBack H.Way.history company.old.seats (H.got hall.old) (H.got hall.new) }
    ensures met { Meets (H.count hall.old) (H.count hall.new) (H.got hall.old)
        (H.got hall.new) (H.given hall.old) (H.given hall.new) (H.idle_count hall.old)
        (H.idle_count hall.new) (inside_of company.old) (inside_of company.new)
        company.old.failed company.new.failed company.old.lost company.new.lost }
{
    while let Some(mut seat) = company.seats.pop() {
        seat.farewell(alloc);
        let link = seat.link();
        hand_back::<F, H, T>(
            company,
            alloc,
            hall,
            Some(link),
            seat.into_peer().into_way(),
        );
    }
    while let Some(peer) = company.guests.pop() {
        hand_back::<F, H, T>(company, alloc, hall, None, peer.into_way());
    }
}
