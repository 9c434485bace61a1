//! Workers that are left.
ghost use Rattle.std.specs.Prelude.{◌≡◌, ◌<◌, ◌⊎◌, ◌∷◌, ◌++◌, ℕ, List, None, Some, false, length};
ghost use Rattle.flow_types.specs.declared.job.Start.{Start as StartValue};
ghost use Rattle.flow_types.specs.Plans.{IsValid};
ghost use Rattle.run_history.specs.declared.moves.Move.{Move};
ghost use Rattle.worker_pool.specs.declared.hand.Tally.{Tally};
ghost use Rattle.desk.specs.State.{DeskState};
ghost use Rattle.local_run.specs.Underway.{IsSurePool};
ghost use Rattle.wq_run.specs.Dues.{IsFull, IsIllLink, MayLeaveAt};
ghost use Rattle.wq_run.specs.Keeping.{KeepsOnBut};
ghost use Rattle.wq_run.specs.Seats.{IsParting, IsPartingAt, Manned, Meets, Parts, PartsAt};
ghost use Rattle.wq_run.specs.Seats.{SeatState, inside_of, with_hand};
ghost use Rattle.wq_run.specs.Trusted.{StaysOpen};

use super::Company;
use super::hall::hand_back;
use crate::reliance::Trust;
use crate::seat::Seat;
use desk::{Desk, Terms};
use links::Hall;
use local_run::{Held, leave};
use outside::{Clock, Commands, Site};
use std::alloc::Global;
use task_core::Admission;
use worker_pool::Terms as PoolTerms;

/// Leaves a seat that was taken out: what runs there is given up, and the link is handed back.
pub(super) fn part<
    B: PoolTerms,
    F: Commands,
    S: Site,
    H: Hall<F>,
    T: Terms + Trust,
    A: Admission,
    C: Clock,
>(
    company: &mut Company<F, H::Way, T>,
    alloc: Global,
    desk: &mut Desk<F, S, T, A>,
    held: &mut Held,
    hall: &mut H,
    seat: Seat<F, H::Way, T>,
    clock: &C,
)
    requires valid { IsValid desk.old.plan }
    requires keen { (k : ℕ) → 0 < k → T.keen k → ⊥ }
    requires parting { IsParting T.trust F.gives F.may_fail T.sources S.tells T.kept (IsSurePool B.fits)
        S.files S.may_leave S.moment S.images_since desk.old held.old company.old.seats seat }
    ensures manned { (before behind : List (SeatState H.Way)) (first : DeskState S)
        (waiting : List StartValue) (heard : Tally)
        → company.old.seats ≡ before ++ behind
        → Parts T.trust F.gives F.may_fail T.sources S.tells T.kept (IsSurePool B.fits)
        S.files S.may_leave S.moment S.images_since first desk.old held.old
        waiting heard before behind seat
        → Manned T.trust F.gives F.may_fail T.sources S.tells T.kept (IsSurePool B.fits)
        S.files S.may_leave S.moment S.images_since first desk.new held.new
        waiting heard company.new.seats }
    ensures seats { company.new.seats ≡ company.old.seats }
    ensures guests { company.new.guests ≡ company.old.guests }
    ensures listens { StaysOpen T.holds (H.listens hall.old) (H.honest hall.old)
        (H.listens hall.new) (H.honest hall.new) }
    ensures due { (limit : ℕ) → H.Way.tells → (before behind : List (SeatState H.Way))
        → company.old.seats ≡ before ++ behind
        → (held.old.halt ≡ None → company.old.failed ≡ false → company.old.lost ≡ false
        → IsIllLink F.gives F.may_fail H.Way.history H.Way.count H.Way.idle_count H.Way.is_closed
        limit seat.link seat.peer.way ⊎ IsFull desk.old.moves)
        → KeepsOnBut
        (IsIllLink F.gives F.may_fail H.Way.history H.Way.count H.Way.idle_count H.Way.is_closed limit)
        H.Way.history (length before) desk.old.moves desk.new.moves held.old.halt held.new.halt
        (record company.old { seats = before ++ seat ∷ behind }) company.new (H.got hall.old)
        (H.got hall.new) }
    ensures grows { held.new.halt ≡ None → (held.old.halt ≡ None)
        × ((more : List Move) × (desk.new.moves ≡ desk.old.moves ++ more)) }
    ensures met { Meets (H.count hall.old) (H.count hall.new) (H.got hall.old)
        (H.got hall.new) (H.given hall.old) (H.given hall.new) (H.idle_count hall.old)
        (H.idle_count hall.new) (with_hand (Some seat.link) (inside_of company.old))
        (inside_of company.new)
        company.old.failed company.new.failed company.old.lost company.new.lost }
{
    let mut seat = seat;
    seat.abandon::<B, S, A, C>(desk, held, clock);
    let link = seat.link();
    if desk.works() {
        leave::<B, F, S, T, A>(desk, link);
    }
    let way = seat.into_peer().into_way();
    hand_back::<F, H, T>(company, alloc, hall, Some(link), way);
}

/// Leaves the seat at this place, if there is one.
pub(super) fn part_at<
    B: PoolTerms,
    F: Commands,
    S: Site,
    H: Hall<F>,
    T: Terms + Trust,
    A: Admission,
    C: Clock,
>(
    company: &mut Company<F, H::Way, T>,
    alloc: Global,
    desk: &mut Desk<F, S, T, A>,
    held: &mut Held,
    hall: &mut H,
    at: usize,
    clock: &C,
)
    requires valid { IsValid desk.old.plan }
    requires keen { (k : ℕ) → 0 < k → T.keen k → ⊥ }
    requires inside { at < length company.old.seats }
    requires parting { IsPartingAt T.trust F.gives F.may_fail T.sources S.tells T.kept (IsSurePool B.fits)
        S.files S.may_leave S.moment S.images_since desk.old held.old company.old.seats at }
    ensures manned { (first : DeskState S) (waiting : List StartValue) (heard : Tally)
        → PartsAt T.trust F.gives F.may_fail T.sources S.tells T.kept (IsSurePool B.fits)
        S.files S.may_leave S.moment S.images_since first desk.old held.old
        waiting heard company.old.seats at
        → Manned T.trust F.gives F.may_fail T.sources S.tells T.kept (IsSurePool B.fits)
        S.files S.may_leave S.moment S.images_since first desk.new held.new
        waiting heard company.new.seats }
    ensures listens { StaysOpen T.holds (H.listens hall.old) (H.honest hall.old)
        (H.listens hall.new) (H.honest hall.new) }
    ensures due { (limit : ℕ) → H.Way.tells
        → (held.old.halt ≡ None → company.old.failed ≡ false → company.old.lost ≡ false
        → MayLeaveAt (IsIllLink F.gives F.may_fail H.Way.history H.Way.count H.Way.idle_count
        H.Way.is_closed limit) desk.old.moves at company.old.seats)
        → KeepsOnBut
        (IsIllLink F.gives F.may_fail H.Way.history H.Way.count H.Way.idle_count H.Way.is_closed limit)
        H.Way.history at desk.old.moves desk.new.moves held.old.halt held.new.halt company.old
        company.new (H.got hall.old) (H.got hall.new) }
    ensures grows { held.new.halt ≡ None → (held.old.halt ≡ None)
        × ((more : List Move) × (desk.new.moves ≡ desk.old.moves ++ more)) }
    ensures met { Meets (H.count hall.old) (H.count hall.new) (H.got hall.old)
        (H.got hall.new) (H.given hall.old) (H.given hall.new) (H.idle_count hall.old)
        (H.idle_count hall.new) (inside_of company.old) (inside_of company.new)
        company.old.failed company.new.failed company.old.lost company.new.lost }
{
    let seat = company.seats.remove(at);
    part::<B, F, S, H, T, A, C>(company, alloc, desk, held, hall, seat, clock);
}
