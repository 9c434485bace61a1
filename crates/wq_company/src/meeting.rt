//! How the peers of a queue come from a hall, and go back to it.
ghost use Rattle.std.specs.Prelude.{◌≡◌, ◌≤◌, ◌<◌, ◌+◌, ◌-◌, true, false, List, ℕ, None, length};
ghost use Rattle.std.specs.List.{AllByRecursion};
ghost use Rattle.flow_types.specs.declared.numbers.Amounts.{Amounts as AmountsValue};
ghost use Rattle.task_book.specs.declared.task.Held.{Held as HeldValue};
ghost use Rattle.wq_company.specs.Companies.{AreSureOf, AreRun, AreServed, live_of, ways_of};
ghost use Rattle.wq_company.specs.Rounds.{IsIdleHall, IsMet, Comes, MeetsAs, UnlessWanting};
ghost use Rattle.wq_seats.specs.Turns.{was_idle};

use crate::company::{Company, Stop};
use crate::laws::manned_halls_are_staffed;
use flow_types::Memory;
use links::{Came, Hall};
use outside::{Commands, Fault};
use std::alloc::Global;
use wq_seats::Look;

/// The most links that live at once.
const MOST_LINKS: usize = 32;

/// Asks the hall once for a peer, unless as many live as may or it isn't ready. It tells whether
/// somebody came, or that the hall counts as idle.
pub fn meet<F: Commands, H: Hall<F>>(
    company: &mut Company<F, H::Way>,
    alloc: Global,
    hall: &mut H,
    is_due: bool,
) -> Result<Look, Stop>
    requires listens { H.listens hall.old }
    ensures listens { H.listens hall.new }
    ensures next { company.new.next ≡ company.old.next }
    ensures comes { Comes H.Way.honest (H.honest hall.old) (H.honest hall.new)
        (ways_of company.old.seats) (ways_of company.new.seats) }
    ensures served { (files : List (List ℕ)) (held : List HeldValue) → H.Way.tells
        → AreServed F.gives F.may_fail H.Way.history files held company.old.next company.old.seats
        → AreServed F.gives F.may_fail H.Way.history files held company.new.next
        company.new.seats }
    ensures cause { MeetsAs (H.count hall.old) (H.count hall.new) result }
    ensures later { H.idle_count hall.old ≤ H.idle_count hall.new }
    ensures idle { was_idle result ≡ true → (company.new ≡ company.old)
        × IsIdleHall (H.idle_count hall.old) (H.idle_count hall.new) (live_of company.old.seats) }
    ensures run { (held : List HeldValue) → AreRun held company.old.seats
        → AreRun held company.new.seats }
    ensures staffed { (least : AmountsValue)
        → AreSureOf H.Way.sure H.Way.offers least (live_of company.old.seats)
        → IsMet H.manned H.staffed least hall.old (live_of company.old.seats)
        → UnlessWanting result (AreSureOf H.Way.sure H.Way.offers least
        (live_of company.new.seats)
        × IsMet H.manned H.staffed least hall.new (live_of company.new.seats)) }
    ensures manned { (least : AmountsValue)
        → IsMet H.manned H.staffed least hall.old (live_of company.old.seats)
        → was_idle result ≡ true → 0 < length (live_of company.old.seats) }
{
    manned_halls_are_staffed::<F, H>();

    if company.live() >= MOST_LINKS {
        return Ok(Look {
            came: false,
            was_idle: true,
        });
    }
    if !hall.ready() && !is_due {
        return Ok(Look {
            came: false,
            was_idle: false,
        });
    }
    match hall.wait(alloc) {
        Ok(Came::Link(way)) => match company.let_in(alloc, way) {
            Ok(()) => Ok(Look {
                came: true,
                was_idle: false,
            }),
            Err(_) => Err(Stop::Memory),
        },
        Ok(Came::Idle) => Ok(Look {
            came: false,
            was_idle: true,
        }),
        Err(Fault::Failed) => Err(Stop::Hall),
        Err(Fault::Memory) => Err(Stop::Memory),
    }
}

/// Hands back each link that is gone. Where memory is wanting it is lost.
pub fn part<F: Commands, H: Hall<F>>(company: &mut Company<F, H::Way>, alloc: Global, hall: &mut H)
    ensures listens { H.listens hall.old → H.listens hall.new }
    ensures honest { H.honest hall.old → H.honest hall.new }
    ensures faults { H.count hall.new ≡ H.count hall.old }
    ensures idles { H.idle_count hall.new ≡ H.idle_count hall.old }
    ensures next { company.new.next ≡ company.old.next }
    ensures links { AllByRecursion H.Way.honest (ways_of company.old.seats)
        → AllByRecursion H.Way.honest (ways_of company.new.seats) }
    ensures served { (files : List (List ℕ)) (held : List HeldValue) → H.Way.tells
        → AreServed F.gives F.may_fail H.Way.history files held company.old.next company.old.seats
        → AreServed F.gives F.may_fail H.Way.history files held company.new.next
        company.new.seats }
    ensures run { (held : List HeldValue) → AreRun held company.old.seats
        → AreRun held company.new.seats }
    ensures live { live_of company.new.seats ≡ live_of company.old.seats }
    ensures manned { (least : AmountsValue) → H.manned hall.old least → H.manned hall.new least }
    ensures staffed { (least : AmountsValue) → H.staffed hall.old least
        → H.staffed hall.new least }
{
    for _ in 0..company.count() {
        let Some(seat) = company.take_gone() else {
            return;
        };
        let _ = hall.back(alloc, None, seat.into_way());
    }
}

/// Tells each peer that is there that the work is over, and hands all links back. It answers whether
/// all were; else there was no memory for one, and it is lost.
pub fn dismiss<F: Commands, H: Hall<F>>(
    company: &mut Company<F, H::Way>,
    alloc: Global,
    hall: &mut H,
) -> bool
    ensures listens { H.listens hall.old → H.listens hall.new }
    ensures faults { H.count hall.new ≡ H.count hall.old }
    ensures idles { H.idle_count hall.new ≡ H.idle_count hall.old }
    ensures back { result ≡ true → length (H.got hall.new)
        ≡ length (H.got hall.old) + length company.old.seats }
{
    for _ in 0..company.count() {
        let Some(mut seat) = company.pop() else {
            return false;
        };
        seat.farewell(alloc);
        if hall.back(alloc, None, seat.into_way()).is_err() {
            return false;
        }
    }
    company.is_empty()
}
