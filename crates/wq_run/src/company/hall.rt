//! Where peers come and go.
ghost use Rattle.std.specs.Prelude.{◌≡◌, ◌∷◌, ◌++◌, [], IfOk, List, None, Option, false};
ghost use Rattle.flow_types.specs.declared.numbers.Amounts.{Amounts};
ghost use Rattle.run_history.specs.declared.moves.Move.{Move};
ghost use Rattle.wq_run.specs.Calm.{Asked, IsComing, IsSureOf, IsSureCompany, IsSureGuest};
ghost use Rattle.wq_run.specs.Calm.{IsSureLinks, IsUnmet};
ghost use Rattle.wq_run.specs.Seats.{IsGuest, Meets, inside_of, with_hand};
ghost use Rattle.wq_run.specs.Trusted.{IsAwaited, IsFair, IsHeard, IsOpen, StaysOpen};

use super::Company;
use crate::reliance::Trust;
use flow_types::LinkNo;
use links::{Came, Hall, Link};
use outside::{Commands, Fault};
use peers::{Peer, honest_links_were_honest, tasks_come_behind_their_inputs};
use std::alloc::Global;

/// The time from one turn to be idle to the next, in milliseconds.
const TURN: u64 = 1_000;

/// The longest rest, in milliseconds.
const REST: u64 = 250;

/// Hands a link back, under its number if it joined.
pub(super) fn hand_back<F: Commands, H: Hall<F>, T: Trust>(
    company: &mut Company<F, H::Way, T>,
    alloc: Global,
    hall: &mut H,
    link: Option<LinkNo>,
    way: H::Way,
)
    ensures seats { company.new.seats ≡ company.old.seats }
    ensures guests { company.new.guests ≡ company.old.guests }
    ensures failed { company.new.failed ≡ company.old.failed }
    ensures back { company.new.lost ≡ false
        → H.got hall.new ≡ H.got hall.old ++ (link, way) ∷ [] }
    ensures listens { StaysOpen T.holds (H.listens hall.old) (H.honest hall.old)
        (H.listens hall.new) (H.honest hall.new) }
    ensures sure { H.sure hall.old → H.sure hall.new }
    ensures staffed { (amounts : Amounts) → H.staffed hall.old amounts → H.staffed hall.new amounts }
    ensures met { Meets (H.count hall.old) (H.count hall.new) (H.got hall.old)
        (H.got hall.new) (H.given hall.old) (H.given hall.new) (H.idle_count hall.old)
        (H.idle_count hall.new) (with_hand link (inside_of company.old))
        (inside_of company.new)
        company.old.failed company.new.failed company.old.lost company.new.lost }
{
    match hall.back(alloc, link, way) {
        Ok(()) => {}
        Err(_) => company.lost = true,
    }
}

// A guest at this link, over which nothing has passed yet.
fn guest_at<F: Commands, L: Link<F>, T: Trust>(alloc: Global, way: L) -> Result<Peer<F, L>, L>
    requires fresh { L.history way ≡ [] }
    requires rested { L.idle_count way ≡ 0 }
    requires honest { T.holds → L.honest way }
    ensures guest { IfOk result
        (IsGuest (IsAwaited (IsHeard T.holds L.tells) F.gives F.may_fail L.history (IsFair T.holds L.tells L.honest))) }
    ensures sure { (asked : Option Asked) → L.tells → IsSureOf L.sure L.offers asked way
        → IfOk result
        (IsSureGuest F.gives F.may_fail L.history L.idle_count (IsSureOf L.sure L.offers asked)) }
{
    honest_links_were_honest::<F, L>();
    tasks_come_behind_their_inputs();
    Peer::new(alloc, way, 0)
}

/// A peer comes over this link. Where there is no memory for it the run can't go on.
fn let_in<F: Commands, H: Hall<F>, T: Trust>(
    company: &mut Company<F, H::Way, T>,
    alloc: Global,
    hall: &mut H,
    way: H::Way,
)
    requires fresh { H.Way.history way ≡ [] }
    requires rested { H.Way.idle_count way ≡ 0 }
    requires honest { T.holds → H.Way.honest way }
    ensures seats { company.new.seats ≡ company.old.seats }
    ensures kept { company.new.lost ≡ false → H.got hall.new ≡ H.got hall.old }
    ensures listens { StaysOpen T.holds (H.listens hall.old) (H.honest hall.old)
        (H.listens hall.new) (H.honest hall.new) }
    ensures calm { (asked : Option Asked) (M : List Move) → H.Way.tells
        → IsSureOf H.Way.sure H.Way.offers asked way → company.new.lost ≡ false
        → IsSureLinks F.gives F.may_fail H.Way.history H.Way.idle_count
        (IsSureOf H.Way.sure H.Way.offers asked) (IsComing H.sure H.staffed asked hall.old) M
        company.old
        → IsSureCompany F.gives F.may_fail H.Way.history H.Way.idle_count
        (IsSureOf H.Way.sure H.Way.offers asked) (IsComing H.sure H.staffed asked hall.new)
        (IsUnmet H.manned H.idle_count asked hall.new) M company.new }
    ensures met { Meets (H.count hall.old) (H.count hall.new) (H.got hall.old)
        (H.got hall.new) (H.given hall.old) (H.given hall.new) (H.idle_count hall.old)
        (H.idle_count hall.new) (with_hand None (inside_of company.old))
        (inside_of company.new)
        company.old.failed company.new.failed company.old.lost company.new.lost }
{
    match guest_at::<F, H::Way, T>(alloc, way) {
        Ok(peer) => {
            if let Err(failed) = company.guests.push(peer) {
                hand_back::<F, H, T>(company, alloc, hall, None, failed.value.into_way());
                company.lost = true;
            }
        }
        Err(way) => {
            hand_back::<F, H, T>(company, alloc, hall, None, way);
            company.lost = true;
        }
    }
}

/// Asks for the next peer, and answers whether one came.
fn wait<F: Commands, H: Hall<F>, T: Trust>(
    company: &mut Company<F, H::Way, T>,
    alloc: Global,
    hall: &mut H,
) -> bool
    requires { IsOpen T.holds (H.listens hall.old) (H.honest hall.old) }
    ensures seats { company.new.seats ≡ company.old.seats }
    ensures kept { company.new.lost ≡ false → H.got hall.new ≡ H.got hall.old }
    ensures listens { IsOpen T.holds (H.listens hall.new) (H.honest hall.new) }
    ensures calm { (asked : Option Asked) (M : List Move) → H.Way.tells → company.new.lost ≡ false
        → IsSureCompany F.gives F.may_fail H.Way.history H.Way.idle_count
        (IsSureOf H.Way.sure H.Way.offers asked) (IsComing H.sure H.staffed asked hall.old)
        (IsUnmet H.manned H.idle_count asked hall.old) M company.old
        → IsSureCompany F.gives F.may_fail H.Way.history H.Way.idle_count
        (IsSureOf H.Way.sure H.Way.offers asked) (IsComing H.sure H.staffed asked hall.new)
        (IsUnmet H.manned H.idle_count asked hall.new) M company.new }
    ensures met { Meets (H.count hall.old) (H.count hall.new) (H.got hall.old)
        (H.got hall.new) (H.given hall.old) (H.given hall.new) (H.idle_count hall.old)
        (H.idle_count hall.new) (inside_of company.old) (inside_of company.new)
        company.old.failed company.new.failed company.old.lost company.new.lost }
{
    match hall.wait(alloc) {
        Ok(Came::Link(way)) => {
            let_in::<F, H, T>(company, alloc, hall, way);
            true
        }
        Ok(Came::Idle) => false,
        Err(Fault::Failed) => {
            company.failed = true;
            true
        }
        Err(Fault::Memory) => {
            company.lost = true;
            true
        }
    }
}

/// Lets in who has come, and answers whether anybody did. Where there are links enough nobody is
/// asked for, and who comes waits.
pub(super) fn meet<F: Commands, H: Hall<F>, T: Trust>(
    company: &mut Company<F, H::Way, T>,
    alloc: Global,
    hall: &mut H,
    is_turn: bool,
) -> bool
    requires { IsOpen T.holds (H.listens hall.old) (H.honest hall.old) }
    ensures seats { company.new.seats ≡ company.old.seats }
    ensures kept { company.new.lost ≡ false → H.got hall.new ≡ H.got hall.old }
    ensures listens { IsOpen T.holds (H.listens hall.new) (H.honest hall.new) }
    ensures calm { (asked : Option Asked) (M : List Move) → H.Way.tells → company.new.lost ≡ false
        → IsSureCompany F.gives F.may_fail H.Way.history H.Way.idle_count
        (IsSureOf H.Way.sure H.Way.offers asked) (IsComing H.sure H.staffed asked hall.old)
        (IsUnmet H.manned H.idle_count asked hall.old) M company.old
        → IsSureCompany F.gives F.may_fail H.Way.history H.Way.idle_count
        (IsSureOf H.Way.sure H.Way.offers asked) (IsComing H.sure H.staffed asked hall.new)
        (IsUnmet H.manned H.idle_count asked hall.new) M company.new }
    ensures met { Meets (H.count hall.old) (H.count hall.new) (H.got hall.old)
        (H.got hall.new) (H.given hall.old) (H.given hall.new) (H.idle_count hall.old)
        (H.idle_count hall.new) (inside_of company.old) (inside_of company.new)
        company.old.failed company.new.failed company.old.lost company.new.lost }
{
    if !company.is_full() && (hall.ready() || is_turn) {
        return wait::<F, H, T>(company, alloc, hall);
    }
    false
}

/// Waits for news of links and runners, unless there is something to do, and answers whether a second
/// has gone by since each had its turn to be idle; then the next begins.
pub(super) fn has_turn<F: Commands, H: Hall<F>, T: Trust>(
    company: &mut Company<F, H::Way, T>,
    hall: &mut H,
    is_busy: bool,
) -> bool
    ensures company { company.new ≡ company.old }
    ensures hall { hall.new ≡ hall.old }
{
    let millis = if is_busy { 0 } else { REST };
    company.passed = company.passed.saturating_add(hall.rest(millis));
    if company.passed < TURN {
        return false;
    }
    company.passed = 0;
    true
}
