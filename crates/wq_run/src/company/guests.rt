//! Peers that came and haven't joined yet.
ghost use Rattle.std.specs.Prelude.{◌≡◌, ◌≤◌, ◌+◌, ◌⊎◌, ◌++◌, ◌∷◌, [], ℕ, IfErr, IfOk, IfSome, List};
ghost use Rattle.std.specs.Prelude.{None, OnOk, Option, count_by, false};
ghost use Rattle.flow_types.specs.declared.messages.Message.TheVariants as messages;
ghost use Rattle.run_history.specs.declared.moves.Move.{Move};
ghost use Rattle.run_history.specs.Moves.{is_join};
ghost use Rattle.links.specs.Passings.{received_in};
ghost use Rattle.message_forms.specs.Streams.{Carries};
ghost use Rattle.peers.specs.States.{LeavesAs};
ghost use Rattle.local_run.specs.declared.halt.Halt.{Halt as HaltValue};
ghost use Rattle.local_run.specs.Underway.{HeldState, IsSurePool};
ghost use Rattle.wq_run.specs.Dues.{HasHeard, IsIllLink};
ghost use Rattle.wq_run.specs.Keeping.{KeepsOn};
ghost use Rattle.wq_run.specs.Earned.{LeavesGuest};
ghost use Rattle.wq_run.specs.Calm.{Asked, IsComing, IsSureOf, IsSureCompany, IsSureGuest};
ghost use Rattle.wq_run.specs.Calm.{IsSureLinks, IsSureSeat, IsUnmet, KeepsCalm, StaysOr};
ghost use Rattle.wq_run.specs.Seats.{IsGuest, IsUnseated, KeepsManned, Meets, inside_of, with_hand};
ghost use Rattle.wq_run.specs.Trusted.{IsAwaited, IsFair, IsHeard, IsMeant, IsStranger, StaysOpen};

use super::Company;
use super::hall::hand_back;
use crate::reliance::Trust;
use crate::seat::{Offer, Seat};
use desk::{Desk, Terms};
use links::{Hall, Link};
use local_run::join;
use outside::{Commands, Site};
use peers::{Leave, Listened, Peer, Told, sure_links_are_orderly, tasks_come_behind_their_inputs};
use std::alloc::Global;
use task_core::Admission;
use worker_pool::Terms as PoolTerms;

/// How often a peer may be idle before its hello has come.
const MOST_IDLES: u64 = 8;

// Takes the bytes that a guest has sent, if there are some or it has its turn to be idle.
fn listen<F: Commands, L: Link<F>, T: Trust>(
    peer: &mut Peer<F, L>,
    alloc: Global,
    is_turn: bool,
) -> Result<(), Leave>
    ensures session { peer.new.session ≡ peer.old.session }
    ensures going { peer.old.feed.stop ≡ None → peer.new.feed.stop ≡ None }
    ensures stranger { IsStranger F.gives F.may_fail L.history
        (IsFair T.holds L.tells L.honest) peer.old
        → OnOk result (IsStranger F.gives F.may_fail L.history
        (IsFair T.holds L.tells L.honest) peer.new) }
    ensures leaves { IfErr result (LeavesAs (L.is_closed peer.new.way) (L.count peer.old.way)
        (L.count peer.new.way)) }
    ensures calm { (asked : Option Asked) → L.tells
        → IsSureGuest F.gives F.may_fail L.history L.idle_count (IsSureOf L.sure L.offers asked)
        peer.old
        → StaysOr (IsSureGuest F.gives F.may_fail L.history L.idle_count
        (IsSureOf L.sure L.offers asked) peer.new) ⊥ result }
{
    if !peer.ready() && !is_turn {
        return Ok(());
    }
    match peer.listen(alloc) {
        Ok(Listened::Piece) => Ok(()),
        Ok(Listened::Idle(_)) => Ok(()),
        Err(leave) => Err(leave),
    }
}

// What a guest offers, once its hello has come. It is to be left where it was idle for too long before
// that, but only once all that came was heard.
fn hear_hello<F: Commands, L: Link<F>, T: Trust>(
    peer: &mut Peer<F, L>,
    alloc: Global,
    is_turn: bool,
) -> Result<Option<Offer>, Leave>
    requires guest { IsGuest (IsAwaited (IsHeard T.holds L.tells) F.gives F.may_fail L.history (IsFair T.holds L.tells L.honest)) peer.old }
    ensures guest { OnOk result (IsGuest (IsMeant (IsHeard T.holds L.tells) F.gives F.may_fail L.history (IsFair T.holds L.tells L.honest)) peer.new) }
    ensures waits { IfOk result (λ offer. offer ≡ None
        → IsGuest (IsAwaited (IsHeard T.holds L.tells) F.gives F.may_fail L.history (IsFair T.holds L.tells L.honest)) peer.new) }
    ensures offers { IfOk result (λ offer. IfSome offer (λ o. L.tells
        → Carries (received_in (L.history peer.new.way))
        (messages.Hello o.total o.largest o.cache))) }
    ensures leaves { (limit : ℕ) → L.tells → IfErr result (LeavesGuest
        (IsIllLink F.gives F.may_fail L.history L.count L.idle_count L.is_closed limit)
        peer.new.way) }
    ensures offered { IfOk result (λ offer. IfSome offer
        (λ _. L.tells → HasHeard L.history peer.new 1)) }
    ensures calm { (asked : Option Asked) → L.tells
        → IsSureGuest F.gives F.may_fail L.history L.idle_count (IsSureOf L.sure L.offers asked)
        peer.old
        → StaysOr (IsSureGuest F.gives F.may_fail L.history L.idle_count
        (IsSureOf L.sure L.offers asked) peer.new) ⊥ result }
{
    sure_links_are_orderly::<F, L>();
    tasks_come_behind_their_inputs();
    match listen::<F, L, T>(peer, alloc, is_turn) {
        Ok(()) => {}
        Err(leave) => return Err(leave),
    }
    match peer.hear(alloc) {
        Ok(told) => match told {
            Told::Nothing => {
                if peer.idles() >= MOST_IDLES {
                    return Err(Leave::Closed);
                }
                Ok(None)
            }
            Told::Joined {
                total,
                largest,
                cache,
            } => Ok(Some(Offer {
                total,
                largest,
                cache,
            })),
            _ => Err(Leave::Unexpected),
        },
        Err(leave) => Err(leave),
    }
}

// The same. It is to be left too where what came is no beginning of a hello.
fn greet<F: Commands, L: Link<F>, T: Trust>(
    peer: &mut Peer<F, L>,
    alloc: Global,
    is_turn: bool,
) -> Result<Option<Offer>, Leave>
    requires guest { IsGuest (IsAwaited (IsHeard T.holds L.tells) F.gives F.may_fail L.history (IsFair T.holds L.tells L.honest)) peer.old }
    ensures guest { OnOk result (IsGuest (IsMeant (IsHeard T.holds L.tells) F.gives F.may_fail L.history (IsFair T.holds L.tells L.honest)) peer.new) }
    ensures waits { IfOk result (λ offer. offer ≡ None
        → IsGuest (IsAwaited (IsHeard T.holds L.tells) F.gives F.may_fail L.history (IsFair T.holds L.tells L.honest)) peer.new) }
    ensures offers { IfOk result (λ offer. IfSome offer (λ o. L.tells
        → Carries (received_in (L.history peer.new.way))
        (messages.Hello o.total o.largest o.cache))) }
    ensures leaves { (limit : ℕ) → L.tells → IfErr result (LeavesGuest
        (IsIllLink F.gives F.may_fail L.history L.count L.idle_count L.is_closed limit)
        peer.new.way) }
    ensures offered { IfOk result (λ offer. IfSome offer
        (λ _. L.tells → HasHeard L.history peer.new 1)) }
    ensures calm { (asked : Option Asked) → L.tells
        → IsSureGuest F.gives F.may_fail L.history L.idle_count (IsSureOf L.sure L.offers asked)
        peer.old
        → StaysOr (IsSureGuest F.gives F.may_fail L.history L.idle_count
        (IsSureOf L.sure L.offers asked) peer.new) ⊥ result }
{
    sure_links_are_orderly::<F, L>();
    match hear_hello::<F, L, T>(peer, alloc, is_turn) {
        Ok(Some(offer)) => Ok(Some(offer)),
        Ok(None) => {
            if peer.is_stranger() {
                return Err(Leave::Unexpected);
            }
            Ok(None)
        }
        Err(leave) => Err(leave),
    }
}

/// A guest stays one. Where there is no memory for it the run can't go on.
fn stay<F: Commands, H: Hall<F>, T: Trust>(
    company: &mut Company<F, H::Way, T>,
    alloc: Global,
    hall: &mut H,
    peer: Peer<F, H::Way>,
)
    requires guest { IsGuest (IsAwaited (IsHeard T.holds H.Way.tells) F.gives F.may_fail H.Way.history (IsFair T.holds H.Way.tells H.Way.honest)) peer }
    ensures seats { company.new.seats ≡ company.old.seats }
    ensures kept { company.new.lost ≡ false → H.got hall.new ≡ H.got hall.old }
    ensures listens { StaysOpen T.holds (H.listens hall.old) (H.honest hall.old)
        (H.listens hall.new) (H.honest hall.new) }
    ensures calm { (asked : Option Asked) (M : List Move) → company.new.lost ≡ false
        → IsSureGuest F.gives F.may_fail H.Way.history H.Way.idle_count
        (IsSureOf H.Way.sure H.Way.offers asked) peer
        → IsSureLinks F.gives F.may_fail H.Way.history H.Way.idle_count
        (IsSureOf H.Way.sure H.Way.offers asked) (IsComing H.sure H.staffed asked hall.old) M
        company.old
        → IsSureCompany F.gives F.may_fail H.Way.history H.Way.idle_count
        (IsSureOf H.Way.sure H.Way.offers asked) (IsComing H.sure H.staffed asked hall.new)
        (IsUnmet H.manned H.idle_count asked hall.new) M company.new }
    ensures met { Meets (H.count hall.old) (H.count hall.new) (H.got hall.old)
        (H.got hall.new) (H.given hall.old) (H.given hall.new) (H.idle_count hall.old)
        (H.idle_count hall.new) (with_hand None (inside_of company.old))
        (inside_of company.new)
        company.old.failed company.new.failed company.old.lost company.new.lost }
{
    if let Err(failed) = company.guests.push(peer) {
        hand_back::<F, H, T>(company, alloc, hall, None, failed.value.into_way());
        company.lost = true;
    }
}

/// A guest that joined gets its seat. Where there is no memory for it the run can't go on. The desk
/// gives each link a number above all before it.
fn take_seat<F: Commands, H: Hall<F>, T: Trust>(
    company: &mut Company<F, H::Way, T>,
    alloc: Global,
    hall: &mut H,
    seat: Seat<F, H::Way, T>,
)
    requires idle { seat.attempts ≡ [] }
    ensures seats { (company.new.seats ≡ company.old.seats)
        ⊎ (IsUnseated seat.link.0 company.old.seats
        × (company.new.seats ≡ company.old.seats ++ seat ∷ [])) }
    ensures seated { company.new.lost ≡ false → (H.got hall.new ≡ H.got hall.old)
        × IsUnseated seat.link.0 company.old.seats
        × (company.new.seats ≡ company.old.seats ++ seat ∷ []) }
    ensures listens { StaysOpen T.holds (H.listens hall.old) (H.honest hall.old)
        (H.listens hall.new) (H.honest hall.new) }
    ensures calm { (asked : Option Asked) (M all : List Move)
        → count_by is_join all ≤ count_by is_join M + 1 → company.new.lost ≡ false
        → IsSureSeat F.gives F.may_fail H.Way.history (IsSureOf H.Way.sure H.Way.offers asked) seat
        → IsSureLinks F.gives F.may_fail H.Way.history H.Way.idle_count
        (IsSureOf H.Way.sure H.Way.offers asked) (IsComing H.sure H.staffed asked hall.old) M
        company.old
        → IsSureCompany F.gives F.may_fail H.Way.history H.Way.idle_count
        (IsSureOf H.Way.sure H.Way.offers asked) (IsComing H.sure H.staffed asked hall.new)
        (IsUnmet H.manned H.idle_count asked hall.new) all company.new }
    ensures met { Meets (H.count hall.old) (H.count hall.new) (H.got hall.old)
        (H.got hall.new) (H.given hall.old) (H.given hall.new) (H.idle_count hall.old)
        (H.idle_count hall.new) (with_hand None (inside_of company.old))
        (inside_of company.new)
        company.old.failed company.new.failed company.old.lost company.new.lost }
{
    let link = seat.link();
    if !company.takes(link) {
        hand_back::<F, H, T>(company, alloc, hall, None, seat.into_peer().into_way());
        company.lost = true;
        return;
    }
    company.newest = link.0;
    if let Err(failed) = company.seats.push(seat) {
        let way = failed.value.into_peer().into_way();
        hand_back::<F, H, T>(company, alloc, hall, Some(link), way);
        company.lost = true;
    }
}

/// A guest joins with what it offers. Where the desk refuses it its link is handed back, and where
/// that is for want of memory the run can't go on.
fn seat_guest<B: PoolTerms, F: Commands, S: Site, H: Hall<F>, T: Terms + Trust, A: Admission>(
    company: &mut Company<F, H::Way, T>,
    alloc: Global,
    desk: &mut Desk<F, S, T, A>,
    hall: &mut H,
    peer: Peer<F, H::Way>,
    offer: Offer,
)
    requires guest { IsGuest (IsMeant (IsHeard T.holds H.Way.tells) F.gives F.may_fail H.Way.history (IsFair T.holds H.Way.tells H.Way.honest)) peer }
    requires came { H.Way.tells → Carries (received_in (H.Way.history peer.way))
        (messages.Hello offer.total offer.largest offer.cache) }
    requires offered { H.Way.tells → HasHeard H.Way.history peer 1 }
    ensures manned { (held : HeldState) → KeepsManned T.trust F.gives F.may_fail T.sources S.tells T.kept (IsSurePool B.fits)
        S.files S.may_leave S.moment S.images_since desk.old desk.new
        held held company.old.seats company.new.seats }
    ensures listens { StaysOpen T.holds (H.listens hall.old) (H.honest hall.old)
        (H.listens hall.new) (H.honest hall.new) }
    ensures due { (limit : ℕ) (halt : Option HaltValue) → H.Way.tells → KeepsOn
        (IsIllLink F.gives F.may_fail H.Way.history H.Way.count H.Way.idle_count H.Way.is_closed limit)
        H.Way.history desk.old.moves desk.new.moves halt halt company.old
        company.new (H.got hall.old) (H.got hall.new) }
    ensures calm { (asked : Option Asked) (halt : Option HaltValue) → H.Way.tells
        → KeepsCalm (IsSureGuest F.gives F.may_fail H.Way.history H.Way.idle_count
        (IsSureOf H.Way.sure H.Way.offers asked) peer × IsSureLinks F.gives F.may_fail H.Way.history
        H.Way.idle_count (IsSureOf H.Way.sure H.Way.offers asked)
        (IsComing H.sure H.staffed asked hall.old) desk.old.moves company.old) (IsSureCompany
        F.gives F.may_fail H.Way.history H.Way.idle_count (IsSureOf H.Way.sure H.Way.offers asked)
        (IsComing H.sure H.staffed asked hall.new) (IsUnmet H.manned H.idle_count asked hall.new)
        desk.new.moves company.new) desk.old.moves desk.new.moves halt halt company.old
        company.new }
    ensures met { Meets (H.count hall.old) (H.count hall.new) (H.got hall.old)
        (H.got hall.new) (H.given hall.old) (H.given hall.new) (H.idle_count hall.old)
        (H.idle_count hall.new) (with_hand None (inside_of company.old))
        (inside_of company.new)
        company.old.failed company.new.failed company.old.lost company.new.lost }
{
    match join::<B, F, S, T, A>(desk, offer.total, offer.largest, offer.cache) {
        Ok(link) => {
            take_seat::<F, H, T>(company, alloc, hall, Seat::new(alloc, peer, link, offer));
        }
        Err(why) => {
            company.refuses(why);
            hand_back::<F, H, T>(company, alloc, hall, None, peer.into_way());
        }
    }
}

/// Hears the guest that has waited longest, if there is one, and answers whether it is one no
/// longer.
fn greet_next<B: PoolTerms, F: Commands, S: Site, H: Hall<F>, T: Terms + Trust, A: Admission>(
    company: &mut Company<F, H::Way, T>,
    alloc: Global,
    desk: &mut Desk<F, S, T, A>,
    hall: &mut H,
    is_turn: bool,
) -> bool
    ensures manned { (held : HeldState) → KeepsManned T.trust F.gives F.may_fail T.sources S.tells T.kept (IsSurePool B.fits)
        S.files S.may_leave S.moment S.images_since desk.old desk.new
        held held company.old.seats company.new.seats }
    ensures listens { StaysOpen T.holds (H.listens hall.old) (H.honest hall.old)
        (H.listens hall.new) (H.honest hall.new) }
    ensures due { (limit : ℕ) (halt : Option HaltValue) → H.Way.tells → KeepsOn
        (IsIllLink F.gives F.may_fail H.Way.history H.Way.count H.Way.idle_count H.Way.is_closed limit)
        H.Way.history desk.old.moves desk.new.moves halt halt company.old
        company.new (H.got hall.old) (H.got hall.new) }
    ensures calm { (asked : Option Asked) (halt : Option HaltValue) → H.Way.tells
        → KeepsCalm (IsSureCompany F.gives F.may_fail H.Way.history H.Way.idle_count
        (IsSureOf H.Way.sure H.Way.offers asked) (IsComing H.sure H.staffed asked hall.old)
        (IsUnmet H.manned H.idle_count asked hall.old) desk.old.moves company.old) (IsSureCompany
        F.gives F.may_fail H.Way.history H.Way.idle_count (IsSureOf H.Way.sure H.Way.offers asked)
        (IsComing H.sure H.staffed asked hall.new) (IsUnmet H.manned H.idle_count asked hall.new)
        desk.new.moves company.new) desk.old.moves desk.new.moves halt halt company.old
        company.new }
    ensures met { Meets (H.count hall.old) (H.count hall.new) (H.got hall.old)
        (H.got hall.new) (H.given hall.old) (H.given hall.new) (H.idle_count hall.old)
        (H.idle_count hall.new) (inside_of company.old) (inside_of company.new)
        company.old.failed company.new.failed company.old.lost company.new.lost }
{
    if company.guests.is_empty() {
        return false;
    }
    let mut peer = company.guests.remove(0);
    match greet::<F, H::Way, T>(&mut peer, alloc, is_turn) {
        Ok(None) => {
            stay::<F, H, T>(company, alloc, hall, peer);
            false
        }
        Ok(Some(offer)) => {
            seat_guest::<B, F, S, H, T, A>(company, alloc, desk, hall, peer, offer);
            true
        }
        Err(leave) => {
            company.leaves(leave);
            hand_back::<F, H, T>(company, alloc, hall, None, peer.into_way());
            true
        }
    }
}

/// Hears each guest, and answers whether any is one no longer.
pub(super) fn greet_all<
    B: PoolTerms,
    F: Commands,
    S: Site,
    H: Hall<F>,
    T: Terms + Trust,
    A: Admission,
>(
    company: &mut Company<F, H::Way, T>,
    alloc: Global,
    desk: &mut Desk<F, S, T, A>,
    hall: &mut H,
    is_turn: bool,
) -> bool
    ensures manned { (held : HeldState) → KeepsManned T.trust F.gives F.may_fail T.sources S.tells T.kept (IsSurePool B.fits)
        S.files S.may_leave S.moment S.images_since desk.old desk.new
        held held company.old.seats company.new.seats }
    ensures listens { StaysOpen T.holds (H.listens hall.old) (H.honest hall.old)
        (H.listens hall.new) (H.honest hall.new) }
    ensures due { (limit : ℕ) (halt : Option HaltValue) → H.Way.tells → KeepsOn
        (IsIllLink F.gives F.may_fail H.Way.history H.Way.count H.Way.idle_count H.Way.is_closed limit)
        H.Way.history desk.old.moves desk.new.moves halt halt company.old
        company.new (H.got hall.old) (H.got hall.new) }
    ensures calm { (asked : Option Asked) (halt : Option HaltValue) → H.Way.tells
        → KeepsCalm (IsSureCompany F.gives F.may_fail H.Way.history H.Way.idle_count
        (IsSureOf H.Way.sure H.Way.offers asked) (IsComing H.sure H.staffed asked hall.old)
        (IsUnmet H.manned H.idle_count asked hall.old) desk.old.moves company.old) (IsSureCompany
        F.gives F.may_fail H.Way.history H.Way.idle_count (IsSureOf H.Way.sure H.Way.offers asked)
        (IsComing H.sure H.staffed asked hall.new) (IsUnmet H.manned H.idle_count asked hall.new)
        desk.new.moves company.new) desk.old.moves desk.new.moves halt halt company.old
        company.new }
    ensures met { Meets (H.count hall.old) (H.count hall.new) (H.got hall.old)
        (H.got hall.new) (H.given hall.old) (H.given hall.new) (H.idle_count hall.old)
        (H.idle_count hall.new) (inside_of company.old) (inside_of company.new)
        company.old.failed company.new.failed company.old.lost company.new.lost }
{
    let mut did = false;
    for _ in 0..company.guests.len() {
        if greet_next::<B, F, S, H, T, A>(company, alloc, desk, hall, is_turn) {
            did = true;
        }
    }
    did
}
