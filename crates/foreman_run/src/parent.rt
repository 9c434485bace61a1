//! A foreman at the link to its parent.
ghost use Rattle.std.specs.Prelude.{◌≡◌, ◌-◌, [], Bool, List, ℕ, false, None, Some, Ok, length};
ghost use Rattle.foreman_core.specs.Foremen.{Foreman};
ghost use Rattle.peer_run.specs.Ends.{Takes};
ghost use Rattle.peer_run.specs.Says.{CanBeTold, Each};
ghost use Rattle.peer_run.specs.Works.{EarState, way_of};
ghost use Rattle.foreman_run.specs.Lost.{seen_of};
ghost use Rattle.foreman_run.specs.Ends.{Goes, LeavesParent, StopsAt};
ghost use Rattle.foreman_run.specs.Looks.{is_over};
ghost use Rattle.foreman_run.specs.Lowers.{LowerState};
ghost use Rattle.foreman_run.specs.Says.{CanGoDown};
ghost use Rattle.foreman_run.specs.Tied.{Book};
ghost use Rattle.foreman_run.specs.Works.{IsAtWork, Works};

use crate::company::Company;
use crate::look::Look;
use crate::stop::Stop;
use crate::voice::say_all;
use flow_types::Message;
use foreman_core::{ForemanActs, ForemanCore};
use links::{Got, Link};
use outside::Commands;
use peer_run::{Ear, Halt};
use std::alloc::Global;
use wq_messages::PeerFault;

/// The most messages of one link in a round.
pub(crate) const MOST_MESSAGES: usize = 64;

/// How many seconds in a row the parent may take nothing of what waits for it: as many as it likes.
const ANY_PATIENCE: u64 = 1_000_000_000;

/// Says what a step says upward, and sends what goes down.
pub(crate) fn perform<F: Commands, U: Link<F>, L: Link<F>>(
    alloc: Global,
    link: &mut U,
    company: &mut Company<F, L>,
    acts: ForemanActs,
) -> Result<(), Stop>
    requires up { Each CanBeTold acts.up }
    requires down { CanGoDown acts.down }
    ensures goes { (trusted : Bool) (cap : ℕ) (book : Book L) (ear : EarState) (core : Foreman) →
        Works F.gives F.may_fail U.tells trusted L.tells
        (seen_of L.history L.is_closed L.count L.idle_count) L.honest cap book (way_of U.history
        U.is_closed U.count link.old) ear core company.old acts.up acts.down false → Goes result (λ
        _. Works F.gives F.may_fail U.tells trusted L.tells
        (seen_of L.history L.is_closed L.count L.idle_count) L.honest cap book (way_of U.history
        U.is_closed U.count link.new) ear core company.new [] [] false) (StopsAt F.gives F.may_fail
        U.tells trusted L.tells (seen_of L.history L.is_closed L.count L.idle_count) cap book
        (way_of U.history U.is_closed U.count link.new) company.new) }
    ensures left { LeavesParent result }
    ensures many { length company.new ≡ length company.old }
{
    let ForemanActs {
        up,
        down,
        leave: _,
        bye: _,
    } = acts;
    if let Err(fault) = say_all(alloc, link, up) {
        return Err(Stop::of(fault));
    }
    company.send_all(alloc, down);
    Ok(())
}

/// Does what a message from above asks for, which began at this byte, and answers whether the work
/// is over.
fn obey<F: Commands, U: Link<F>, L: Link<F>>(
    alloc: Global,
    link: &mut U,
    core: &mut ForemanCore,
    company: &mut Company<F, L>,
    message: Message,
    at: u64,
) -> Result<bool, Stop>
    requires works { (ear : EarState) × (next : EarState) × Takes ear (Ok (Some message)) next ×
        IsAtWork F.gives F.may_fail U.tells L.tells
        (seen_of L.history L.is_closed L.count L.idle_count) L.honest (way_of U.history U.is_closed
        U.count link.old) ear core.old company.old }
    ensures goes { (trusted : Bool) (cap : ℕ) (book : Book L) (ear next : EarState) → at ≡ ear.fed -
        length ear.rest → Takes ear (Ok (Some message)) next → Works F.gives F.may_fail U.tells
        trusted L.tells (seen_of L.history L.is_closed L.count L.idle_count) L.honest cap book
        (way_of U.history U.is_closed U.count link.old) ear core.old company.old [] [] false → Goes
        result (Works F.gives F.may_fail U.tells trusted L.tells
        (seen_of L.history L.is_closed L.count L.idle_count) L.honest cap book (way_of U.history
        U.is_closed U.count link.new) next core.new company.new [] []) (StopsAt F.gives F.may_fail
        U.tells trusted L.tells (seen_of L.history L.is_closed L.count L.idle_count) cap book
        (way_of U.history U.is_closed U.count link.new) company.new) }
    ensures left { LeavesParent result }
    ensures many { length company.new ≡ length company.old }
{
    let acts = match core.on_up(message) {
        Ok(acts) => acts,
        Err(PeerFault::Unexpected) => return Err(Stop::Left(Halt::Bad { at })),
        Err(PeerFault::Memory) => return Err(Stop::Left(Halt::Memory)),
    };
    if acts.bye {
        return Ok(true);
    }
    match perform(alloc, link, company, acts) {
        Ok(()) => Ok(false),
        Err(stop) => Err(stop),
    }
}

/// At a turn, sends on what waits for the parent. It is never too slow.
pub(crate) fn push_on<F: Commands, U: Link<F>, L: Link<F>>(
    link: &mut U,
    turn: bool,
) -> Result<(), Stop>
    ensures goes { (trusted : Bool) (cap : ℕ) (book : Book L) (ear : EarState) (core : Foreman)
        (lowers : List (LowerState L)) → Works F.gives F.may_fail U.tells trusted L.tells
        (seen_of L.history L.is_closed L.count L.idle_count) L.honest cap book (way_of U.history
        U.is_closed U.count link.old) ear core lowers [] [] false → Goes result (λ _. Works F.gives
        F.may_fail U.tells trusted L.tells (seen_of L.history L.is_closed L.count L.idle_count)
        L.honest cap book (way_of U.history U.is_closed U.count link.new) ear core lowers [] []
        false) (StopsAt F.gives F.may_fail U.tells trusted L.tells
        (seen_of L.history L.is_closed L.count L.idle_count) cap book (way_of U.history U.is_closed
        U.count link.new) lowers) }
    ensures left { LeavesParent result }
{
    if !turn {
        return Ok(());
    }
    match link.flush(ANY_PATIENCE) {
        Ok(_) => Ok(()),
        Err(fault) => Err(Stop::of(fault)),
    }
}

/// Takes the bytes that are there, where less than a message was, if there are some or it is a turn to
/// ask for them, and answers whether there was anything.
fn listen<F: Commands, U: Link<F>, L: Link<F>>(
    alloc: Global,
    link: &mut U,
    ear: &mut Ear,
    turn: bool,
) -> Result<bool, Stop>
    requires { ear.old.stop ≡ None }
    ensures goes { (trusted : Bool) (cap : ℕ) (book : Book L) (before : EarState) (core : Foreman)
        (lowers : List (LowerState L)) → Takes before (Ok None) ear.old → Works F.gives F.may_fail
        U.tells trusted L.tells (seen_of L.history L.is_closed L.count L.idle_count) L.honest cap
        book (way_of U.history U.is_closed U.count link.old) before core lowers [] [] false → Goes
        result (λ _. Works F.gives F.may_fail U.tells trusted L.tells
        (seen_of L.history L.is_closed L.count L.idle_count) L.honest cap book (way_of U.history
        U.is_closed U.count link.new) ear.new core lowers [] [] false) (StopsAt F.gives F.may_fail
        U.tells trusted L.tells (seen_of L.history L.is_closed L.count L.idle_count) cap book
        (way_of U.history U.is_closed U.count link.new) lowers) }
    ensures left { LeavesParent result }
{
    if !link.ready() && !turn {
        return Ok(false);
    }
    match link.recv(alloc) {
        Ok(Got::Piece(piece)) => match ear.feed(piece.as_slice()) {
            Ok(()) => Ok(true),
            Err(_) => Err(Stop::Left(Halt::Memory)),
        },
        Ok(Got::Idle) => Ok(false),
        Ok(Got::Closed) => Err(Stop::Left(Halt::Closed)),
        Err(fault) => Err(Stop::of(fault)),
    }
}

/// Does what the parent's next message asks for, or takes the bytes that are there, if there are some
/// or it is a turn to ask for them.
fn attend<F: Commands, U: Link<F>, L: Link<F>>(
    alloc: Global,
    link: &mut U,
    ear: &mut Ear,
    core: &mut ForemanCore,
    company: &mut Company<F, L>,
    turn: bool,
) -> Result<Look, Stop>
    requires works { IsAtWork F.gives F.may_fail U.tells L.tells
        (seen_of L.history L.is_closed L.count L.idle_count) L.honest (way_of U.history U.is_closed
        U.count link.old) ear.old core.old company.old }
    ensures goes { (trusted : Bool) (cap : ℕ) (book : Book L) → Works F.gives F.may_fail U.tells
        trusted L.tells (seen_of L.history L.is_closed L.count L.idle_count) L.honest cap book
        (way_of U.history U.is_closed U.count link.old) ear.old core.old company.old [] [] false →
        Goes result (λ look. Works F.gives F.may_fail U.tells trusted L.tells
        (seen_of L.history L.is_closed L.count L.idle_count) L.honest cap book (way_of U.history
        U.is_closed U.count link.new) ear.new core.new company.new [] [] (is_over look)) (StopsAt
        F.gives F.may_fail U.tells trusted L.tells
        (seen_of L.history L.is_closed L.count L.idle_count) cap book (way_of U.history U.is_closed
        U.count link.new) company.new) }
    ensures left { LeavesParent result }
    ensures many { length company.new ≡ length company.old }
{
    let at = ear.at();
    match ear.next(alloc) {
        Ok(Some(message)) => match obey(alloc, link, core, company, message, at) {
            Ok(true) => Ok(Look::Over),
            Ok(false) => Ok(Look::Message),
            Err(stop) => Err(stop),
        },
        Ok(None) => match listen::<F, U, L>(alloc, link, ear, turn) {
            Ok(did) => Ok(Look::of(did)),
            Err(stop) => Err(stop),
        },
        Err(halt) => Err(Stop::Left(halt)),
    }
}

/// Does what the parent's next messages ask for, and then takes the bytes that are there. However many
/// messages there are, it takes only so many.
pub(crate) fn attend_some<F: Commands, U: Link<F>, L: Link<F>>(
    alloc: Global,
    link: &mut U,
    ear: &mut Ear,
    core: &mut ForemanCore,
    company: &mut Company<F, L>,
    turn: bool,
) -> Result<Look, Stop>
    requires works { IsAtWork F.gives F.may_fail U.tells L.tells
        (seen_of L.history L.is_closed L.count L.idle_count) L.honest (way_of U.history U.is_closed
        U.count link.old) ear.old core.old company.old }
    ensures goes { (trusted : Bool) (cap : ℕ) (book : Book L) → Works F.gives F.may_fail U.tells
        trusted L.tells (seen_of L.history L.is_closed L.count L.idle_count) L.honest cap book
        (way_of U.history U.is_closed U.count link.old) ear.old core.old company.old [] [] false →
        Goes result (λ look. Works F.gives F.may_fail U.tells trusted L.tells
        (seen_of L.history L.is_closed L.count L.idle_count) L.honest cap book (way_of U.history
        U.is_closed U.count link.new) ear.new core.new company.new [] [] (is_over look)) (StopsAt
        F.gives F.may_fail U.tells trusted L.tells
        (seen_of L.history L.is_closed L.count L.idle_count) cap book (way_of U.history U.is_closed
        U.count link.new) company.new) }
    ensures left { LeavesParent result }
    ensures many { length company.new ≡ length company.old }
{
    let mut did = false;
    for _ in 0..MOST_MESSAGES {
        match attend(alloc, link, ear, core, company, turn) {
            Ok(Look::Message) => did = true,
            Ok(look) => return Ok(look.after(did)),
            Err(stop) => return Err(stop),
        }
    }
    Ok(Look::Message)
}
