//! A foreman's rounds: it looks at the link to its parent, at each worker's link, and at who has come.
ghost use Rattle.std.specs.Prelude.{◌≡◌, ◌+◌, [], Bool, ℕ, false, true, length};
ghost use Rattle.peer_run.specs.Works.{EarState, way_of};
ghost use Rattle.foreman_run.specs.Lost.{seen_of};
ghost use Rattle.foreman_run.specs.Ends.{Goes, LeavesParent, StopsAt, StopsOver};
ghost use Rattle.foreman_run.specs.Hosts.{HostsBy, HostsTill};
ghost use Rattle.foreman_run.specs.Looks.{is_over};
ghost use Rattle.foreman_run.specs.Tied.{Book, with_got, with_hall};
ghost use Rattle.foreman_run.specs.Works.{IsAtHall, IsAtWork, Works};

use crate::company::Company;
use crate::hearing::hear_at;
use crate::hosting::{lose_next, meet};
use crate::look::Look;
use crate::parent::{MOST_MESSAGES, attend_some, push_on};
use crate::stop::Stop;
use foreman_core::ForemanCore;
use links::{Hall, Link};
use outside::Commands;
use peer_run::{Ear, Halt};
use std::alloc::Global;
use std::sync::Wait;

/// How many milliseconds a round that found nothing is followed by at most, while nothing comes.
const LONGEST_REST: u64 = 250;

/// A turn comes once in so many milliseconds.
const TURN: u64 = 1_000;

/// The most bytes that may wait for the parent while workers are heard, who would add to them.
const MOST_BEHIND: u64 = 67_108_864;

/// How many milliseconds went by since the last turn, and whether the last round found anything.
#[derive(Drop)]
struct Pace {
    passed: u64,
    did: bool,
}

impl Pace {
    fn new() -> Pace {
        Pace {
            passed: 0,
            did: false,
        }
    }

    // Whether it is a turn. However long it is overdue, it is one.
    fn is_turn(&mut self) -> bool {
        if self.passed < TURN {
            return false;
        }
        self.passed %= TURN;
        true
    }

    // Whether the round found anything.
    fn note(&mut self, did: bool) {
        self.did = did;
    }

    // How long to wait at most.
    fn rest(&self) -> u64 {
        if self.did { 0 } else { LONGEST_REST }
    }

    // So many milliseconds went by.
    fn pass(&mut self, millis: u64) {
        self.passed = self.passed.saturating_add(millis);
    }
}

/// Does what the next messages of the worker at a place ask for, and then takes the bytes that are
/// there. However many messages there are, it takes only so many.
fn hear_some<F: Commands, U: Link<F>, L: Link<F>>(
    alloc: Global,
    parent: &mut U,
    core: &mut ForemanCore,
    company: &mut Company<F, L>,
    at: usize,
    turn: bool,
) -> Result<bool, Stop>
    requires works { (ear : EarState) × IsAtWork F.gives F.may_fail U.tells L.tells
        (seen_of L.history L.is_closed L.count L.idle_count) L.honest (way_of U.history U.is_closed
        U.count parent.old) ear core.old company.old }
    ensures goes { (trusted : Bool) (cap : ℕ) (book : Book L) (ear : EarState) → Works F.gives
        F.may_fail U.tells trusted L.tells (seen_of L.history L.is_closed L.count L.idle_count)
        L.honest cap book (way_of U.history U.is_closed U.count parent.old) ear core.old company.old
        [] [] false → Goes result (λ _. Works F.gives F.may_fail U.tells trusted L.tells
        (seen_of L.history L.is_closed L.count L.idle_count) L.honest cap book (way_of U.history
        U.is_closed U.count parent.new) ear core.new company.new [] [] false) (StopsAt F.gives
        F.may_fail U.tells trusted L.tells (seen_of L.history L.is_closed L.count L.idle_count) cap
        book (way_of U.history U.is_closed U.count parent.new) company.new) }
    ensures left { LeavesParent result }
    ensures many { length company.new ≡ length company.old }
{
    let mut did = false;
    for _ in 0..MOST_MESSAGES {
        match hear_at(alloc, parent, core, company, at, turn) {
            Ok(Look::Message) => did = true,
            Ok(look) => return Ok(look.after(did).did()),
            Err(stop) => return Err(stop),
        }
    }
    Ok(true)
}

/// Hears each worker once, and answers whether any told something. While the parent is far behind it
/// hears none.
fn hear_all<F: Commands, U: Link<F>, L: Link<F>>(
    alloc: Global,
    parent: &mut U,
    core: &mut ForemanCore,
    company: &mut Company<F, L>,
    turn: bool,
) -> Result<bool, Stop>
    requires works { (ear : EarState) × IsAtWork F.gives F.may_fail U.tells L.tells
        (seen_of L.history L.is_closed L.count L.idle_count) L.honest (way_of U.history U.is_closed
        U.count parent.old) ear core.old company.old }
    ensures goes { (trusted : Bool) (cap : ℕ) (book : Book L) (ear : EarState) → Works F.gives
        F.may_fail U.tells trusted L.tells (seen_of L.history L.is_closed L.count L.idle_count)
        L.honest cap book (way_of U.history U.is_closed U.count parent.old) ear core.old company.old
        [] [] false → Goes result (λ _. Works F.gives F.may_fail U.tells trusted L.tells
        (seen_of L.history L.is_closed L.count L.idle_count) L.honest cap book (way_of U.history
        U.is_closed U.count parent.new) ear core.new company.new [] [] false) (StopsAt F.gives
        F.may_fail U.tells trusted L.tells (seen_of L.history L.is_closed L.count L.idle_count) cap
        book (way_of U.history U.is_closed U.count parent.new) company.new) }
    ensures left { LeavesParent result }
    ensures many { length company.new ≡ length company.old }
{
    if parent.behind() > MOST_BEHIND {
        return Ok(false);
    }
    let mut did = false;
    for at in 0..company.count() {
        match hear_some(alloc, parent, core, company, at, turn) {
            Ok(heard) => did = did || heard,
            Err(stop) => return Err(stop),
        }
    }
    Ok(did)
}

/// Hands back and loses each link that is to be left, and answers whether there was any.
fn lose_all<F: Commands, U: Link<F>, H: Hall<F>>(
    alloc: Global,
    parent: &mut U,
    core: &mut ForemanCore,
    company: &mut Company<F, H::Way>,
    hall: &mut H,
) -> Result<bool, Stop>
    requires works { (ear : EarState) × (upto : ℕ) × IsAtHall F.gives F.may_fail U.tells H.Way.tells
        (seen_of H.Way.history H.Way.is_closed H.Way.count H.Way.idle_count) H.Way.honest (H.got
        hall.old) upto (way_of U.history U.is_closed U.count parent.old) ear core.old company.old }
    ensures goes { (trusted : Bool) (cap : ℕ) (book : Book H.Way) (ear : EarState) → Works F.gives
        F.may_fail U.tells trusted H.Way.tells
        (seen_of H.Way.history H.Way.is_closed H.Way.count H.Way.idle_count) H.Way.honest cap
        (with_got book (H.got hall.old)) (way_of U.history U.is_closed U.count parent.old) ear
        core.old company.old [] [] false → Goes result (λ _. Works F.gives F.may_fail U.tells
        trusted H.Way.tells (seen_of H.Way.history H.Way.is_closed H.Way.count H.Way.idle_count)
        H.Way.honest cap (with_got book (H.got hall.new)) (way_of U.history U.is_closed U.count
        parent.new) ear core.new company.new [] [] false) (StopsAt F.gives F.may_fail U.tells
        trusted H.Way.tells (seen_of H.Way.history H.Way.is_closed H.Way.count H.Way.idle_count) cap
        (with_got book (H.got hall.new)) (way_of U.history U.is_closed U.count parent.new)
        company.new) }
    ensures hosts { HostsBy (H.count hall.old) (H.count hall.new) (H.got hall.old)
        (H.got hall.new) (H.given hall.old) (H.given hall.new) (length company.old)
        (length company.new) result }
    ensures given { H.given hall.new ≡ H.given hall.old }
    ensures listens { H.listens hall.old → H.listens hall.new }
    ensures honest { H.honest hall.old → H.honest hall.new }
{
    let mut did = false;
    for _ in 0..company.count() {
        match lose_next(alloc, parent, core, company, hall) {
            Ok(lost) => did = did || lost,
            Err(stop) => return Err(stop),
        }
    }
    Ok(did)
}

/// Looks after each worker at a turn, hears it once, and leaves the links that are to be left. It
/// answers whether there was anything.
fn tend<F: Commands, U: Link<F>, H: Hall<F>>(
    alloc: Global,
    parent: &mut U,
    core: &mut ForemanCore,
    company: &mut Company<F, H::Way>,
    hall: &mut H,
    turn: bool,
) -> Result<bool, Stop>
    requires works { (ear : EarState) × (upto : ℕ) × IsAtHall F.gives F.may_fail U.tells H.Way.tells
        (seen_of H.Way.history H.Way.is_closed H.Way.count H.Way.idle_count) H.Way.honest (H.got
        hall.old) upto (way_of U.history U.is_closed U.count parent.old) ear core.old company.old }
    ensures goes { (trusted : Bool) (cap : ℕ) (book : Book H.Way) (ear : EarState) → Works F.gives
        F.may_fail U.tells trusted H.Way.tells
        (seen_of H.Way.history H.Way.is_closed H.Way.count H.Way.idle_count) H.Way.honest cap
        (with_got book (H.got hall.old)) (way_of U.history U.is_closed U.count parent.old) ear
        core.old company.old [] [] false → Goes result (λ _. Works F.gives F.may_fail U.tells
        trusted H.Way.tells (seen_of H.Way.history H.Way.is_closed H.Way.count H.Way.idle_count)
        H.Way.honest cap (with_got book (H.got hall.new)) (way_of U.history U.is_closed U.count
        parent.new) ear core.new company.new [] [] false) (StopsAt F.gives F.may_fail U.tells
        trusted H.Way.tells (seen_of H.Way.history H.Way.is_closed H.Way.count H.Way.idle_count) cap
        (with_got book (H.got hall.new)) (way_of U.history U.is_closed U.count parent.new)
        company.new) }
    ensures hosts { HostsBy (H.count hall.old) (H.count hall.new) (H.got hall.old)
        (H.got hall.new) (H.given hall.old) (H.given hall.new) (length company.old)
        (length company.new) result }
    ensures given { H.given hall.new ≡ H.given hall.old }
    ensures listens { H.listens hall.old → H.listens hall.new }
    ensures honest { H.honest hall.old → H.honest hall.new }
{
    company.check(alloc, turn);
    match hear_all(alloc, parent, core, company, turn) {
        Ok(heard) => match lose_all(alloc, parent, core, company, hall) {
            Ok(lost) => Ok(heard || lost),
            Err(stop) => Err(stop),
        },
        Err(stop) => Err(stop),
    }
}

/// As `tend`, and then lets in who has come.
fn host<F: Commands, U: Link<F>, H: Hall<F>>(
    alloc: Global,
    parent: &mut U,
    core: &mut ForemanCore,
    company: &mut Company<F, H::Way>,
    hall: &mut H,
    numbered: &mut u32,
    turn: bool,
) -> Result<bool, Stop>
    requires works { (ear : EarState) × IsAtHall F.gives F.may_fail U.tells H.Way.tells
        (seen_of H.Way.history H.Way.is_closed H.Way.count H.Way.idle_count) H.Way.honest (H.got
        hall.old) numbered.old (way_of U.history U.is_closed U.count parent.old) ear core.old
        company.old }
    requires listens { H.listens hall.old }
    ensures goes { (trusted : Bool) (cap : ℕ) (book : Book H.Way) (ear : EarState) → (trusted ≡ true
        → H.honest hall.old) → Works F.gives F.may_fail U.tells trusted H.Way.tells
        (seen_of H.Way.history H.Way.is_closed H.Way.count H.Way.idle_count) H.Way.honest cap
        (with_hall book (H.got hall.old) numbered.old) (way_of U.history U.is_closed U.count
        parent.old) ear core.old company.old [] [] false → Goes result (λ _. Works F.gives
        F.may_fail U.tells trusted H.Way.tells
        (seen_of H.Way.history H.Way.is_closed H.Way.count H.Way.idle_count) H.Way.honest cap
        (with_hall book (H.got hall.new) numbered.new) (way_of U.history U.is_closed U.count
        parent.new) ear core.new company.new [] [] false) (StopsAt F.gives F.may_fail U.tells
        trusted H.Way.tells (seen_of H.Way.history H.Way.is_closed H.Way.count H.Way.idle_count) cap
        (with_hall book (H.got hall.new) numbered.new) (way_of U.history U.is_closed U.count
        parent.new) company.new) }
    ensures hosts { HostsBy (H.count hall.old) (H.count hall.new) (H.got hall.old)
        (H.got hall.new) (H.given hall.old) (H.given hall.new) (length company.old)
        (length company.new) result }
    ensures counted { numbered.new + H.given hall.old ≡ numbered.old + H.given hall.new }
    ensures listens { H.listens hall.new }
    ensures honest { H.honest hall.old → H.honest hall.new }
{
    let did = match tend(alloc, parent, core, company, hall, turn) {
        Ok(did) => did,
        Err(stop) => return Err(stop),
    };
    match meet::<F, H>(alloc, company, hall, numbered, turn) {
        Ok(came) => Ok(did || came),
        Err(stop) => Err(stop),
    }
}

/// Does what the parent asks for, hears each worker, and lets in who has come. It answers whether the
/// work is over.
fn round<F: Commands, U: Link<F>, H: Hall<F>>(
    alloc: Global,
    parent: &mut U,
    ear: &mut Ear,
    core: &mut ForemanCore,
    company: &mut Company<F, H::Way>,
    hall: &mut H,
    numbered: &mut u32,
    pace: &mut Pace,
) -> Result<bool, Stop>
    requires works { IsAtHall F.gives F.may_fail U.tells H.Way.tells
        (seen_of H.Way.history H.Way.is_closed H.Way.count H.Way.idle_count) H.Way.honest (H.got
        hall.old) numbered.old (way_of U.history U.is_closed U.count parent.old) ear.old core.old
        company.old }
    requires listens { H.listens hall.old }
    ensures goes { (trusted : Bool) (cap : ℕ) (book : Book H.Way) → (trusted ≡ true → H.honest
        hall.old) → Works F.gives F.may_fail U.tells trusted H.Way.tells
        (seen_of H.Way.history H.Way.is_closed H.Way.count H.Way.idle_count) H.Way.honest cap
        (with_hall book (H.got hall.old) numbered.old) (way_of U.history U.is_closed U.count
        parent.old) ear.old core.old company.old [] [] false → Goes result (Works F.gives F.may_fail
        U.tells trusted H.Way.tells
        (seen_of H.Way.history H.Way.is_closed H.Way.count H.Way.idle_count) H.Way.honest cap
        (with_hall book (H.got hall.new) numbered.new) (way_of U.history U.is_closed U.count
        parent.new) ear.new core.new company.new [] []) (StopsAt F.gives F.may_fail U.tells trusted
        H.Way.tells (seen_of H.Way.history H.Way.is_closed H.Way.count H.Way.idle_count) cap
        (with_hall book (H.got hall.new) numbered.new) (way_of U.history U.is_closed U.count
        parent.new) company.new) }
    ensures hosts { HostsBy (H.count hall.old) (H.count hall.new) (H.got hall.old)
        (H.got hall.new) (H.given hall.old) (H.given hall.new) (length company.old)
        (length company.new) result }
    ensures counted { numbered.new + H.given hall.old ≡ numbered.old + H.given hall.new }
    ensures listens { H.listens hall.new }
    ensures honest { H.honest hall.old → H.honest hall.new }
{
    let turn = pace.is_turn();
    if let Err(stop) = push_on::<F, U, H::Way>(parent, turn) {
        return Err(stop);
    }
    let look = match attend_some(alloc, parent, ear, core, company, turn) {
        Ok(look) => look,
        Err(stop) => return Err(stop),
    };
    let busy = match look {
        Look::Over => return Ok(true),
        Look::Message => true,
        Look::Bytes => true,
        Look::Nothing => false,
    };
    match host(alloc, parent, core, company, hall, numbered, turn) {
        Ok(did) => {
            pace.note(busy || did);
            Ok(false)
        }
        Err(stop) => Err(stop),
    }
}

/// Makes rounds until the work is over, or until it can't go on.
pub(crate) fn serve<W: Wait, F: Commands, U: Link<F>, H: Hall<F>>(
    rt: &W,
    alloc: Global,
    parent: &mut U,
    ear: &mut Ear,
    core: &mut ForemanCore,
    company: &mut Company<F, H::Way>,
    hall: &mut H,
) -> Stop
    requires works { IsAtHall F.gives F.may_fail U.tells H.Way.tells
        (seen_of H.Way.history H.Way.is_closed H.Way.count H.Way.idle_count) H.Way.honest (H.got
        hall.old) 0 (way_of U.history U.is_closed U.count parent.old) ear.old core.old company.old }
    requires listens { H.listens hall.old }
    ensures stops { (trusted : Bool) (cap : ℕ) (book : Book H.Way) → (trusted ≡ true → H.honest
        hall.old) → Works F.gives F.may_fail U.tells trusted H.Way.tells
        (seen_of H.Way.history H.Way.is_closed H.Way.count H.Way.idle_count) H.Way.honest cap
        (with_hall book (H.got hall.old) 0) (way_of U.history U.is_closed U.count parent.old)
        ear.old core.old company.old [] [] false → StopsOver F.gives F.may_fail U.tells trusted
        H.Way.tells (seen_of H.Way.history H.Way.is_closed H.Way.count H.Way.idle_count) cap book
        (H.got hall.new) (H.given hall.old) (H.given hall.new) (way_of U.history U.is_closed U.count
        parent.new) company.new result }
    ensures hosts { HostsTill (H.count hall.old) (H.count hall.new) (H.got hall.old)
        (H.got hall.new) (H.given hall.old) (H.given hall.new) (length company.old)
        (length company.new) result }
{
    let mut pace = Pace::new();
    let mut numbered = 0;
    for _ in rt.forever() {
        match round(
            alloc,
            parent,
            ear,
            core,
            company,
            hall,
            &mut numbered,
            &mut pace,
        ) {
            Ok(true) => return Stop::Left(Halt::Bye),
            Ok(false) => pace.pass(hall.rest(pace.rest())),
            Err(stop) => return stop,
        }
    }
    unreachable!()
}
