//! The peers of a queue.
ghost use Rattle.std.specs.Prelude.{◌≡◌, ◌≤◌, ◌<◌, ◌+◌, ◌-◌, ◌^◌, true, false, ◌⊎◌, ◌++◌, ◌∷◌, [], List, ℕ, None, IfNone, IfOk, IfSome, OnOk, length, map, position, slice_get};
ghost use Rattle.std.specs.List.{AllByRecursion};
ghost use Rattle.flow_types.specs.declared.numbers.Amounts.{Amounts as AmountsValue};
ghost use Rattle.flow_types.specs.Plans.{most_input_bytes};
ghost use Rattle.links.specs.Halls.{IsFresh};
ghost use Rattle.task_book.specs.declared.task.Held.{Held as HeldValue};
ghost use Rattle.task_book.specs.declared.task.Submission.{Submission as SubmissionValue};
ghost use Rattle.task_book.specs.Lines.{NoneBefore, is_waiting};
ghost use Rattle.task_book.specs.Stages.{EndsOn, Runs};
ghost use Rattle.wq_company.specs.Companies.{AreKnown, AreWithin, RunBefore, AreReady, AreRun, AreRunBut, AreServed, AreSure, StaySure, gone_of, live_of, ways_of};
ghost use Rattle.wq_company.specs.Rounds.{NothingPlaced, ReadsAt};
ghost use Rattle.wq_seats.specs.Works.{IsKnown, IsSameWork, IsWithin, work_of, GoesOnAs};
ghost use Rattle.wq_seats.specs.Turns.{IsQuiet, IsReady, was_idle};
ghost use Rattle.wq_seats.specs.Shown.{EndsRight, ShowsEnds};
ghost use Rattle.wq_seats.specs.Seats.{SeatState};

use crate::least::Refused;
use flow_types::{AttemptNo, Memory, Needs};
use links::Link;
use outside::Commands;
use std::alloc::Global;
use std::marker::Model;
use task_book::{Book, Files};
use wq_seats::{Look, Seat, Turn, begin_seat, read_seat, tell_seat};

/// The peers in the order in which they came, those that are gone too, and the number of the next
/// attempt.
#[derive(Drop)]
pub struct Company<F: Commands, L: Link<F>> {
    seats: Vec<Seat<F, L>>,
    next: u128,
}

impl<F: Commands, L: Link<F>> Model for Company<F, L> {
    ghost use Rattle.wq_company.specs.Companies.{CompanyState};

    ghost Value = { CompanyState L };

    ghost view = { λ c. record { seats = c.seats.items; next = c.next } };
}

/// Why a part of a round came to no end.
#[derive(Clone, Copy, PartialEq, Eq)]
pub enum Stop {
    /// The place where peers come failed.
    Hall,
    /// Want of memory.
    Memory,
}

// Tells the peer at a place what it is owed.
fn tell_at<F: Commands, L: Link<F>>(
    seats: &mut Vec<Seat<F, L>>,
    alloc: Global,
    files: &Files,
    book: &mut Book,
    at: usize,
) -> Result<(), Memory>
    requires { at < length seats.old.items }
    ensures goes { GoesOnAs book.old book.new }
    ensures ends { EndsOn book.old.held book.new.held }
    ensures served { (next : ℕ) → L.tells
        → AreServed F.gives F.may_fail L.history files.now book.old.held next seats.old.items
        → AreServed F.gives F.may_fail L.history files.now book.new.held next seats.new.items }
    ensures honest { AllByRecursion L.honest (ways_of seats.old.items)
        → AllByRecursion L.honest (ways_of seats.new.items) }
    ensures many { length seats.new.items ≡ length seats.old.items }
    ensures run { AreRun book.old.held seats.old.items → AreRun book.new.held seats.new.items }
    ensures calm { (next : ℕ) (least : AmountsValue) → (L.tells
        → AreServed F.gives F.may_fail L.history files.now book.old.held next seats.old.items)
        → AreSure L.sure L.offers least seats.old.items
        → OnOk result (StaySure L.sure L.offers least seats.old.items seats.new.items) }
{
    tell_seat(&mut seats[at], alloc, files, book)
}

// Tells each of these peers what it is owed.
fn tell_seats<F: Commands, L: Link<F>>(
    seats: &mut Vec<Seat<F, L>>,
    alloc: Global,
    files: &Files,
    book: &mut Book,
) -> Result<(), Memory>
    ensures goes { GoesOnAs book.old book.new }
    ensures ends { EndsOn book.old.held book.new.held }
    ensures served { (next : ℕ) → L.tells
        → AreServed F.gives F.may_fail L.history files.now book.old.held next seats.old.items
        → AreServed F.gives F.may_fail L.history files.now book.new.held next seats.new.items }
    ensures honest { AllByRecursion L.honest (ways_of seats.old.items)
        → AllByRecursion L.honest (ways_of seats.new.items) }
    ensures run { AreRun book.old.held seats.old.items → AreRun book.new.held seats.new.items }
    ensures calm { (next : ℕ) (least : AmountsValue) → (L.tells
        → AreServed F.gives F.may_fail L.history files.now book.old.held next seats.old.items)
        → AreSure L.sure L.offers least seats.old.items
        → OnOk result (StaySure L.sure L.offers least seats.old.items seats.new.items) }
{
    for at in 0..seats.len() {
        match tell_at(seats, alloc, files, book, at) {
            Ok(()) => {}
            Err(_) => return Err(Memory),
        }
    }
    Ok(())
}

// The same at the peer at a place.
fn begin_in<F: Commands, L: Link<F>>(
    seats: &mut Vec<Seat<F, L>>,
    alloc: Global,
    files: &Files,
    book: &mut Book,
    at: usize,
    place: usize,
    attempt: AttemptNo,
    bytes: u64,
) -> Result<(), Memory>
    requires { place < length seats.old.items }
    ensures goes { GoesOnAs book.old book.new }
    ensures ends { EndsOn book.old.held book.new.held }
    ensures served { L.tells → IfSome (slice_get book.old.held at) (λ h. (s : SubmissionValue)
        → Runs book.old.held attempt s → s ≡ h.task)
        → AreServed F.gives F.may_fail L.history files.now book.old.held attempt.0 seats.old.items
        → AreServed F.gives F.may_fail L.history files.now book.new.held (1 + attempt.0)
        seats.new.items }
    ensures honest { AllByRecursion L.honest (ways_of seats.old.items)
        → AllByRecursion L.honest (ways_of seats.new.items) }
    ensures run { AreRunBut (slice_get book.old.held at) attempt book.old.held seats.old.items
        → AreRun book.new.held seats.new.items }
    ensures calm { (least : AmountsValue)
        → IfSome (slice_get book.old.held at) (λ h. IsKnown files.now h.task)
        → (L.tells
        → AreServed F.gives F.may_fail L.history files.now book.old.held attempt.0 seats.old.items)
        → AreSure L.sure L.offers least seats.old.items
        → OnOk result (StaySure L.sure L.offers least seats.old.items seats.new.items) }
    ensures busy { (least : AmountsValue) → IfSome (slice_get book.old.held at) (λ h.
        IfSome (slice_get seats.old.items place) (λ s. s.gone ≡ false
        → gone_of seats.new.items ≡ gone_of seats.old.items
        → AreReady least seats.new.items → OnOk result ⊥)) }
{
    begin_seat(&mut seats[place], alloc, files, book, at, attempt, bytes)
}

// Reads the peer at a place.
fn read_at<F: Commands, L: Link<F>>(
    seats: &mut Vec<Seat<F, L>>,
    alloc: Global,
    book: &mut Book,
    at: usize,
    turn: Turn,
) -> Result<Look, Memory>
    requires { at < length seats.old.items }
    ensures goes { GoesOnAs book.old book.new }
    ensures reads { ReadsAt L.tells F.gives F.may_fail L.history L.honest L.idle_count at
        book.old.held book.new.held seats.old.items seats.new.items (was_idle result) }
    ensures calm { (files : List (List ℕ)) (next : ℕ) (least : AmountsValue) → (L.tells
        → AreServed F.gives F.may_fail L.history files book.old.held next seats.old.items)
        → AreSure L.sure L.offers least seats.old.items
        → OnOk result (StaySure L.sure L.offers least seats.old.items seats.new.items) }
    ensures ready { (files : List (List ℕ)) (next : ℕ) (least : AmountsValue) → (L.tells
        → AreServed F.gives F.may_fail L.history files book.old.held next seats.old.items)
        → AreSure L.sure L.offers least seats.old.items → was_idle result ≡ true
        → IfSome (slice_get seats.old.items at) (λ s. s.gone ≡ false → IsReady least s)
        × (book.new ≡ book.old) }
{
    read_seat(&mut seats[at], alloc, book, turn)
}

// Reads each of these peers once.
fn read_seats<F: Commands, L: Link<F>>(
    seats: &mut Vec<Seat<F, L>>,
    alloc: Global,
    book: &mut Book,
    turn: Turn,
) -> Result<Look, Memory>
    ensures goes { GoesOnAs book.old book.new }
    ensures served { (files : List (List ℕ)) (next : ℕ) → L.tells
        → AreServed F.gives F.may_fail L.history files book.old.held next seats.old.items
        → AreServed F.gives F.may_fail L.history files book.new.held next seats.new.items }
    ensures shows { (files : List (List ℕ)) (next : ℕ) → L.tells
        → AreServed F.gives F.may_fail L.history files book.old.held next seats.old.items
        → ShowsEnds L.history book.old.held book.new.held (ways_of seats.new.items) }
    ensures right { (files : List (List ℕ)) (next : ℕ) → L.tells
        → AllByRecursion L.honest (ways_of seats.old.items)
        → AreServed F.gives F.may_fail L.history files book.old.held next seats.old.items
        → EndsRight F.gives F.may_fail files book.old.held book.new.held }
    ensures honest { AllByRecursion L.honest (ways_of seats.old.items)
        → AllByRecursion L.honest (ways_of seats.new.items) }
    ensures quiet { was_idle result ≡ true
        → AllByRecursion (IsQuiet L.idle_count) seats.new.items }
    ensures run { AreRun book.old.held seats.old.items → AreRun book.new.held seats.new.items }
    ensures calm { (files : List (List ℕ)) (next : ℕ) (least : AmountsValue) → (L.tells
        → AreServed F.gives F.may_fail L.history files book.old.held next seats.old.items)
        → AreSure L.sure L.offers least seats.old.items
        → OnOk result (StaySure L.sure L.offers least seats.old.items seats.new.items) }
    ensures ready { (files : List (List ℕ)) (next : ℕ) (least : AmountsValue) → (L.tells
        → AreServed F.gives F.may_fail L.history files book.old.held next seats.old.items)
        → AreSure L.sure L.offers least seats.old.items → was_idle result ≡ true
        → AreReady least seats.old.items × (book.new ≡ book.old) }
{
    let mut look = Look {
        came: false,
        was_idle: true,
    };
    for at in 0..seats.len() {
        match read_at(seats, alloc, book, at, turn) {
            Ok(found) => look = look.with(found),
            Err(_) => return Err(Memory),
        }
    }
    Ok(look)
}

// So many peers live, with this one.
fn with_seat<F: Commands, L: Link<F>>(live: usize, seat: &Seat<F, L>) -> usize
    requires { live < 2 ^ 64 - 1 }
    ensures { result ≡ live + length (live_of (seat.now ∷ [])) }
{
    if seat.is_gone() { live } else { live + 1 }
}

// How many of these peers live.
fn live_in<F: Commands, L: Link<F>>(seats: &[Seat<F, L>]) -> usize
    ensures { result ≡ length (live_of seats.now) }
{
    let mut live = 0;
    for seat in seats {
        live = with_seat(live, seat);
    }
    live
}

// The attempt of this number.
fn attempt_of(next: u128) -> Option<AttemptNo>
    ensures { IfSome result (λ attempt. attempt.0 ≡ next) }
{
    match u64::try_from(next) {
        Ok(number) => Some(AttemptNo(number)),
        Err(_) => None,
    }
}

// Whether a task of these needs and so many bytes of inputs fits no peer, since that one didn't.
fn is_refused(refused: Option<Refused>, needs: Needs, bytes: u64) -> bool
    ensures { refused ≡ None → result ≡ false }
{
    match refused {
        Some(other) => other.covers(needs, bytes),
        None => false,
    }
}

// Where the first of these peers stands that is gone.
fn place_gone<F: Commands, L: Link<F>>(seats: &[Seat<F, L>]) -> Option<usize>
    ensures place { result ≡ position (λ (s : SeatState L). s.gone) seats.now }
    ensures within { IfSome result (λ at. at < length seats.now) }
{
    seats.iter().position(|seat| seat.is_gone())
}

// Where the first of these peers stands that a task fits.
fn place_in<F: Commands, L: Link<F>>(
    seats: &[Seat<F, L>],
    needs: Needs,
    bytes: u64,
) -> Option<usize>
    ensures within { IfSome result (λ place. place < length seats.now) }
    ensures live { IfSome result (λ place.
        IfSome (slice_get seats.now place) (λ s. s.gone ≡ false)) }
    ensures room { (least : AmountsValue) → AreSure L.sure L.offers least seats.now
        → AreReady least seats.now → IsWithin least needs → bytes ≤ most_input_bytes
        → IfNone result (length (live_of seats.now) ≡ 0) }
{
    let mut place = 0;
    for seat in seats {
        if seat.fits(needs, bytes) {
            return Some(place);
        }
        place += 1;
    }
    None
}

impl<F: Commands, L: Link<F>> Company<F, L> {
    /// Nobody has come, and no attempt was made.
    pub fn new(alloc: Global) -> Company<F, L>
        ensures { result ≡ record { seats = []; next = 0 } }
    {
        Company {
            seats: Vec::new(alloc),
            next: 0,
        }
    }

    /// How many peers there are, those that are gone too.
    pub fn count(&self) -> usize
        ensures { result ≡ length self.now.seats }
    {
        self.seats.len()
    }

    /// Whether nobody is there.
    pub(crate) fn is_empty(&self) -> bool
        ensures { result ≡ true → length self.now.seats ≡ 0 }
    {
        self.count() == 0
    }

    /// How many peers live.
    pub(crate) fn live(&self) -> usize
        ensures { result ≡ length (live_of self.now.seats) }
    {
        live_in(self.seats.as_slice())
    }

    /// Tells each peer what it is owed.
    pub fn tell_all(&mut self, alloc: Global, files: &Files, book: &mut Book) -> Result<(), Memory>
        ensures next { self.new.next ≡ self.old.next }
        ensures goes { GoesOnAs book.old book.new }
        ensures ends { EndsOn book.old.held book.new.held }
        ensures served { L.tells → AreServed F.gives F.may_fail L.history files.now book.old.held
            self.old.next self.old.seats → AreServed F.gives F.may_fail L.history files.now
            book.new.held self.new.next self.new.seats }
        ensures honest { AllByRecursion L.honest (ways_of self.old.seats)
            → AllByRecursion L.honest (ways_of self.new.seats) }
        ensures run { AreRun book.old.held self.old.seats → AreRun book.new.held self.new.seats }
        ensures calm { (least : AmountsValue) → (L.tells
            → AreServed F.gives F.may_fail L.history files.now book.old.held self.old.next
            self.old.seats) → AreSure L.sure L.offers least self.old.seats
            → OnOk result (StaySure L.sure L.offers least self.old.seats self.new.seats) }
    {
        tell_seats(&mut self.seats, alloc, files, book)
    }

    // Where the first peer stands that a task fits: its link is the least.
    fn place_for(&self, needs: Needs, bytes: u64) -> Option<usize>
        ensures within { IfSome result (λ place. place < length self.now.seats) }
        ensures live { IfSome result (λ place.
            IfSome (slice_get self.now.seats place) (λ s. s.gone ≡ false)) }
        ensures room { (least : AmountsValue) → AreSure L.sure L.offers least self.now.seats
            → AreReady least self.now.seats → IsWithin least needs → bytes ≤ most_input_bytes
            → IfNone result (length (live_of self.now.seats) ≡ 0) }
    {
        place_in(self.seats.as_slice(), needs, bytes)
    }

    // Begins the waiting task at a place of the book with the next attempt, at the peer at a place.
    fn begin_at(
        &mut self,
        alloc: Global,
        files: &Files,
        book: &mut Book,
        at: usize,
        place: usize,
        bytes: u64,
    ) -> Result<(), Memory>
        requires { place < length self.old.seats }
        ensures work { IsSameWork book.old book.new }
        ensures ends { EndsOn book.old.held book.new.held }
        ensures before { RunBefore self.old.next book.old.held
            → RunBefore self.new.next book.new.held }
        ensures served { L.tells → RunBefore self.old.next book.old.held
            → AreServed F.gives F.may_fail L.history files.now book.old.held
            self.old.next self.old.seats → AreServed F.gives F.may_fail L.history files.now
            book.new.held self.new.next self.new.seats }
        ensures honest { AllByRecursion L.honest (ways_of self.old.seats)
            → AllByRecursion L.honest (ways_of self.new.seats) }
        ensures run { RunBefore self.old.next book.old.held
            → AreRun book.old.held self.old.seats → AreRun book.new.held self.new.seats }
        ensures calm { (least : AmountsValue) → RunBefore self.old.next book.old.held
            → IfSome (slice_get book.old.held at) (λ h. IsKnown files.now h.task)
            → (L.tells
            → AreServed F.gives F.may_fail L.history files.now book.old.held self.old.next
            self.old.seats) → AreSure L.sure L.offers least self.old.seats
            → OnOk result (StaySure L.sure L.offers least self.old.seats self.new.seats) }
        ensures busy { (least : AmountsValue) → IfSome (slice_get book.old.held at) (λ h.
            IfSome (slice_get self.old.seats place) (λ s. s.gone ≡ false
            → gone_of self.new.seats ≡ gone_of self.old.seats
            → AreReady least self.new.seats → OnOk result ⊥)) }
    {
        let Some(attempt) = attempt_of(self.next) else {
            return Err(Memory);
        };
        self.next += 1;
        book.begin(at, attempt);
        begin_in(
            &mut self.seats,
            alloc,
            files,
            book,
            at,
            place,
            attempt,
            bytes,
        )
    }

    // Whether a task of these needs fits a peer, if it takes no bytes in.
    fn has_room(&self, needs: Needs) -> bool {
        self.place_for(needs, 0).is_some()
    }

    // Places the task at a place of the book, where it waits and fits a peer. It answers whether one
    // that waits may fit a peer still: one of the least needs of all does, or this one did.
    fn place_at(
        &mut self,
        alloc: Global,
        files: &Files,
        book: &mut Book,
        at: usize,
        least: Needs,
        refused: &mut Option<Refused>,
    ) -> Result<bool, Memory>
        ensures work { IsSameWork book.old book.new }
        ensures ends { EndsOn book.old.held book.new.held }
        ensures before { RunBefore self.old.next book.old.held
            → RunBefore self.new.next book.new.held }
        ensures served { L.tells → RunBefore self.old.next book.old.held
            → AreServed F.gives F.may_fail L.history files.now book.old.held
            self.old.next self.old.seats → AreServed F.gives F.may_fail L.history files.now
            book.new.held self.new.next self.new.seats }
        ensures honest { AllByRecursion L.honest (ways_of self.old.seats)
            → AllByRecursion L.honest (ways_of self.new.seats) }
        ensures run { RunBefore self.old.next book.old.held
            → AreRun book.old.held self.old.seats → AreRun book.new.held self.new.seats }
        ensures calm { (most : AmountsValue) → RunBefore self.old.next book.old.held
            → AreKnown files.now (map work_of book.old.held)
            → (L.tells
            → AreServed F.gives F.may_fail L.history files.now book.old.held self.old.next
            self.old.seats) → AreSure L.sure L.offers most self.old.seats
            → OnOk result (StaySure L.sure L.offers most self.old.seats self.new.seats) }
        ensures placed { (most : AmountsValue) → RunBefore self.old.next book.old.held
            → AreKnown files.now (map work_of book.old.held)
            → AreWithin most (map work_of book.old.held)
            → (L.tells
            → AreServed F.gives F.may_fail L.history files.now book.old.held self.old.next
            self.old.seats) → AreSure L.sure L.offers most self.old.seats
            → 0 < length (live_of self.new.seats) → AreReady most self.new.seats
            → IfOk result (NothingPlaced at book.old.held book.new.held self.old.seats
            self.new.seats refused.old refused.new) }
    {
        let Some(task) = book.waiting(at) else {
            return Ok(true);
        };
        let needs = task.needs;
        let bytes = files.bytes_of(task.inputs.as_slice());
        if is_refused(*refused, needs, bytes) {
            return Ok(true);
        }
        let Some(place) = self.place_for(needs, bytes) else {
            *refused = Some(Refused::new(needs, bytes));
            return Ok(self.has_room(least));
        };
        match self.begin_at(alloc, files, book, at, place, bytes) {
            Ok(()) => Ok(true),
            Err(_) => Err(Memory),
        }
    }

    /// Places each waiting task that fits a peer, on the one that came first. No task that waits
    /// needs less than the least.
    pub fn place_all(
        &mut self,
        alloc: Global,
        files: &Files,
        book: &mut Book,
        least: Needs,
    ) -> Result<(), Memory>
        ensures work { IsSameWork book.old book.new }
        ensures ends { EndsOn book.old.held book.new.held }
        ensures before { RunBefore self.old.next book.old.held
            → RunBefore self.new.next book.new.held }
        ensures served { L.tells → RunBefore self.old.next book.old.held
            → AreServed F.gives F.may_fail L.history files.now book.old.held
            self.old.next self.old.seats → AreServed F.gives F.may_fail L.history files.now
            book.new.held self.new.next self.new.seats }
        ensures honest { AllByRecursion L.honest (ways_of self.old.seats)
            → AllByRecursion L.honest (ways_of self.new.seats) }
        ensures run { RunBefore self.old.next book.old.held
            → AreRun book.old.held self.old.seats → AreRun book.new.held self.new.seats }
        ensures calm { (most : AmountsValue) → RunBefore self.old.next book.old.held
            → AreKnown files.now (map work_of book.old.held)
            → (L.tells
            → AreServed F.gives F.may_fail L.history files.now book.old.held self.old.next
            self.old.seats) → AreSure L.sure L.offers most self.old.seats
            → OnOk result (StaySure L.sure L.offers most self.old.seats self.new.seats) }
        ensures placed { (most : AmountsValue) → RunBefore self.old.next book.old.held
            → AreKnown files.now (map work_of book.old.held)
            → AreWithin most (map work_of book.old.held)
            → (L.tells
            → AreServed F.gives F.may_fail L.history files.now book.old.held self.old.next
            self.old.seats) → AreSure L.sure L.offers most self.old.seats
            → 0 < length (live_of self.new.seats) → AreReady most self.new.seats
            → OnOk result (NoneBefore is_waiting (length book.new.held) book.new.held) }
    {
        let from = book.first_waiting();
        let mut refused = None;
        for at in from..book.count() {
            match self.place_at(alloc, files, book, at, least, &mut refused) {
                Ok(true) => {}
                Ok(false) => return Ok(()),
                Err(_) => return Err(Memory),
            }
        }
        Ok(())
    }

    /// Reads each peer once. Whether all were idle is told by `was_idle`.
    pub fn read_all(&mut self, alloc: Global, book: &mut Book, turn: Turn) -> Result<Look, Memory>
        ensures next { self.new.next ≡ self.old.next }
        ensures goes { GoesOnAs book.old book.new }
        ensures served { (files : List (List ℕ)) → L.tells
            → AreServed F.gives F.may_fail L.history files book.old.held self.old.next
            self.old.seats → AreServed F.gives F.may_fail L.history files book.new.held
            self.new.next self.new.seats }
        ensures shows { (files : List (List ℕ)) → L.tells
            → AreServed F.gives F.may_fail L.history files book.old.held self.old.next
            self.old.seats
            → ShowsEnds L.history book.old.held book.new.held (ways_of self.new.seats) }
        ensures right { (files : List (List ℕ)) → L.tells
            → AllByRecursion L.honest (ways_of self.old.seats)
            → AreServed F.gives F.may_fail L.history files book.old.held self.old.next
            self.old.seats → EndsRight F.gives F.may_fail files book.old.held book.new.held }
        ensures honest { AllByRecursion L.honest (ways_of self.old.seats)
            → AllByRecursion L.honest (ways_of self.new.seats) }
        ensures quiet { was_idle result ≡ true
            → AllByRecursion (IsQuiet L.idle_count) self.new.seats }
        ensures run { AreRun book.old.held self.old.seats → AreRun book.new.held self.new.seats }
        ensures calm { (files : List (List ℕ)) (least : AmountsValue) → (L.tells
            → AreServed F.gives F.may_fail L.history files book.old.held self.old.next
            self.old.seats) → AreSure L.sure L.offers least self.old.seats
            → OnOk result (StaySure L.sure L.offers least self.old.seats self.new.seats) }
        ensures ready { (files : List (List ℕ)) (least : AmountsValue) → (L.tells
            → AreServed F.gives F.may_fail L.history files book.old.held self.old.next
            self.old.seats) → AreSure L.sure L.offers least self.old.seats
            → was_idle result ≡ true
            → AreReady least self.old.seats × (book.new ≡ book.old) }
    {
        read_seats(&mut self.seats, alloc, book, turn)
    }

    /// A peer comes over this link. Where memory is wanting the link is lost.
    pub(crate) fn let_in(&mut self, alloc: Global, way: L) -> Result<(), Memory>
        requires fresh { IsFresh L.history L.count L.idle_count L.is_closed way }
        ensures next { self.new.next ≡ self.old.next }
        ensures comes { (ways_of self.new.seats ≡ ways_of self.old.seats)
            ⊎ (ways_of self.new.seats ≡ ways_of self.old.seats ++ way ∷ []) }
        ensures served { (files : List (List ℕ)) (held : List HeldValue) → L.tells
            → AreServed F.gives F.may_fail L.history files held self.old.next self.old.seats
            → AreServed F.gives F.may_fail L.history files held self.new.next self.new.seats }
        ensures run { (held : List HeldValue) → AreRun held self.old.seats
            → AreRun held self.new.seats }
        ensures calm { OnOk result (live_of self.new.seats ≡ live_of self.old.seats ++ way ∷ []) }
    {
        let seat = match Seat::new(alloc, way) {
            Ok(seat) => seat,
            Err(_) => return Err(Memory),
        };
        match self.seats.push(seat) {
            Ok(()) => Ok(()),
            Err(_) => Err(Memory),
        }
    }

    /// Takes a peer that is gone out, if there is one.
    pub(crate) fn take_gone(&mut self) -> Option<Seat<F, L>>
        ensures next { self.new.next ≡ self.old.next }
        ensures links { AllByRecursion L.honest (ways_of self.old.seats)
            → AllByRecursion L.honest (ways_of self.new.seats) }
        ensures served { (files : List (List ℕ)) (held : List HeldValue) → L.tells
            → AreServed F.gives F.may_fail L.history files held self.old.next self.old.seats
            → AreServed F.gives F.may_fail L.history files held self.new.next self.new.seats }
        ensures run { (held : List HeldValue) → AreRun held self.old.seats
            → AreRun held self.new.seats }
        ensures live { live_of self.new.seats ≡ live_of self.old.seats }
    {
        let Some(at) = place_gone(self.seats.as_slice()) else {
            return None;
        };
        Some(self.seats.remove(at))
    }

    /// Takes the last peer out, if there is one.
    pub(crate) fn pop(&mut self) -> Option<Seat<F, L>>
        ensures some { IfSome result (λ seat. length self.old.seats
            ≡ length self.new.seats + 1) }
        ensures none { IfNone result (self.new ≡ self.old) }
    {
        self.seats.pop()
    }
}
