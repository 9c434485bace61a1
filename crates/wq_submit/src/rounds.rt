//! How a queue waits: in rounds, until a task came to its end.
ghost use Rattle.std.specs.Prelude.{◌≡◌, ◌≤◌, ◌<◌, [], None, Some, IfNone, IfSome, OnOk, Ok, false, length, map, true};
ghost use Rattle.std.specs.List.{AllByRecursion};
ghost use Rattle.flow_types.specs.declared.numbers.Amounts.{Amounts as AmountsValue};
ghost use Rattle.task_book.specs.Kept.{Kept as KeptValue, is_end, place_ended};
ghost use Rattle.wq_submit.specs.declared.cause.QueueCame.TheVariants as came;
ghost use Rattle.wq_submit.specs.Queues.{AreIdle, Gives, Goes, IsAfter, IsAnswered, IsEmptyExactly, IsHallFault, IsIdleThen, IsStaffed, IsTrusted, IsUnder, UnlessMemory};
ghost use Rattle.wq_company.specs.Companies.{AreSureOf, AreWithin};
ghost use Rattle.wq_company.specs.Rounds.{IsIdleHall, IsMet, MeetsAs, UnlessWanting};
ghost use Rattle.wq_seats.specs.Works.{IsSameWork, work_of};
ghost use Rattle.wq_seats.specs.Shown.{EndsRight, ShowsEnds};
ghost use Rattle.wq_seats.specs.Turns.{was_idle};

use crate::cause::{QueueCame, WaitFault};
use crate::queue::Queue;
use flow_types::Memory;
use links::{Hall, Link};
use outside::Commands;
use std::sync::Wait;
use task_book::Ready;
use wq_company::{Stop, meet, part};
use wq_seats::{Look, Turn};

/// Each link and the hall are asked whether somebody is there once in so many milliseconds, and
/// else where they have news.
const TURN: u64 = 1_000;

/// The most milliseconds that it waits at once.
const REST: u64 = 250;

/// So many links are kept, those that are gone too, before these are handed back within a call.
const MOST_KEPT: usize = 64;

/// How many milliseconds it has waited since each link was asked.
#[derive(Drop)]
struct Pace {
    millis: u64,
}

impl Pace {
    // Whether it is time to ask each link and the hall; then the milliseconds are counted anew.
    fn is_turn(&mut self) -> bool {
        if self.millis < TURN {
            return false;
        }
        self.millis = 0;
        true
    }

    fn note(&mut self, millis: u64) {
        self.millis = self.millis.saturating_add(millis);
    }
}

// Waits until a link or the hall has news, where none was found in the last look.
fn pause<F: Commands, H: Hall<F>>(hall: &mut H, pace: &mut Pace, came: bool)
    ensures { hall.new ≡ hall.old }
{
    let millis = hall.rest(if came { 0 } else { REST });
    pace.note(millis);
}

impl<F: Commands, H: Hall<F>> Queue<F, H> {
    // Hands the links that are gone back to the hall.
    fn part(&mut self, hall: &mut H)
        ensures listens { H.listens hall.old → H.listens hall.new }
        ensures honest { H.honest hall.old → H.honest hall.new }
        ensures faults { H.count hall.new ≡ H.count hall.old }
        ensures idles { H.idle_count hall.new ≡ H.idle_count hall.old }
        ensures kept { self.new.kept ≡ self.old.kept }
        ensures files { self.new.files ≡ self.old.files }
        ensures trusted { IsTrusted H.Way.tells F.gives F.may_fail H.Way.honest self.old
            → IsTrusted H.Way.tells F.gives F.may_fail H.Way.honest self.new }
        ensures staffed { (least : AmountsValue)
            → IsStaffed H.Way.sure H.Way.offers H.manned H.staffed least hall.old self.old
            → IsStaffed H.Way.sure H.Way.offers H.manned H.staffed least hall.new self.new }
    {
        part::<F, H>(&mut self.company, self.alloc, hall);
    }

    // The next call goes on with these milliseconds since each link was asked.
    fn keep_pace(&mut self, millis: u64)
        ensures { self.new ≡ self.old }
    {
        self.millis = if millis < TURN { millis } else { 0 };
    }

    // A round begins so many milliseconds after each link was asked. Where as many links are kept as
    // may, those that are gone are handed back.
    fn make_room(&mut self, hall: &mut H, millis: u64)
        ensures listens { H.listens hall.old → H.listens hall.new }
        ensures honest { H.honest hall.old → H.honest hall.new }
        ensures faults { H.count hall.new ≡ H.count hall.old }
        ensures idles { H.idle_count hall.new ≡ H.idle_count hall.old }
        ensures kept { self.new.kept ≡ self.old.kept }
        ensures files { self.new.files ≡ self.old.files }
        ensures trusted { IsTrusted H.Way.tells F.gives F.may_fail H.Way.honest self.old
            → IsTrusted H.Way.tells F.gives F.may_fail H.Way.honest self.new }
        ensures staffed { (least : AmountsValue)
            → IsStaffed H.Way.sure H.Way.offers H.manned H.staffed least hall.old self.old
            → IsStaffed H.Way.sure H.Way.offers H.manned H.staffed least hall.new self.new }
    {
        self.keep_pace(millis);
        if self.company.count() >= MOST_KEPT {
            self.part(hall);
        }
    }

    // Gives the task with the least id that came to its end, where there is one.
    fn give(&mut self) -> Option<Ready>
        ensures none { IfNone result ((place_ended self.old.kept.held ≡ None)
            × (self.new ≡ self.old)) }
        ensures given { IfSome result (λ ready. Gives self.old.kept self.new.kept ready) }
        ensures ways { self.new.ways ≡ self.old.ways }
        ensures live { self.new.live ≡ self.old.live }
        ensures files { self.new.files ≡ self.old.files }
        ensures trusted { IsTrusted H.Way.tells F.gives F.may_fail H.Way.honest self.old
            → IsTrusted H.Way.tells F.gives F.may_fail H.Way.honest self.new }
        ensures tasks { (least : AmountsValue) → AreWithin least (map work_of self.old.kept.held)
            → AreWithin least (map work_of self.new.kept.held) }
    {
        self.book.give()
    }

    // Whether no task is held.
    fn is_empty(&self) -> bool
        ensures empty { result ≡ true → self.now.kept.held ≡ [] }
        ensures held { result ≡ false → self.now.kept.held ≡ [] → ⊥ }
    {
        self.book.count() == 0
    }

    // Sends what is owed, places each waiting task that fits a peer, and reads each link once.
    fn work(&mut self, turn: Turn) -> Result<Look, Memory>
        ensures work { IsSameWork self.old.kept self.new.kept }
        ensures shows { H.Way.tells → ShowsEnds H.Way.history self.old.kept.held
            self.new.kept.held self.new.ways }
        ensures right { H.Way.tells → AllByRecursion H.Way.honest self.old.ways
            → EndsRight F.gives F.may_fail self.old.files self.old.kept.held self.new.kept.held }
        ensures links { AllByRecursion H.Way.honest self.old.ways
            → AllByRecursion H.Way.honest self.new.ways }
        ensures files { self.new.files ≡ self.old.files }
        ensures idle { was_idle result ≡ true
            → AllByRecursion (λ way. 0 < H.Way.idle_count way) self.new.live }
        ensures staffed { (least : AmountsValue)
            → AreSureOf H.Way.sure H.Way.offers least self.old.live → OnOk result
            (AreSureOf H.Way.sure H.Way.offers least self.new.live
            × (length self.new.live ≡ length self.old.live)) }
        ensures manned { (least : AmountsValue)
            → AreSureOf H.Way.sure H.Way.offers least self.old.live
            → AreWithin least (map work_of self.old.kept.held) → 0 < length self.old.live
            → was_idle result ≡ true
            → AllByRecursion (λ h. is_end h.stage ≡ true) self.new.kept.held }
    {
        if self
            .company
            .tell_all(self.alloc, &self.files, &mut self.book)
            .is_err()
        {
            return Err(Memory);
        }
        if self
            .company
            .place_all(self.alloc, &self.files, &mut self.book, self.least)
            .is_err()
        {
            return Err(Memory);
        }
        self.company.read_all(self.alloc, &mut self.book, turn)
    }

    // Asks the hall once.
    fn meet(&mut self, hall: &mut H, is_due: bool) -> Result<Look, Stop>
        requires listens { H.listens hall.old }
        ensures listens { H.listens hall.new }
        ensures kept { self.new.kept ≡ self.old.kept }
        ensures files { self.new.files ≡ self.old.files }
        ensures shows { (k : KeptValue) → ShowsEnds H.Way.history k.held self.old.kept.held
            self.old.ways → ShowsEnds H.Way.history k.held self.new.kept.held self.new.ways }
        ensures trusted { H.honest hall.old
            → IsTrusted H.Way.tells F.gives F.may_fail H.Way.honest self.old
            → IsTrusted H.Way.tells F.gives F.may_fail H.Way.honest self.new × H.honest hall.new }
        ensures cause { MeetsAs (H.count hall.old) (H.count hall.new) result }
        ensures later { H.idle_count hall.old ≤ H.idle_count hall.new }
        ensures idle { was_idle result ≡ true → (self.new.live ≡ self.old.live)
            × IsIdleHall (H.idle_count hall.old) (H.idle_count hall.new) self.old.live }
        ensures staffed { (least : AmountsValue)
            → IsStaffed H.Way.sure H.Way.offers H.manned H.staffed least hall.old self.old
            → UnlessWanting result
            (IsStaffed H.Way.sure H.Way.offers H.manned H.staffed least hall.new self.new) }
        ensures manned { (least : AmountsValue)
            → IsMet H.manned H.staffed least hall.old self.old.live
            → was_idle result ≡ true → 0 < length self.old.live }
    {
        meet::<F, H>(&mut self.company, self.alloc, hall, is_due)
    }

    // One round. It tells whether anything came, and whether the hall and every live link were idle.
    fn round(&mut self, hall: &mut H, is_due: bool) -> Result<Look, Stop>
        requires listens { H.listens hall.old }
        ensures listens { H.listens hall.new }
        ensures work { IsSameWork self.old.kept self.new.kept }
        ensures shows { H.Way.tells → ShowsEnds H.Way.history self.old.kept.held
            self.new.kept.held self.new.ways }
        ensures trusted { H.honest hall.old
            → IsTrusted H.Way.tells F.gives F.may_fail H.Way.honest self.old
            → IsTrusted H.Way.tells F.gives F.may_fail H.Way.honest self.new × H.honest hall.new }
        ensures files { self.new.files ≡ self.old.files }
        ensures cause { MeetsAs (H.count hall.old) (H.count hall.new) result }
        ensures later { H.idle_count hall.old ≤ H.idle_count hall.new }
        ensures idle { was_idle result ≡ true → AreIdle H.Way.idle_count
            (H.idle_count hall.old) (H.idle_count hall.new) self.new.live }
        ensures staffed { (least : AmountsValue)
            → IsStaffed H.Way.sure H.Way.offers H.manned H.staffed least hall.old self.old
            → UnlessWanting result
            (IsStaffed H.Way.sure H.Way.offers H.manned H.staffed least hall.new self.new) }
        ensures manned { (least : AmountsValue)
            → IsStaffed H.Way.sure H.Way.offers H.manned H.staffed least hall.old self.old
            → was_idle result ≡ true
            → AllByRecursion (λ h. is_end h.stage ≡ true) self.new.kept.held }
    {
        let turn = Turn {
            is_due,
            limit: self.limit,
        };
        let read = match self.work(turn) {
            Ok(read) => read,
            Err(_) => return Err(Stop::Memory),
        };
        match self.meet(hall, is_due) {
            Ok(met) => Ok(read.with(met)),
            Err(stop) => Err(stop),
        }
    }

    // Gives what came to its end, where something did, or tells that nothing is held.
    fn at_once(&mut self) -> Option<QueueCame>
        ensures none { IfNone result (IsUnder self.new.kept self.new.kept
            × (self.new ≡ self.old)) }
        ensures goes { IfSome result (λ found. Goes H.Way.tells F.gives F.may_fail H.Way.history
            (IsTrusted H.Way.tells F.gives F.may_fail H.Way.honest self.old)
            self.old self.new (Ok found)) }
        ensures empty { IfSome result (λ found. IsEmptyExactly self.old.kept (Ok found)) }
        ensures busy { IfSome result (λ found. found ≡ came.Idle → ⊥) }
        ensures files { self.new.files ≡ self.old.files }
        ensures trusted { IsTrusted H.Way.tells F.gives F.may_fail H.Way.honest self.old
            → IsTrusted H.Way.tells F.gives F.may_fail H.Way.honest self.new }
        ensures live { self.new.live ≡ self.old.live }
        ensures tasks { (least : AmountsValue) → AreWithin least (map work_of self.old.kept.held)
            → AreWithin least (map work_of self.new.kept.held) }
    {
        if self.is_empty() {
            return Some(QueueCame::Empty);
        }
        match self.give() {
            Some(ready) => Some(QueueCame::Got(ready)),
            None => None,
        }
    }

    // What a round came to: a task that came to its end, or that all were idle.
    fn after(&mut self, look: Look) -> Option<QueueCame>
        ensures none { IfNone result ((place_ended self.old.kept.held ≡ None)
            × (self.new ≡ self.old)) }
        ensures goes { IfSome result (λ found. IsAfter self.old self.new found) }
        ensures idle { IfSome result (λ found. found ≡ came.Idle → look.was_idle ≡ true) }
        ensures trusted { IsTrusted H.Way.tells F.gives F.may_fail H.Way.honest self.old
            → IsTrusted H.Way.tells F.gives F.may_fail H.Way.honest self.new }
        ensures live { self.new.live ≡ self.old.live }
        ensures tasks { (least : AmountsValue) → AreWithin least (map work_of self.old.kept.held)
            → AreWithin least (map work_of self.new.kept.held) }
        ensures late { result ≡ Some came.Idle → place_ended self.old.kept.held ≡ None }
    {
        if let Some(ready) = self.give() {
            return Some(QueueCame::Got(ready));
        }
        if look.was_idle {
            return Some(QueueCame::Idle);
        }
        None
    }

    // One round, and what it came to; None where the call goes on.
    fn step(
        &mut self,
        hall: &mut H,
        pace: &mut Pace,
        before: u64,
    ) -> Option<Result<QueueCame, WaitFault>>
        requires listens { H.listens hall.old }
        requires low { before ≤ H.count hall.old }
        ensures listens { H.listens hall.new }
        ensures none { IsUnder self.old.kept self.old.kept
            → IfNone result (IsUnder self.old.kept self.new.kept) }
        ensures goes { IfSome result (Goes H.Way.tells F.gives F.may_fail H.Way.history
            (H.honest hall.old × IsTrusted H.Way.tells F.gives F.may_fail H.Way.honest self.old)
            self.old self.new) }
        ensures held { IfSome result (λ answer. answer ≡ Ok came.Empty → ⊥) }
        ensures idle { IfSome result (IsIdleThen H.Way.idle_count
            (H.idle_count hall.old) (H.idle_count hall.new) self.new.live) }
        ensures files { self.new.files ≡ self.old.files }
        ensures trusted { H.honest hall.old
            → IsTrusted H.Way.tells F.gives F.may_fail H.Way.honest self.old
            → IsTrusted H.Way.tells F.gives F.may_fail H.Way.honest self.new × H.honest hall.new }
        ensures cause { IfSome result (IsHallFault before (H.count hall.new)) }
        ensures rises { H.count hall.old ≤ H.count hall.new }
        ensures later { H.idle_count hall.old ≤ H.idle_count hall.new }
        ensures staffed { (least : AmountsValue)
            → IsStaffed H.Way.sure H.Way.offers H.manned H.staffed least hall.old self.old
            → IfNone result
            (IsStaffed H.Way.sure H.Way.offers H.manned H.staffed least hall.new self.new)
            × IfSome result (λ answer. UnlessMemory answer
            (IsStaffed H.Way.sure H.Way.offers H.manned H.staffed least hall.new self.new)) }
        ensures manned { (least : AmountsValue) → IsUnder self.old.kept self.old.kept
            → IsStaffed H.Way.sure H.Way.offers H.manned H.staffed least hall.old self.old
            → IfSome result (λ answer. answer ≡ Ok came.Idle → ⊥) }
    {
        let is_due = pace.is_turn();
        match self.round(hall, is_due) {
            Ok(look) => match self.after(look) {
                Some(came) => Some(Ok(came)),
                None => {
                    pause::<F, H>(hall, pace, look.came);
                    None
                }
            },
            Err(Stop::Memory) => Some(Err(WaitFault::Memory)),
            Err(Stop::Hall) => {
                let after = hall.faults();
                Some(Err(WaitFault::Hall { before, after }))
            }
        }
    }

    // Goes in rounds until a task came to its end, or all were idle.
    fn look<W: Wait>(&mut self, rt: &W, hall: &mut H) -> Result<QueueCame, WaitFault>
        requires listens { H.listens hall.old }
        requires under { IsUnder self.old.kept self.old.kept }
        ensures listens { H.listens hall.new }
        ensures goes { Goes H.Way.tells F.gives F.may_fail H.Way.history
            (H.honest hall.old × IsTrusted H.Way.tells F.gives F.may_fail H.Way.honest self.old)
            self.old self.new result }
        ensures held { result ≡ Ok came.Empty → ⊥ }
        ensures idle { IsIdleThen H.Way.idle_count (H.idle_count hall.old) (H.idle_count hall.new)
            self.new.live result }
        ensures files { self.new.files ≡ self.old.files }
        ensures trusted { H.honest hall.old
            → IsTrusted H.Way.tells F.gives F.may_fail H.Way.honest self.old
            → IsTrusted H.Way.tells F.gives F.may_fail H.Way.honest self.new × H.honest hall.new }
        ensures cause { IsHallFault (H.count hall.old) (H.count hall.new) result }
        ensures rises { H.count hall.old ≤ H.count hall.new }
        ensures later { H.idle_count hall.old ≤ H.idle_count hall.new }
        ensures staffed { (least : AmountsValue)
            → IsStaffed H.Way.sure H.Way.offers H.manned H.staffed least hall.old self.old
            → UnlessMemory result
            (IsStaffed H.Way.sure H.Way.offers H.manned H.staffed least hall.new self.new) }
        ensures manned { (least : AmountsValue)
            → IsStaffed H.Way.sure H.Way.offers H.manned H.staffed least hall.old self.old
            → result ≡ Ok came.Idle → ⊥ }
    {
        let before = hall.faults();
        let mut pace = Pace {
            millis: self.millis,
        };
        for _ in rt.forever() {
            self.make_room(hall, pace.millis);
            match self.step(hall, &mut pace, before) {
                Some(answer) => return answer,
                None => {}
            }
        }
        unreachable!()
    }

    /// Gives the task with the least id that came to its end, and waits for one where none has. It
    /// answers that nobody came and no worker told anything only after each of them was idle, and
    /// over a manned hall never. Links that were left before this call are handed back to the hall.
    pub fn wait<W: Wait>(&mut self, rt: &W, hall: &mut H) -> Result<QueueCame, WaitFault>
        requires listens { H.listens hall.old }
        ensures listens { H.listens hall.new }
        ensures goes { Goes H.Way.tells F.gives F.may_fail H.Way.history
            (H.honest hall.old × IsTrusted H.Way.tells F.gives F.may_fail H.Way.honest self.old)
            self.old self.new result }
        ensures empty { IsEmptyExactly self.old.kept result }
        ensures idle { IsIdleThen H.Way.idle_count (H.idle_count hall.old) (H.idle_count hall.new)
            self.new.live result }
        ensures files { self.new.files ≡ self.old.files }
        ensures trusted { H.honest hall.old
            → IsTrusted H.Way.tells F.gives F.may_fail H.Way.honest self.old
            → IsTrusted H.Way.tells F.gives F.may_fail H.Way.honest self.new × H.honest hall.new }
        ensures cause { IsHallFault (H.count hall.old) (H.count hall.new) result }
        ensures rises { H.count hall.old ≤ H.count hall.new }
        ensures later { H.idle_count hall.old ≤ H.idle_count hall.new }
        ensures staffed { (least : AmountsValue)
            → IsStaffed H.Way.sure H.Way.offers H.manned H.staffed least hall.old self.old
            → UnlessMemory result
            (IsStaffed H.Way.sure H.Way.offers H.manned H.staffed least hall.new self.new) }
        ensures manned { (least : AmountsValue)
            → IsStaffed H.Way.sure H.Way.offers H.manned H.staffed least hall.old self.old
            → result ≡ Ok came.Idle → ⊥ }
        ensures answers { (least : AmountsValue)
            → IsStaffed H.Way.sure H.Way.offers H.manned H.staffed least hall.old self.old
            → H.count hall.new ≡ H.count hall.old → IsAnswered result }
    {
        self.part(hall);
        match self.at_once() {
            Some(came) => Ok(came),
            None => self.look(rt, hall),
        }
    }

    // The next round in the pace of the last call.
    fn paced(&mut self, hall: &mut H) -> Option<Result<QueueCame, WaitFault>>
        requires listens { H.listens hall.old }
        ensures listens { H.listens hall.new }
        ensures none { IsUnder self.old.kept self.old.kept
            → IfNone result (IsUnder self.old.kept self.new.kept) }
        ensures goes { IfSome result (Goes H.Way.tells F.gives F.may_fail H.Way.history
            (H.honest hall.old × IsTrusted H.Way.tells F.gives F.may_fail H.Way.honest self.old)
            self.old self.new) }
        ensures held { IfSome result (λ answer. answer ≡ Ok came.Empty → ⊥) }
        ensures idle { IfSome result (IsIdleThen H.Way.idle_count
            (H.idle_count hall.old) (H.idle_count hall.new) self.new.live) }
        ensures files { self.new.files ≡ self.old.files }
        ensures trusted { H.honest hall.old
            → IsTrusted H.Way.tells F.gives F.may_fail H.Way.honest self.old
            → IsTrusted H.Way.tells F.gives F.may_fail H.Way.honest self.new × H.honest hall.new }
        ensures cause { IfSome result (IsHallFault (H.count hall.old) (H.count hall.new)) }
        ensures rises { H.count hall.old ≤ H.count hall.new }
        ensures later { H.idle_count hall.old ≤ H.idle_count hall.new }
        ensures staffed { (least : AmountsValue)
            → IsStaffed H.Way.sure H.Way.offers H.manned H.staffed least hall.old self.old
            → IfNone result
            (IsStaffed H.Way.sure H.Way.offers H.manned H.staffed least hall.new self.new)
            × IfSome result (λ answer. UnlessMemory answer
            (IsStaffed H.Way.sure H.Way.offers H.manned H.staffed least hall.new self.new)) }
        ensures manned { (least : AmountsValue) → IsUnder self.old.kept self.old.kept
            → IsStaffed H.Way.sure H.Way.offers H.manned H.staffed least hall.old self.old
            → IfSome result (λ answer. answer ≡ Ok came.Idle → ⊥) }
    {
        let mut pace = Pace {
            millis: self.millis,
        };
        let before = hall.faults();
        let answer = self.step(hall, &mut pace, before);
        self.millis = pace.millis;
        answer
    }

    /// As `wait`, but for one round: None where nothing came to its end in it and not all were idle.
    /// Then it has rested until a link or the hall had news or something else ended the hall's
    /// rests, no longer than a quarter of a second, and is to be called again.
    pub fn wait_once(&mut self, hall: &mut H) -> Option<Result<QueueCame, WaitFault>>
        requires listens { H.listens hall.old }
        ensures listens { H.listens hall.new }
        ensures goes { IfSome result (Goes H.Way.tells F.gives F.may_fail H.Way.history
            (H.honest hall.old × IsTrusted H.Way.tells F.gives F.may_fail H.Way.honest self.old)
            self.old self.new) }
        ensures none { IfNone result (IsUnder self.old.kept self.new.kept) }
        ensures empty { IfSome result (IsEmptyExactly self.old.kept) }
        ensures idle { IfSome result (IsIdleThen H.Way.idle_count
            (H.idle_count hall.old) (H.idle_count hall.new) self.new.live) }
        ensures files { self.new.files ≡ self.old.files }
        ensures trusted { H.honest hall.old
            → IsTrusted H.Way.tells F.gives F.may_fail H.Way.honest self.old
            → IsTrusted H.Way.tells F.gives F.may_fail H.Way.honest self.new × H.honest hall.new }
        ensures cause { IfSome result (IsHallFault (H.count hall.old) (H.count hall.new)) }
        ensures rises { H.count hall.old ≤ H.count hall.new }
        ensures later { H.idle_count hall.old ≤ H.idle_count hall.new }
        ensures staffed { (least : AmountsValue)
            → IsStaffed H.Way.sure H.Way.offers H.manned H.staffed least hall.old self.old
            → IfNone result
            (IsStaffed H.Way.sure H.Way.offers H.manned H.staffed least hall.new self.new)
            × IfSome result (λ answer. UnlessMemory answer
            (IsStaffed H.Way.sure H.Way.offers H.manned H.staffed least hall.new self.new)) }
        ensures answers { (least : AmountsValue)
            → IsStaffed H.Way.sure H.Way.offers H.manned H.staffed least hall.old self.old
            → H.count hall.new ≡ H.count hall.old → IfSome result IsAnswered }
    {
        self.part(hall);
        match self.at_once() {
            Some(came) => Some(Ok(came)),
            None => self.paced(hall),
        }
    }
}
