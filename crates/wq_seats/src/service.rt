//! What a queue does for one peer in a round: it is told what it is owed, given a task, and read.
//! Where that fails the peer is gone.
ghost use Rattle.std.specs.Prelude.{◌≡◌, ◌<◌, ◌+◌, ◌-◌, true, false, [], List, ℕ, IfSome, OnOk, slice_get};
ghost use Rattle.flow_types.specs.declared.numbers.Amounts.{Amounts as AmountsValue};
ghost use Rattle.task_book.specs.declared.task.Submission.{Submission as SubmissionValue};
ghost use Rattle.task_book.specs.Stages.{EndsOn, Runs};
ghost use Rattle.wq_seats.specs.Works.{IsKnown, GoesOnAs};
ghost use Rattle.wq_seats.specs.Turns.{BeginsRun, IsQuiet, IsRead, IsReady, IsServed, IsSureAt, StaysSureAt, was_idle};
ghost use Rattle.wq_seats.specs.Shown.{EndsRight};
ghost use Rattle.wq_seats.specs.Seats.{KeepsRuns};

use crate::seat::{Look, Seat, Turn};
use flow_types::{AttemptNo, Memory};
use links::Link;
use outside::Commands;
use peers::{Leave, honest_links_were_honest, sure_links_are_orderly};
use std::alloc::Global;
use task_book::{Book, Files};

// That a peer was left for this, where that is want of memory.
fn left_for(leave: Leave) -> Result<(), Memory>
    ensures { OnOk result (leave ≡ Leave.Memory → ⊥) }
{
    match leave {
        Leave::Memory => Err(Memory),
        _ => Ok(()),
    }
}

/// Tells a peer what it is owed, unless it is gone. Where that fails it is gone.
pub fn tell_seat<F: Commands, L: Link<F>>(
    seat: &mut Seat<F, L>,
    alloc: Global,
    files: &Files,
    book: &mut Book,
) -> Result<(), Memory>
    ensures goes { GoesOnAs book.old book.new }
    ensures ends { EndsOn book.old.held book.new.held }
    ensures served { (next : ℕ) → L.tells
        → IsServed F.gives F.may_fail L.history files.now book.old.held next seat.old
        → IsServed F.gives F.may_fail L.history files.now book.new.held next seat.new }
    ensures honest { L.honest seat.old.peer.way → L.honest seat.new.peer.way }
    ensures keeps { KeepsRuns book.old.held book.new.held seat.old seat.new }
    ensures calm { (next : ℕ) (least : AmountsValue) → (L.tells
        → IsServed F.gives F.may_fail L.history files.now book.old.held next seat.old)
        → IsSureAt L.sure L.offers least seat.old
        → OnOk result (StaysSureAt L.sure L.offers least seat.old seat.new) }
{
    honest_links_were_honest::<F, L>();
    sure_links_are_orderly::<F, L>();
    if seat.is_gone() {
        return Ok(());
    }
    match seat.tell(alloc, files, book) {
        Ok(()) => Ok(()),
        Err(leave) => {
            seat.leave(book);
            left_for(leave)
        }
    }
}

/// Begins the task at a place of the book, which runs with this attempt, at a peer. Where that fails
/// the peer is gone, and the task waits again.
pub fn begin_seat<F: Commands, L: Link<F>>(
    seat: &mut Seat<F, L>,
    alloc: Global,
    files: &Files,
    book: &mut Book,
    at: usize,
    attempt: AttemptNo,
    bytes: u64,
) -> Result<(), Memory>
    ensures goes { GoesOnAs book.old book.new }
    ensures ends { EndsOn book.old.held book.new.held }
    ensures served { L.tells → IfSome (slice_get book.old.held at) (λ h. (s : SubmissionValue)
        → Runs book.old.held attempt s → s ≡ h.task)
        → IsServed F.gives F.may_fail L.history files.now book.old.held attempt.0 seat.old
        → IsServed F.gives F.may_fail L.history files.now book.new.held (1 + attempt.0) seat.new }
    ensures honest { L.honest seat.old.peer.way → L.honest seat.new.peer.way }
    ensures keeps { BeginsRun (slice_get book.old.held at) attempt book.old.held book.new.held
        seat.old seat.new }
    ensures calm { (least : AmountsValue)
        → IfSome (slice_get book.old.held at) (λ h. IsKnown files.now h.task)
        → (L.tells
        → IsServed F.gives F.may_fail L.history files.now book.old.held attempt.0 seat.old)
        → IsSureAt L.sure L.offers least seat.old
        → OnOk result (StaysSureAt L.sure L.offers least seat.old seat.new) }
    ensures busy { OnOk result (IfSome (slice_get book.old.held at) (λ h. seat.new.gone ≡ false
        → seat.new.runs ≡ [] → ⊥)) }
{
    honest_links_were_honest::<F, L>();
    sure_links_are_orderly::<F, L>();
    let Some(held) = book.task(at) else {
        return Ok(());
    };
    let id = held.id;
    if seat.is_gone() {
        let _ = book.wait_again(id, attempt);
        return Ok(());
    }
    match seat.begin(alloc, files, id, &held.task, attempt, bytes) {
        Ok(()) => Ok(()),
        Err(leave) => {
            seat.leave(book);
            let _ = book.wait_again(id, attempt);
            left_for(leave)
        }
    }
}

/// Reads a peer once, unless it is gone. Where it is to be left it is gone.
pub fn read_seat<F: Commands, L: Link<F>>(
    seat: &mut Seat<F, L>,
    alloc: Global,
    book: &mut Book,
    turn: Turn,
) -> Result<Look, Memory>
    ensures goes { GoesOnAs book.old book.new }
    ensures reads { (files : List (List ℕ)) (next : ℕ) → L.tells
        → IsServed F.gives F.may_fail L.history files book.old.held next seat.old
        → IsRead F.gives F.may_fail L.history files book.old.held book.new.held next seat.new }
    ensures right { (files : List (List ℕ)) (next : ℕ) → L.tells → L.honest seat.old.peer.way
        → IsServed F.gives F.may_fail L.history files book.old.held next seat.old
        → EndsRight F.gives F.may_fail files book.old.held book.new.held }
    ensures honest { L.honest seat.old.peer.way → L.honest seat.new.peer.way }
    ensures quiet { was_idle result ≡ true → IsQuiet L.idle_count seat.new }
    ensures keeps { KeepsRuns book.old.held book.new.held seat.old seat.new }
    ensures calm { (files : List (List ℕ)) (next : ℕ) (least : AmountsValue) → (L.tells
        → IsServed F.gives F.may_fail L.history files book.old.held next seat.old)
        → IsSureAt L.sure L.offers least seat.old
        → OnOk result (StaysSureAt L.sure L.offers least seat.old seat.new) }
    ensures ready { (files : List (List ℕ)) (next : ℕ) (least : AmountsValue) → (L.tells
        → IsServed F.gives F.may_fail L.history files book.old.held next seat.old)
        → IsSureAt L.sure L.offers least seat.old → was_idle result ≡ true
        → (seat.old.gone ≡ false → IsReady least seat.old) × (book.new ≡ book.old) }
{
    honest_links_were_honest::<F, L>();
    sure_links_are_orderly::<F, L>();
    if seat.is_gone() {
        return Ok(Look {
            came: false,
            was_idle: true,
        });
    }
    match seat.read(alloc, book, turn) {
        Ok(look) => Ok(look),
        Err(leave) => {
            seat.leave(book);
            match left_for(leave) {
                Ok(()) => Ok(Look {
                    came: true,
                    was_idle: false,
                }),
                Err(_) => Err(Memory),
            }
        }
    }
}
