//! The shared value.
ghost use Rattle.std.specs.Prelude.{◌≡◌, ℕ, ◌+◌, ◌-◌, ◌<◌, ◌≤◌, ◌^◌, [], Some};
ghost use Rattle.std.specs.Prelude.{IfOk, IfErr};
ghost use Rattle.std.specs.Fn.{CalledWithState, TakesWithState};
ghost use Rattle.turns.specs.Calls.{IsCounted, MayCall, Replies};
ghost use Rattle.turns.specs.declared.counted.Counted.{Counted};
ghost use Rattle.turns.specs.Turns.{In, Once, Turned, Knows, Joined};

use crate::counted::Counted;
use crate::growing::Growing;
use crate::pass::Pass;
use crate::turn;
use crate::view::{Held, TurnTable};
use atomic_table::{Refused as NoTable, Table};
use std::alloc::Global;
use std::marker::Model;
use std::snapshot::Snapshot;
use std::sync::Wait;
use std::sync::ledger::{Blank, Ledger};

/// A value that threads share by turns. To a contract it is which one it is, and the value as it
/// came. Its ledger counts the moves that were made since then.
#[derive(Drop)]
pub struct Turns<D: Growing, L: Ledger> {
    table: TurnTable<D, L>,
}

impl<D: Growing, L: Ledger> Model for Turns<D, L> {
    ghost use Rattle.std.specs.Prelude.{Some};
    ghost use Rattle.turns.specs.Turns.{Stand, IsTable};

    ghost Value = { Stand D };

    ghost view = { λ t. record {
      id = t.table.shared.table_id;
      start = Some t.table.shared.key.value;
    } };

    ghost invariant = { λ t. IsTable t.table.shared.table_id };
}

/// Memory was wanting, and the value comes back.
#[derive(Drop)]
pub struct TurnsRefused<D: Growing> {
    pub value: D,
}

// A call of a closure at the value and at what is given.
fn call_with<D, A, R, C: FnMut(&mut D, A) -> Counted<R>>(
    call: &mut C,
    value: &mut D,
    given: A,
) -> Counted<R>
    requires { TakesWithState C.FnMut call.old value.old given }
    ensures { CalledWithState C.FnMut call.old value.old given result call.new value.new }
{
    call(value, given)
}

impl<D: Growing, L: Ledger> Turns<D, L> {
    /// Shares the value, and gives the first pass, which has all parts of the ledger. The caller
    /// counts the value's moves, fewer than 2^62, and how much of its work is done. It is refused
    /// where memory is wanting.
    pub fn new(
        alloc: Global,
        blank: Blank,
        value: D,
        moves: u64,
        done: u64,
    ) -> Result<(Turns<D, L>, Pass<D, L>), TurnsRefused<D>>
        requires counts { (moves ≡ D.moves value) × (moves < 2 ^ 62) × (done ≡ D.done value) }
        requires ledger { (blank.name ≡ L.name) × (blank.parts ≡ L.parts) }
        requires parts { 0 < L.parts }
        ensures ok { IfOk result (λ r. (r.0.start ≡ Some value)
            × (r.1 ≡ record {
              of = r.0;
              seen = Some value;
              mine = [];
              told = 0;
              parts = L.parts;
            })) }
        ensures err { IfErr result (λ e. e.value ≡ value) }
    {
        let about = Snapshot::of(&value);
        let words = [2 * moves, done];
        let (book, share) = blank.open::<L>();
        let mut slots = Vec::new(alloc);
        if let Err(failed) = slots.push(Some(Held { value, book })) {
            let Some(held) = failed.value else {
                unreachable!()
            };
            return Err(TurnsRefused { value: held.value });
        }
        match Table::new(alloc, &words, slots, &about) {
            Ok((table, seat)) => Ok((Turns { table }, Pass { seat, share })),
            Err(NoTable { slots: mut back }) => {
                let Some(Some(held)) = back.pop() else {
                    unreachable!()
                };
                Err(TurnsRefused { value: held.value })
            }
        }
    }

    /// Makes another pass, which has seen what `from` has and gets one of its parts.
    pub fn pass(&self, from: &mut Pass<D, L>) -> Pass<D, L>
        requires of { from.old.of ≡ self.now }
        requires parts { 1 < from.old.parts }
        ensures from { from.new ≡ record from.old { parts = from.old.parts - 1 } }
        ensures new { result ≡ record from.old { mine = []; parts = 1 } }
    {
        let seat = turn::copy(&self.table, &mut from.seat);
        let share = from.share.split_off(1, 0);
        Pass { seat, share }
    }

    /// Takes a pass in. One of the two had seen what the other has.
    pub fn meet(&self, into: &mut Pass<D, L>, other: Pass<D, L>)
        requires { (into.old.of ≡ self.now) × (other.of ≡ self.now) }
        ensures joined { Joined D.grows into.old other into.new }
    {
        let Pass { seat, share } = other;
        turn::meet(&self.table, &mut into.seat, seat);
        into.share.merge(share);
    }

    /// Takes a turn: waits for it, makes the call on the value and what is given, and gives the
    /// turn. The call may rely on what the pass knows, and answers the counts of what it leaves.
    pub fn turn<W: Wait, A, R, C: FnOnce(&mut D, A) -> Counted<R>>(
        &self,
        rt: &W,
        pass: &mut Pass<D, L>,
        given: A,
        call: C,
    ) -> R
        requires of { pass.old.of ≡ self.now }
        requires callable { (found : D) → Knows D.grows pass.old found
            → MayCall C.FnOnce call found given }
        requires counted { (found after : D) (reply : Counted R) → Knows D.grows pass.old found
            → Replies C.FnOnce call found given reply after
            → IsCounted D.grows D.moves D.done found after reply.moves reply.done }
        ensures turned { (found : D) × (after : D) × (reply : Counted R)
            × Turned D.grows D.moves pass.old found after pass.new
            × Replies C.FnOnce call found given reply after × (reply.reply ≡ result) }
    {
        let (held, before) = turn::take(rt, &self.table, &mut pass.seat);
        let Held {
            mut value,
            mut book,
        } = held;
        let Counted { reply, moves, done } = call(&mut value, given);
        book.add(&mut pass.share, moves - before);
        let held = Held { value, book };
        turn::give(&self.table, &mut pass.seat, held, moves, done);
        reply
    }

    /// Takes a turn as `turn` does, for a call that keeps what it borrows. What it leaves there is
    /// known then.
    pub fn turn_mut<W: Wait, A, R, C: FnMut(&mut D, A) -> Counted<R>>(
        &self,
        rt: &W,
        pass: &mut Pass<D, L>,
        given: A,
        call: &mut C,
    ) -> R
        requires of { pass.old.of ≡ self.now }
        requires callable { (found : D) → Knows D.grows pass.old found
            → TakesWithState C.FnMut call.old found given }
        requires counted { (found after : D) (reply : Counted R) (left : C)
            → Knows D.grows pass.old found
            → CalledWithState C.FnMut call.old found given reply left after
            → IsCounted D.grows D.moves D.done found after reply.moves reply.done }
        ensures turned { (found : D) × (after : D) × (reply : Counted R)
            × Turned D.grows D.moves pass.old found after pass.new
            × CalledWithState C.FnMut call.old found given reply call.new after
            × (reply.reply ≡ result) }
    {
        let (held, before) = turn::take(rt, &self.table, &mut pass.seat);
        let Held {
            mut value,
            mut book,
        } = held;
        let Counted { reply, moves, done } = call_with(call, &mut value, given);
        book.add(&mut pass.share, moves - before);
        let held = Held { value, book };
        turn::give(&self.table, &mut pass.seat, held, moves, done);
        reply
    }

    /// How much is done. It waits for nobody and takes no memory.
    pub fn progress(&self, pass: &mut Pass<D, L>) -> u64
        requires { pass.old.of ≡ self.now }
        ensures seen { (d : D) → pass.old.seen ≡ Some d → D.done d ≤ result }
        ensures told { pass.old.told ≤ result }
        ensures pass { pass.new ≡ record pass.old { told = result } }
    {
        turn::look(&self.table, &mut pass.seat)
    }

    /// Takes the turn and gives the value up. Where the pass has all parts of the ledger, each move
    /// since the value came is of one of its own turns, or of those of a pass that it met.
    pub fn close<W: Wait>(self, rt: &W, pass: Pass<D, L>) -> D
        requires { pass.of ≡ self }
        ensures knows { Knows D.grows pass result }
        ensures told { pass.told ≤ D.done result }
        ensures once { Once pass.mine }
        ensures within { (d : D) → self.start ≡ Some d → (p : ℕ) → In p pass.mine
            → (D.moves d ≤ p) × (p < D.moves result) }
        ensures all { pass.parts ≡ L.parts → (d : D) → self.start ≡ Some d
            → (p : ℕ) → D.moves d ≤ p → p < D.moves result → In p pass.mine }
    {
        let Turns { table } = self;
        let Pass {
            mut seat,
            mut share,
        } = pass;
        let (Held { value, mut book }, _) = turn::take(rt, &table, &mut seat);
        book.audit(&mut share);
        let mut closed = table.close_with(seat);
        let _ = closed.take(0);
        closed.free();
        value
    }
}
