//! The steps on the table. Each names the seat that takes it.
ghost use Rattle.std.specs.Prelude.{◌≡◌, ◌+◌, ◌*◌, ◌^◌, ◌<◌, ◌≤◌, [], ◌∷◌, Option, Some, None};
ghost use Rattle.turns.specs.Turns.{taken, given, published, looked, copied, joined, compared};
ghost use Rattle.turns.specs.Turns.{HasTurn, IsTable, Later};

use crate::growing::Growing;
use crate::view::{Compare, Copies, Give, Held, Look, Meets, Place, Publish, Take, TurnTable};
use std::sync::Wait;
use std::sync::ledger::Ledger;

/// Waits for the turn, and takes the value out. It tells how many moves the value has made.
pub fn take<D: Growing, L: Ledger, W: Wait>(
    rt: &W,
    table: &TurnTable<D, L>,
    seat: &mut Place<D, L>,
) -> (Held<D, L>, u64)
    requires table { (seat.old.table_id ≡ table.now.shared.table_id)
        × IsTable table.now.shared.table_id }
    requires idle { (seat.old.me.1 ≡ [])
        × (seat.old.me.0.start ≡ Some table.now.shared.key.value) }
    ensures seat { (seat.new.table_id ≡ seat.old.table_id) × (seat.new.id ≡ seat.old.id) }
    ensures view { seat.new.me
        ≡ (taken D.done seat.old.me.0 result.0.value, (0, None) ∷ []) }
    ensures seen { (d : D) → seat.old.me.0.seen ≡ Some d → D.grows d result.0.value }
    ensures grew { D.grows table.now.shared.key.value result.0.value }
    ensures counted { result.0.book.total + D.moves table.now.shared.key.value
        ≡ D.moves result.0.value }
    ensures moves { result.1 ≡ D.moves result.0.value }
{
    for _ in rt.forever() {
        let found = table.shared.peek(0);
        if found % 2 == 0 && found < u64::MAX {
            if table
                .shared
                .compare_exchange::<Take<D, L>>(seat, 0, found, found + 1)
                == found
            {
                return (table.shared.exchange(seat, 0, None).unwrap(), found / 2);
            }
        } else {
            table.shared.park(rt, 0, (found % (1 << 32)) as u32);
        }
    }
    unreachable!()
}

/// Publishes how much is done, puts the value back, and gives the turn.
pub fn give<D: Growing, L: Ledger>(
    table: &TurnTable<D, L>,
    seat: &mut Place<D, L>,
    held: Held<D, L>,
    moves: u64,
    done: u64,
)
    requires table { (seat.old.table_id ≡ table.now.shared.table_id)
        × IsTable table.now.shared.table_id }
    requires slot { seat.old.me.1 ≡ (0, None) ∷ [] }
    requires turn { HasTurn D.grows D.done seat.old.me.0 held.value }
    requires counted { held.book.total + D.moves table.now.shared.key.value
        ≡ D.moves held.value }
    requires counts { (moves ≡ D.moves held.value) × (moves < 2 ^ 62)
        × (done ≡ D.done held.value) }
    ensures seat { (seat.new.table_id ≡ seat.old.table_id) × (seat.new.id ≡ seat.old.id) }
    ensures view { (found : D) → seat.old.me.0.turn ≡ Some found
        → seat.new.me
        ≡ (given D.moves (published seat.old.me.0 (D.done held.value)) found held.value, []) }
{
    table.shared.store::<Publish>(seat, 1, done);
    let _ = table.shared.exchange(seat, 0, Some(held));
    table.shared.store::<Give<D, L>>(seat, 0, 2 * moves);
    table.shared.wake_one(0);
}

/// How much is done. It waits for nobody.
pub fn look<D: Growing, L: Ledger>(table: &TurnTable<D, L>, seat: &mut Place<D, L>) -> u64
    requires { (seat.old.table_id ≡ table.now.shared.table_id)
        × IsTable table.now.shared.table_id }
    ensures seat { (seat.new.table_id ≡ seat.old.table_id) × (seat.new.id ≡ seat.old.id) }
    ensures view { seat.new.me ≡ (looked seat.old.me.0 result, seat.old.me.1) }
    ensures seen { (d : D) → seat.old.me.0.seen ≡ Some d → D.done d ≤ result }
    ensures told { seat.old.me.0.told ≤ result }
{
    table.shared.load::<Look<D>>(seat, 1)
}

/// A second seat, which has seen as much.
pub fn copy<D: Growing, L: Ledger>(table: &TurnTable<D, L>, seat: &mut Place<D, L>) -> Place<D, L>
    requires { (seat.old.table_id ≡ table.now.shared.table_id)
        × IsTable table.now.shared.table_id }
    ensures same { (seat.new.table_id ≡ seat.old.table_id) × (seat.new.id ≡ seat.old.id)
        × (seat.new.me ≡ seat.old.me) }
    ensures new { (result.table_id ≡ seat.old.table_id)
        × (result.me ≡ (copied seat.old.me.0, [])) }
{
    table.shared.split_seat::<Copies>(seat)
}

/// Takes another seat in. One of the two had seen what the other has.
pub fn meet<D: Growing, L: Ledger>(
    table: &TurnTable<D, L>,
    seat: &mut Place<D, L>,
    other: Place<D, L>,
)
    requires table { (seat.old.table_id ≡ table.now.shared.table_id)
        × (other.table_id ≡ table.now.shared.table_id) × IsTable table.now.shared.table_id }
    requires idle { other.me.1 ≡ [] }
    ensures seat { (seat.new.table_id ≡ seat.old.table_id) × (seat.new.id ≡ seat.old.id)
        × (seat.new.me.1 ≡ seat.old.me.1) }
    ensures view { (seen : Option D)
        × (seat.new.me.0 ≡ compared (joined seat.old.me.0 other.me.0) seen)
        × Later D.grows seat.old.me.0.seen other.me.0.seen seen }
{
    table.shared.join_seat::<Meets>(seat, other);
    table.shared.load::<Compare<D>>(seat, 0);
}
