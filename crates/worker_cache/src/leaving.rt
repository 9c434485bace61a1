//! Rows that leave, the oldest first, to make room.
ghost use Rattle.std.specs.Prelude.{◌≡◌};
ghost use Rattle.worker_cache.specs.Caches.{bytes_of, make_room};
ghost use Rattle.worker_cache.specs.Tables.{Passes};

use crate::held::Held;
use flow_types::Key;
use indexmap::IndexMap;

// Whether a row stays where so many bytes are to leave, and how many are to leave behind it.
fn pass(held: &Held, excess: u128) -> (bool, u128)
    ensures { Passes excess held.now result.0 result.1 }
{
    if excess == 0 || held.pins > 0 {
        return (true, excess);
    }
    (
        false,
        excess.saturating_sub(held.content.as_slice().len() as u128),
    )
}

/// The bytes of the rows that stay where `excess` bytes are to leave of `total`. It passes the rows
/// up to the last that leaves.
pub(crate) fn bytes_left(rows: &IndexMap<Key, Held>, total: u128, excess: u128) -> u128
    requires { total ≡ bytes_of rows.now.entries }
    ensures { result ≡ bytes_of (make_room excess rows.now.entries) }
{
    let mut total = total;
    let mut left = excess;
    for (_, held) in rows.iter() {
        if left == 0 {
            return total;
        }
        let (stays, behind) = pass(held, left);
        if !stays {
            total = total.saturating_sub(held.content.as_slice().len() as u128);
        }
        left = behind;
    }
    total
}

/// Lets the oldest unpinned rows leave, as few as hold so many bytes together. It goes over the
/// rows once, and takes no memory.
pub(crate) fn let_go(rows: &mut IndexMap<Key, Held>, excess: u128)
    ensures { rows.new.entries ≡ make_room excess rows.old.entries }
{
    let mut left = excess;
    rows.retain(
        move |_key: &Key, held: &mut Held| -> bool
            ensures same { held.new ≡ held.old }
            ensures passes { Passes left.entry held.old result left.exit }
        {
            let (stays, behind) = pass(held, left);
            left = behind;
            stays
        },
    );
}
