//! What one thread knows of a shared value.
use crate::growing::Growing;
use crate::view::Place;
use std::marker::Model;
use std::sync::ledger::{Ledger, Share};

/// What one thread knows of the shared value. To a contract it is that: which value it is, the
/// whole value as the thread saw it last, the positions of the moves of its own turns, the most
/// that it was told to be done, and its parts of the ledger.
#[derive(Drop)]
pub struct Pass<D: Growing, L: Ledger> {
    pub(crate) seat: Place<D, L>,
    pub(crate) share: Share<L>,
}

impl<D: Growing, L: Ledger> Model for Pass<D, L> {
    ghost use Rattle.std.specs.Prelude.{◌≡◌, ◌<◌, [], length};
    ghost use Rattle.turns.specs.Turns.{Known, known};

    ghost Value = { Known D };

    ghost view = { λ p. known p.seat.table_id p.seat.me.0 p.share.parts };

    ghost invariant = { λ p. (p.seat.me.1 ≡ [])
        × (p.share.amount ≡ length p.seat.me.0.mine)
        × (0 < p.share.parts) };
}
