//! What a seat at the table knows, and the rule that ties the seats to the words and to the value.
//! Word 0 is twice the number of moves while the turn is free, and one more while it is held. Word
//! 1 is how much is done.
use crate::growing::Growing;
use atomic_table::{Join, Play, Seat, Split, Table, TableRule};
use std::alloc::Global;
use std::collections::LinkedList;
use std::marker::PhantomData;
use std::snapshot::Snapshot;
use std::sync::ledger::{Book, Ledger};

/// What a seat knows. No value of it is made.
pub struct View<D> {
    /// The value as it came. A view that was joined away has none.
    pub start: Option<D>,
    /// The value as the seat saw it last.
    pub seen: Option<D>,
    /// The value as a seat that was joined to this one saw it last, until the two are compared.
    pub met: Option<D>,
    /// The positions of the moves of the seat's turns.
    pub mine: LinkedList<u64>,
    /// The value as it was found, while the seat has the turn.
    pub turn: Option<D>,
    /// Word 1, while the seat has the turn.
    pub word: u64,
    /// The greatest number that was read from word 1.
    pub told: u64,
}

/// What lies in the slot. The book counts the moves since the value came.
#[derive(Drop)]
pub struct Held<D: Growing, L: Ledger> {
    pub value: D,
    pub book: Book<L>,
}

/// The value is at home or with the one seat that has the turn, and each seat knows what was.
pub struct Rule<D, L> {
    of: PhantomData<(D, L)>,
}

impl<D: Growing, L: Ledger> TableRule<Option<Held<D, L>>, View<D>, Snapshot<D>> for Rule<D, L> {
    ghost use Rattle.turns.specs.Turns.{Kept, newcomer};

    ghost holds = { λ key.
        Kept D.grows D.moves D.done (λ h. h.value) (λ h. h.book.total) key.value };

    ghost first = { λ key. newcomer key.value };
}

/// Word 0 goes from even to odd, and the seat has the value.
pub struct Take<D, L> {
    of: PhantomData<(D, L)>,
}

impl<D: Growing, L: Ledger> Play<Option<Held<D, L>>, View<D>> for Take<D, L> {
    ghost use Rattle.turns.specs.Turns.{Took};

    ghost then = { Took D.grows D.moves D.done (λ h. h.value) (λ h. h.book.total) };
}

/// Word 0 goes from odd to even, and the seat has seen what it made of the value.
pub struct Give<D, L> {
    of: PhantomData<(D, L)>,
}

impl<D: Growing, L: Ledger> Play<Option<Held<D, L>>, View<D>> for Give<D, L> {
    ghost use Rattle.turns.specs.Turns.{Gave};

    ghost then = { Gave D.moves (λ h. h.value) };
}

/// Word 1 is stored by the seat that has the turn.
pub struct Publish;

impl<D: Growing, L: Ledger> Play<Option<Held<D, L>>, View<D>> for Publish {
    ghost use Rattle.turns.specs.Turns.{Published};

    ghost then = { Published };
}

/// Word 1 is read.
pub struct Look<D> {
    of: PhantomData<D>,
}

impl<D: Growing, L: Ledger> Play<Option<Held<D, L>>, View<D>> for Look<D> {
    ghost use Rattle.turns.specs.Turns.{Looked};

    ghost then = { Looked D.done };
}

/// Word 0 is read after a join, and tells which of the two seats has seen more.
pub struct Compare<D> {
    of: PhantomData<D>,
}

impl<D: Growing, L: Ledger> Play<Option<Held<D, L>>, View<D>> for Compare<D> {
    ghost use Rattle.turns.specs.Turns.{Compared};

    ghost then = { Compared D.grows };
}

/// A second seat is made, which has seen as much and made no move.
pub struct Copies;

impl<D> Split<View<D>> for Copies {
    ghost use Rattle.turns.specs.Turns.{copied};

    ghost left = { λ v. v };

    ghost right = { copied };
}

/// A seat gives all that it knows to another.
pub struct Meets;

impl<D> Join<View<D>> for Meets {
    ghost use Rattle.turns.specs.Turns.{joined, spent};

    ghost both = { joined };

    ghost spent = { spent };
}

/// The words, and the slot in which the value lies.
pub type TurnTable<D, L> = Table<Option<Held<D, L>>, View<D>, Snapshot<D>, Rule<D, L>, Global>;

/// A seat at that table.
pub type Place<D, L> = Seat<Option<Held<D, L>>, View<D>>;
