//! The board.
ghost use Rattle.std.specs.Prelude.{◌≡◌, ◌-◌, ◌<◌, ◌≤◌, ℕ, [], length, Some, IfOk, IfErr};
ghost use Rattle.run_history.specs.Links.{records_of};
ghost use Rattle.run_history.specs.Storage.{complete_count};
ghost use Rattle.desk.specs.State.{DeskState};
ghost use Rattle.turns.specs.Turns.{In, Joined, Knows, Once};
ghost use Rattle.board.specs.Goes.{GoesOn};

mod claim;
mod close;
mod end;
mod links;

use crate::shared::Shared;
use desk::{Desk, Terms};
use outside::{Commands, Site};
use std::alloc::Global;
use std::marker::Model;
use std::sync::Wait;
use std::sync::ledger::{Blank, Ledger};
use task_core::Admission;
use turns::{Turns, TurnsRefused};

/// What one thread knows of the history: the desk as it saw it last, the positions of the moves
/// that its own calls made, the most rules that it was told to be complete, and its parts of the
/// ledger.
pub type Pass<F, S, T, A, L> = turns::Pass<Shared<F, S, T, A>, L>;

/// A desk that threads share. To a contract it is which board it is, and the desk as it came.
///
/// Each shared call waits for its turn. What it answers and makes of the desk is what the one-thread
/// desk does at one point of the one history, which goes on from what the pass has seen.
#[derive(Drop)]
pub struct Board<F: Commands, S: Site, T: Terms, A: Admission, L: Ledger> {
    turns: Turns<Shared<F, S, T, A>, L>,
}

impl<F: Commands, S: Site, T: Terms, A: Admission, L: Ledger> Model for Board<F, S, T, A, L> {
    ghost use Rattle.desk.specs.State.{DeskState};
    ghost use Rattle.turns.specs.Turns.{Stand};

    ghost Value = { Stand (DeskState S) };

    ghost view = { λ b. b.turns };
}

/// Memory was wanting, and the desk comes back.
#[derive(Drop)]
pub struct BoardRefused<F: Commands, S: Site, T: Terms, A: Admission> {
    pub desk: Desk<F, S, T, A>,
}

impl<F: Commands, S: Site, T: Terms, A: Admission, L: Ledger> Board<F, S, T, A, L> {
    /// Shares a desk, and gives the first pass, which has all parts of the ledger. It is refused
    /// where memory is wanting.
    pub fn new(
        alloc: Global,
        blank: Blank,
        desk: Desk<F, S, T, A>,
    ) -> Result<(Board<F, S, T, A, L>, Pass<F, S, T, A, L>), BoardRefused<F, S, T, A>>
        requires ledger { (blank.name ≡ L.name) × (blank.parts ≡ L.parts) }
        requires parts { 0 < L.parts }
        ensures ok { IfOk result (λ r. (r.0.start ≡ Some desk)
            × (r.1 ≡ record {
              of = r.0;
              seen = Some desk;
              mine = [];
              told = 0;
              parts = L.parts;
            })) }
        ensures err { IfErr result (λ e. e.desk ≡ desk) }
    {
        let moves = desk.moves_made();
        let done = desk.complete();
        match Turns::new(alloc, blank, Shared { desk }, moves, done) {
            Ok((turns, pass)) => Ok((Board { turns }, pass)),
            Err(TurnsRefused { value }) => {
                let Shared { desk } = value;
                Err(BoardRefused { desk })
            }
        }
    }

    /// Makes another pass, which has seen what `from` has and gets one of its parts. Condition:
    /// `from` has more than one.
    pub fn pass(&self, from: &mut Pass<F, S, T, A, L>) -> Pass<F, S, T, A, L>
        requires of { from.old.of ≡ self.now }
        requires parts { 1 < from.old.parts }
        ensures from { from.new ≡ record from.old { parts = from.old.parts - 1 } }
        ensures new { result ≡ record from.old { mine = []; parts = 1 } }
    {
        self.turns.pass(from)
    }

    /// Takes a pass in. One of the two had seen what the other has, and `into` has then seen the
    /// later.
    pub fn meet(&self, into: &mut Pass<F, S, T, A, L>, other: Pass<F, S, T, A, L>)
        requires of { (into.old.of ≡ self.now) × (other.of ≡ self.now) }
        ensures joined { Joined (GoesOn S.tells S.files S.may_leave S.moment S.images_since)
            into.old other into.new }
    {
        self.turns.meet(into, other);
    }

    /// How many rules are complete: no fewer than the pass has seen, nor than it was told before.
    /// It waits for nobody and takes no memory.
    pub fn progress(&self, pass: &mut Pass<F, S, T, A, L>) -> u64
        requires of { pass.old.of ≡ self.now }
        ensures seen { (d : DeskState S) → pass.old.seen ≡ Some d
            → complete_count d.plan (records_of d.moves) ≤ result }
        ensures told { pass.old.told ≤ result }
        ensures pass { pass.new ≡ record pass.old { told = result } }
    {
        self.turns.progress(pass)
    }

    /// Takes the turn and gives the desk up, which has gone on from what the pass has seen. Where
    /// the pass has all parts of the ledger, each move since the desk came is of one of its own
    /// calls, or of those of a pass that it met.
    pub fn close<W: Wait>(self, rt: &W, pass: Pass<F, S, T, A, L>) -> Desk<F, S, T, A>
        requires of { pass.of ≡ self }
        ensures knows { Knows (GoesOn S.tells S.files S.may_leave S.moment S.images_since) pass
            result }
        ensures told { pass.told ≤ complete_count result.plan (records_of result.moves) }
        ensures once { Once pass.mine }
        ensures within { (d : DeskState S) → self.start ≡ Some d → (p : ℕ) → In p pass.mine
            → (length d.moves ≤ p) × (p < length result.moves) }
        ensures all { pass.parts ≡ L.parts → (d : DeskState S) → self.start ≡ Some d
            → (p : ℕ) → length d.moves ≤ p → p < length result.moves → In p pass.mine }
    {
        let Board { turns } = self;
        let Shared { desk } = turns.close(rt, pass);
        desk
    }
}
