//! When a peer is left, and what it is sent on.
ghost use Rattle.std.specs.Prelude.{◌≡◌, ◌<◌, ℕ, List, IfOk, OnOk, true};
ghost use Rattle.links.specs.Honesty.{OwesNothing};
ghost use Rattle.links.specs.Passings.{received_in, sent_in};
ghost use Rattle.peers.specs.States.{GoesOn, OnlyMemory};
ghost use Rattle.task_book.specs.declared.task.Held.{Held as HeldValue};
ghost use Rattle.wq_seats.specs.Seats.{IsAtWork};
ghost use Rattle.peer_health.specs.Healths.{IsRested};

use super::{Look, Seat};
use links::Link;
use outside::Commands;
use peers::{Leave, Listened, sure_links_are_orderly};
use std::alloc::Global;

/// Whether a second has gone by since each link had its turn, and for how many seconds a peer may
/// be silent while a task runs there, or take nothing of what it was sent.
#[derive(Clone, Copy)]
pub struct Turn {
    /// A second has gone by.
    pub is_due: bool,
    /// For how many seconds a peer may be silent.
    pub limit: u64,
}

impl<F: Commands, L: Link<F>> Seat<F, L> {
    // A second has gone by.
    fn beat(&mut self)
        ensures only { self.new ≡ record self.old { health = self.new.health } }
        ensures rested { IsRested self.old.health → IsRested self.new.health }
    {
        self.quiet.beat();
        self.silent = self.silent.saturating_add(1);
        self.health.beat();
    }

    // Says a word that the peer passes over.
    fn probe(&mut self, alloc: Global) -> Result<(), Leave>
        ensures gone { self.new.gone ≡ self.old.gone }
        ensures works { (files : List (List ℕ)) (held : List HeldValue) (next : ℕ) → L.tells
            → IsAtWork F.gives F.may_fail L.history files held next self.old
            → OnOk result (IsAtWork F.gives F.may_fail L.history files held next
            self.new) }
        ensures on { GoesOn L.honest L.sure L.offers self.old.peer.way self.new.peer.way }
        ensures only { self.new ≡ record self.old { peer = self.new.peer } }
        ensures calm { L.sure self.old.peer.way → OnlyMemory result }
    {
        self.quiet.say();
        self.peer.probe(alloc)
    }

    // Sends on what was said. It fails where the peer took no byte for so many seconds.
    fn flush(&mut self, limit: u64) -> Result<(), Leave>
        ensures gone { self.new.gone ≡ self.old.gone }
        ensures works { (files : List (List ℕ)) (held : List HeldValue) (next : ℕ) → L.tells
            → IsAtWork F.gives F.may_fail L.history files held next self.old
            → OnOk result (IsAtWork F.gives F.may_fail L.history files held next
            self.new) }
        ensures on { GoesOn L.honest L.sure L.offers self.old.peer.way self.new.peer.way }
        ensures only { self.new ≡ record self.old { peer = self.new.peer } }
        ensures calm { L.sure self.old.peer.way → OnlyMemory result }
    {
        self.peer.flush(limit)
    }

    // A second has gone by: what was said goes on, and where something runs and nothing was said
    // for a minute a word is said that the peer passes over.
    fn tend(&mut self, alloc: Global, limit: u64) -> Result<(), Leave>
        ensures gone { self.new.gone ≡ self.old.gone }
        ensures works { (files : List (List ℕ)) (held : List HeldValue) (next : ℕ) → L.tells
            → IsAtWork F.gives F.may_fail L.history files held next self.old
            → OnOk result (IsAtWork F.gives F.may_fail L.history files held next
            self.new) }
        ensures on { GoesOn L.honest L.sure L.offers self.old.peer.way self.new.peer.way }
        ensures only { self.new ≡ record self.old {
          peer = self.new.peer;
          health = self.new.health;
        } }
        ensures calm { L.sure self.old.peer.way → OnlyMemory result }
    {
        self.beat();
        match self.flush(limit) {
            Ok(()) => {}
            Err(leave) => return Err(leave),
        }
        if self.quiet.is_long() && !self.runs.is_empty() {
            return self.probe(alloc);
        }
        Ok(())
    }

    // The bytes that are there, if there are some or it has its turn.
    fn listen(&mut self, alloc: Global, is_due: bool) -> Result<Look, Leave>
        ensures gone { self.new.gone ≡ self.old.gone }
        ensures works { (files : List (List ℕ)) (held : List HeldValue) (next : ℕ) → L.tells
            → IsAtWork F.gives F.may_fail L.history files held next self.old
            → OnOk result (IsAtWork F.gives F.may_fail L.history files held next
            self.new) }
        ensures idle { IfOk result (λ look. look.was_idle ≡ true
            → 0 < L.idle_count self.new.peer.way) }
        ensures on { GoesOn L.honest L.sure L.offers self.old.peer.way self.new.peer.way }
        ensures only { self.new ≡ record self.old { peer = self.new.peer } }
        ensures calm { L.sure self.old.peer.way → OnlyMemory result }
        ensures owes { L.tells → L.sure self.old.peer.way → IfOk result (λ look.
            look.was_idle ≡ true → OwesNothing (sent_in (L.history self.new.peer.way))
            (received_in (L.history self.new.peer.way))) }
    {
        if !self.peer.ready() && !is_due {
            return Ok(Look {
                came: false,
                was_idle: false,
            });
        }
        match self.peer.listen(alloc) {
            Ok(Listened::Piece) => {
                self.silent = 0;
                Ok(Look {
                    came: true,
                    was_idle: false,
                })
            }
            Ok(Listened::Idle(_)) => Ok(Look {
                came: false,
                was_idle: true,
            }),
            Err(leave) => Err(leave),
        }
    }

    // What it has its turn for, and the bytes that are there.
    fn serve(&mut self, alloc: Global, turn: Turn) -> Result<Look, Leave>
        ensures gone { self.new.gone ≡ self.old.gone }
        ensures works { (files : List (List ℕ)) (held : List HeldValue) (next : ℕ) → L.tells
            → IsAtWork F.gives F.may_fail L.history files held next self.old
            → OnOk result (IsAtWork F.gives F.may_fail L.history files held next
            self.new) }
        ensures idle { IfOk result (λ look. look.was_idle ≡ true
            → 0 < L.idle_count self.new.peer.way) }
        ensures on { GoesOn L.honest L.sure L.offers self.old.peer.way self.new.peer.way }
        ensures only { self.new ≡ record self.old {
          peer = self.new.peer;
          health = self.new.health;
        } }
        ensures calm { L.sure self.old.peer.way → OnlyMemory result }
        ensures owes { L.tells → L.sure self.old.peer.way → IfOk result (λ look.
            look.was_idle ≡ true → OwesNothing (sent_in (L.history self.new.peer.way))
            (received_in (L.history self.new.peer.way))) }
    {
        if !turn.is_due {
            return self.listen(alloc, false);
        }
        match self.tend(alloc, turn.limit) {
            Ok(()) => self.listen(alloc, true),
            Err(leave) => Err(leave),
        }
    }

    /// As `serve`, unless what came can't begin with a hello; and of a peer of which more may be there
    /// to be heard nothing is read.
    pub(super) fn attend(&mut self, alloc: Global, turn: Turn) -> Result<Look, Leave>
        ensures gone { self.new.gone ≡ self.old.gone }
        ensures works { (files : List (List ℕ)) (held : List HeldValue) (next : ℕ) → L.tells
            → IsAtWork F.gives F.may_fail L.history files held next self.old
            → OnOk result (IsAtWork F.gives F.may_fail L.history files held next
            self.new) }
        ensures idle { IfOk result (λ look. look.was_idle ≡ true
            → 0 < L.idle_count self.new.peer.way) }
        ensures on { GoesOn L.honest L.sure L.offers self.old.peer.way self.new.peer.way }
        ensures only { self.new ≡ record self.old {
          peer = self.new.peer;
          health = self.new.health;
        } }
        ensures calm { (files : List (List ℕ)) (held : List HeldValue) (next : ℕ) → L.tells
            → IsAtWork F.gives F.may_fail L.history files held next self.old
            → L.sure self.old.peer.way → OnlyMemory result }
        ensures owes { L.tells → L.sure self.old.peer.way → IfOk result (λ look.
            look.was_idle ≡ true → OwesNothing (sent_in (L.history self.new.peer.way))
            (received_in (L.history self.new.peer.way))) }
    {
        sure_links_are_orderly::<F, L>();
        if self.peer.is_stranger() {
            return Err(Leave::Unexpected);
        }
        if self.is_full {
            return Ok(Look {
                came: true,
                was_idle: false,
            });
        }
        self.serve(alloc, turn)
    }
}
