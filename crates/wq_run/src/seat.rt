//! A worker that joined, and the attempts that run there.
ghost use Rattle.std.specs.Prelude.{◌≡◌, ◌==◌, ◌∷◌, ◌++◌, [], IfErr, IfOk, IfSome, List, None};
ghost use Rattle.std.specs.Prelude.{◌<◌, Some, true};
ghost use Rattle.std.specs.List.{position};
ghost use Rattle.flow_types.specs.declared.numbers.AttemptNo.{AttemptNo as AttemptNoValue};
ghost use Rattle.flow_types.specs.Plans.{is_empty};
ghost use Rattle.desk.specs.declared.attempt.Attempt.{Attempt as AttemptValue};
ghost use Rattle.local_run.specs.Underway.{IsHeld};
ghost use Rattle.wq_run.specs.Seats.{seat_with};
ghost use Rattle.wq_run.specs.Trusted.{IsFair, IsHeard, IsMeant, IsTrusted, MayOpen};

mod asking;
mod closing;
mod hearing;
mod pulse;

use crate::reliance::Trust;
use desk::Attempt;
use flow_types::{AttemptNo, LinkNo};
use links::Link;
use outside::Commands;
use peers::Peer;
pub(crate) use pulse::Offer;
use pulse::Pulse;
use std::alloc::Global;
use std::marker::{Model, PhantomData};

/// A peer that joined, at its link, with the attempts that run there.
///
/// Where links are honest and nothing is in the way, each content that was put at the peer is that
/// of the serial run, and each task that was asked of it is that of its attempt.
pub(crate) struct Seat<F: Commands, L: Link<F>, T: Trust> {
    peer: Peer<F, L>,
    link: LinkNo,
    attempts: Vec<Attempt>,
    // The number of the newest attempt that was opened there.
    newest: Option<AttemptNo>,
    // Its link is to be kept, and no attempt waits to be asked for there.
    is_ready: bool,
    pulse: Pulse,
    of: PhantomData<T>,
}

impl<F: Commands, L: Link<F>, T: Trust> Model for Seat<F, L, T> {
    ghost use Rattle.std.specs.Prelude.{◌≡◌, true};
    ghost use Rattle.wq_run.specs.Seats.{SeatState};
    ghost use Rattle.wq_run.specs.Trusted.{IsFair, IsHeard, IsTrusted};

    ghost Value = { SeatState L };

    ghost view = { λ s. record {
      peer = s.peer;
      link = s.link;
      attempts = s.attempts.items;
      newest = s.newest;
    } };

    ghost invariant = { λ s. s.is_ready ≡ true → IsHeard T.holds L.tells
        → IsTrusted T.holds F.gives F.may_fail L.history (IsFair T.holds L.tells L.honest) T.plan T.run T.due (record {
          peer = s.peer;
          link = s.link;
          attempts = s.attempts.items;
          newest = s.newest;
        }) };
}

// Where the attempt of this number stands among these, if it does.
fn place(attempts: &[Attempt], number: AttemptNo) -> Option<usize>
    ensures { result ≡ position (λ a. a.number.0 == number.0) attempts.now }
{
    attempts
        .iter()
        .position(|attempt| attempt.number().0 == number.0)
}

impl<F: Commands, L: Link<F>, T: Trust> Seat<F, L, T> {
    /// A seat on which nothing runs, of a worker that joined with this offer.
    pub fn new(alloc: Global, peer: Peer<F, L>, link: LinkNo, offer: Offer) -> Seat<F, L, T>
        requires meant { IsMeant (IsHeard T.holds L.tells) F.gives F.may_fail L.history (IsFair T.holds L.tells L.honest) peer }
        ensures { result ≡ record { peer = peer; link = link; attempts = []; newest = None } }
    {
        Seat {
            peer,
            link,
            attempts: Vec::new(alloc),
            newest: None,
            is_ready: true,
            pulse: Pulse::new(offer),
            of: PhantomData,
        }
    }

    /// Whether nothing runs there.
    pub fn is_idle(&self) -> bool
        ensures { result ≡ is_empty self.now.attempts }
    {
        self.attempts.is_empty()
    }

    /// Whether nothing more is to be asked there now: what was said hasn't gone out, or the worker
    /// rests.
    pub fn is_barred(&self) -> bool {
        self.peer.behind() > 0 || self.pulse.is_resting(self.attempts.is_empty())
    }

    /// The number of its link.
    pub fn link(&self) -> LinkNo
        ensures { result ≡ self.now.link }
    {
        self.link
    }

    // Whether what the peer tells may be taken.
    fn is_ready(&self) -> bool
        ensures { result ≡ true → IsHeard T.holds L.tells → IsTrusted T.holds F.gives F.may_fail L.history (IsFair T.holds L.tells L.honest) T.plan
            T.run T.due self.now }
    {
        self.is_ready
    }

    // Whether no attempt of this number, nor of a later one, was opened there.
    fn is_new(&self, number: AttemptNo) -> bool
        ensures opens { result ≡ true → IsHeard T.holds L.tells → MayOpen T.holds F.gives F.may_fail L.history (IsFair T.holds L.tells L.honest) T.plan
            T.run T.due self.now number }
        ensures newest { result ≡ true → (newest : AttemptNoValue)
            → self.now.newest ≡ Some newest → newest.0 < number.0 }
    {
        if !self.is_ready {
            return false;
        }
        match self.newest {
            Some(newest) => newest.0 < number.0,
            None => true,
        }
    }

    // Takes the attempt of this number out, which runs there.
    fn take(&mut self, number: AttemptNo) -> Attempt
        requires held { IsHeld number self.old.attempts }
        ensures number { result.number ≡ number }
        ensures split { (front : List AttemptValue) × (back : List AttemptValue)
            × (self.old.attempts ≡ front ++ result ∷ back)
            × (self.new ≡ seat_with self.old (front ++ back)) }
    {
        let Some(at) = place(&self.attempts, number) else {
            unreachable!()
        };
        self.attempts.remove(at)
    }

    // One attempt more runs there, and waits to be asked for. Where memory is wanting it is given
    // back.
    fn hold(&mut self, attempt: Attempt) -> Result<(), Attempt>
        ensures held { IfOk result (λ _. self.new
            ≡ seat_with self.old (self.old.attempts ++ attempt ∷ [])) }
        ensures back { IfErr result (λ back. (back ≡ attempt) × (self.new ≡ self.old)) }
    {
        match self.attempts.push(attempt) {
            Ok(()) => {
                self.is_ready = false;
                Ok(())
            }
            Err(failed) => Err(failed.value),
        }
    }

    // Takes the last attempt out, if one runs there.
    fn pop(&mut self) -> Option<Attempt>
        ensures some { IfSome result (λ last. self.old
            ≡ seat_with self.new (self.new.attempts ++ last ∷ [])) }
        ensures none { result ≡ None → (self.old.attempts ≡ []) × (self.new ≡ self.old) }
    {
        self.attempts.pop()
    }

    /// Lets the peer go, once nothing runs there.
    pub fn into_peer(self) -> Peer<F, L>
        requires { self.attempts ≡ [] }
        ensures { result ≡ self.peer }
    {
        let Seat {
            peer,
            link: _,
            attempts,
            newest: _,
            is_ready: _,
            pulse: _,
            of: _,
        } = self;
        attempts.destroy_empty();
        peer
    }
}
