//! A peer of a queue.
ghost use Rattle.std.specs.Prelude.{◌≡◌, ◌≤◌, ◌==◌, ℕ, List, [], ◌∷◌, ◌++◌, IfOk, None, Some, false, position, true};
ghost use Rattle.flow_types.specs.declared.numbers.Amounts.{Amounts as AmountsValue};
ghost use Rattle.flow_types.specs.Plans.{most_input_bytes};
ghost use Rattle.links.specs.Halls.{IsFresh};
ghost use Rattle.resource_pack.specs.Occupancy.{no_tasks};
ghost use Rattle.task_book.specs.declared.task.Held.{Held as HeldValue};
ghost use Rattle.wq_seats.specs.Works.{IsWithin};
ghost use Rattle.wq_seats.specs.Turns.{IsReady};
ghost use Rattle.wq_seats.specs.Tellings.{id_of};
ghost use Rattle.peer_health.specs.Healths.{IsRested};
ghost use Rattle.wq_seats.specs.Seats.{IsAtWork, closed_runs};

mod asking;
mod reading;
mod tending;

use crate::copies::OWN_RUN;
use crate::run::{Again, Run};
use flow_types::{Amounts, AttemptNo, LinkNo, Memory, Needs};
use links::Link;
use outside::Commands;
use peer_health::{Health, Quiet};
use peers::Peer;
pub use reading::Look;
use resource_pack::{Occupied, Stated};
use std::alloc::Global;
use std::marker::Model;
use task_book::TaskId;
pub use tending::Turn;

/// The number that stands for a worker's link where it is asked what fits it: any but that of the
/// local place.
const AWAY: LinkNo = LinkNo(1);

/// The most tasks that run at a peer.
const MOST_RUNS: usize = 64;

/// A peer that came, what it offers once its hello has come, and what runs there. One that is gone
/// is kept, unread.
#[derive(Drop)]
pub struct Seat<F: Commands, L: Link<F>> {
    peer: Peer<F, L>,
    stated: Option<Stated>,
    runs: Vec<Run>,
    again: Option<Again>,
    gone: bool,
    // More of what came may be there to be heard.
    is_full: bool,
    // So many turns ago something was said.
    quiet: Quiet,
    // So many turns ago something came.
    silent: u64,
    health: Health,
}

// Where the first of these runs stands with the attempt.
fn place_of(runs: &[Run], attempt: AttemptNo) -> Option<usize>
    ensures { result ≡ position (λ r. r.attempt.0 == attempt.0) runs.now }
{
    runs.iter().position(|run| run.attempt.0 == attempt.0)
}

impl<F: Commands, L: Link<F>> Model for Seat<F, L> {
    ghost use Rattle.std.specs.Prelude.{◌≤◌, length};
    ghost use Rattle.wq_seats.specs.Seats.{SeatState};

    ghost Value = { SeatState L };

    ghost view = { λ s. record {
      peer = s.peer;
      stated = s.stated;
      runs = s.runs.items;
      again = s.again;
      health = s.health;
      gone = s.gone;
    } };

    ghost invariant = { λ s. length s.runs.items ≤ 64 };
}

impl<F: Commands, L: Link<F>> Seat<F, L> {
    /// A peer at this link, over which nothing has passed. Where memory is wanting the link is lost.
    pub fn new(alloc: Global, way: L) -> Result<Seat<F, L>, Memory>
        requires fresh { IsFresh L.history L.count L.idle_count L.is_closed way }
        ensures way { IfOk result (λ seat. seat.peer.way ≡ way) }
        ensures lives { IfOk result (λ seat. seat.gone ≡ false) }
        ensures works { (files : List (List ℕ)) (held : List HeldValue) (next : ℕ) → L.tells
            → IfOk result (IsAtWork F.gives F.may_fail L.history files held next) }
    {
        match Peer::new(alloc, way, OWN_RUN) {
            Ok(peer) => Ok(Seat {
                peer,
                stated: None,
                runs: Vec::new(alloc),
                again: None,
                gone: false,
                is_full: false,
                quiet: Quiet::new(),
                silent: 0,
                health: Health::new(),
            }),
            Err(_) => Err(Memory),
        }
    }

    /// Whether it is gone.
    pub fn is_gone(&self) -> bool
        ensures { result ≡ self.now.gone }
    {
        self.gone
    }

    /// The link.
    pub fn into_way(self) -> L
        ensures { result ≡ self.peer.way }
    {
        self.peer.into_way()
    }

    // What its runs take together.
    fn occupied(&self, total: Amounts) -> Occupied
        ensures { self.now.runs ≡ [] → result ≡ no_tasks }
    {
        let mut occupied = Occupied::nothing();
        if self.runs.is_empty() {
            return occupied;
        }
        for run in &self.runs {
            occupied.add(AWAY, total, run.needs, run.bytes);
        }
        occupied
    }

    // Whether it can be given something more: it has taken all that was sent, and doesn't rest.
    fn is_open(&self) -> bool
        ensures { L.sure self.now.peer.way → IsRested self.now.health → result ≡ true }
    {
        self.peer.behind() == 0 && !self.health.is_resting(self.runs.is_empty())
    }

    /// Whether a task of these needs and so many bytes of inputs fits it.
    pub fn fits(&self, needs: Needs, bytes: u64) -> bool
        ensures live { result ≡ true → self.now.gone ≡ false }
        ensures room { (least : AmountsValue) → L.sure self.now.peer.way
            → self.now.gone ≡ false → IsReady least self.now → IsWithin least needs
            → bytes ≤ most_input_bytes → result ≡ true }
    {
        match self.stated {
            Some(stated) => {
                !self.gone
                    && self.is_open()
                    && self
                        .occupied(stated.total)
                        .has_room(AWAY, stated, needs, bytes)
            }
            None => false,
        }
    }

    // Something is said to it; where nothing runs there it hasn't been silent.
    fn note_begin(&mut self)
        ensures { self.new ≡ self.old }
    {
        self.quiet.say();
        if self.runs.is_empty() {
            self.silent = 0;
        }
    }

    // An attempt came to no end there.
    fn note_lost(&mut self)
        ensures { self.new ≡ record self.old { health = self.new.health } }
    {
        self.health.lose();
    }

    // An attempt came to its end there.
    fn note_ended(&mut self)
        ensures only { self.new ≡ record self.old { health = self.new.health } }
        ensures rested { IsRested self.new.health }
    {
        self.health.recover();
    }

    // One attempt more runs there, where there is room and memory for it. It answers whether it does.
    fn hold(&mut self, id: TaskId, attempt: AttemptNo, needs: Needs, bytes: u64) -> bool
        ensures only { self.new ≡ record self.old { runs = self.new.runs } }
        ensures held { result ≡ true → self.new.runs ≡ self.old.runs ++ record {
          id = id;
          attempt = attempt;
          needs = needs;
          bytes = bytes;
        } ∷ [] }
        ensures other { result ≡ false → self.new.runs ≡ self.old.runs }
    {
        if self.runs.len() >= MOST_RUNS {
            return false;
        }
        self.note_begin();
        self.runs
            .push(Run {
                id,
                attempt,
                needs,
                bytes,
            })
            .is_ok()
    }

    /// The task that runs there with this attempt.
    fn id_of(&self, attempt: AttemptNo) -> Option<TaskId>
        ensures { result ≡ id_of attempt self.now.runs }
    {
        match self.runs.iter().find(|run| run.attempt.0 == attempt.0) {
            Some(run) => Some(run.id),
            None => None,
        }
    }

    // The attempt runs there no more.
    fn close(&mut self, attempt: AttemptNo)
        ensures { self.new ≡ record self.old { runs = closed_runs attempt self.old.runs } }
    {
        if let Some(at) = place_of(self.runs.as_slice(), attempt) {
            let _ = self.runs.remove(at);
        }
    }
}
