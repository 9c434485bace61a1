//! All workers of a run.
ghost use Rattle.std.specs.Prelude.{◌≡◌, ◌<◌, [], false, true};
ghost use Rattle.wq_run.specs.Dues.{left_lost};
ghost use Rattle.wq_run.specs.Earned.{refused_lost};
ghost use Rattle.wq_run.specs.Seats.{IsUnseated, gathered};

mod guests;
mod hall;
mod parting;
mod rounds;
mod visits;

use crate::reliance::Trust;
use crate::seat::Seat;
use flow_types::LinkNo;
use links::Link;
use outside::Commands;
use peers::{Leave, Peer};
pub(crate) use rounds::{disband, dismiss, round};
use run_history::JoinRefused;
use std::alloc::Global;
use std::marker::Model;
pub(crate) use visits::ask_all;

/// The most links at once: the most workers that may join, and eight peers that haven't yet.
const MOST_LINKS: usize = 40;

/// The workers that joined, and the peers that came and haven't joined yet.
pub(crate) struct Company<F: Commands, L: Link<F>, T: Trust> {
    seats: Vec<Seat<F, L, T>>,
    guests: Vec<Peer<F, L>>,
    // The place where peers come failed.
    failed: bool,
    // A link was lost for want of memory.
    lost: bool,
    // How many milliseconds have gone by since the last turn to be idle.
    passed: u64,
    // How many moves the desk had when no claim gave a rule.
    quiet: u64,
    // How many workers were to be asked nothing then.
    barred: usize,
    // The highest number of a link that was seated.
    newest: u32,
}

impl<F: Commands, L: Link<F>, T: Trust> Model for Company<F, L, T> {
    ghost use Rattle.wq_run.specs.Seats.{AreGuests, CompanyState};
    ghost use Rattle.wq_run.specs.Trusted.{IsAwaited, IsFair, IsHeard};

    ghost Value = { CompanyState L };

    ghost view = { λ c. record {
      seats = c.seats.items;
      guests = c.guests.items;
      failed = c.failed;
      lost = c.lost;
      newest = c.newest;
    } };

    ghost invariant = { λ c. AreGuests (IsAwaited (IsHeard T.holds L.tells) F.gives F.may_fail L.history (IsFair T.holds L.tells L.honest))
        c.guests.items };
}

impl<F: Commands, L: Link<F>, T: Trust> Company<F, L, T> {
    /// Nobody has come.
    pub fn new(alloc: Global) -> Company<F, L, T>
        ensures { result ≡ record {
          seats = [];
          guests = [];
          failed = false;
          lost = false;
          newest = 0;
        } }
    {
        Company {
            seats: Vec::new(alloc),
            guests: Vec::new(alloc),
            failed: false,
            lost: false,
            passed: 0,
            quiet: u64::MAX,
            barred: 0,
            newest: 0,
        }
    }

    /// Whether nothing runs at a worker.
    pub fn is_idle(&self) -> bool
        ensures { result ≡ true → gathered self.now.seats ≡ [] }
    {
        for seat in &self.seats {
            if !seat.is_idle() {
                return false;
            }
        }
        true
    }

    /// Whether nothing stands in the way of more.
    pub fn is_going(&self) -> bool
        ensures fine { result ≡ true
            → (self.now.failed ≡ false) × (self.now.lost ≡ false) }
        ensures stands { result ≡ false
            → self.now.failed ≡ false → self.now.lost ≡ false → ⊥ }
    {
        !self.failed && !self.lost
    }

    /// Whether the place where peers come failed.
    pub fn has_failed(&self) -> bool
        ensures { result ≡ self.now.failed }
    {
        self.failed
    }

    /// Whether a link was lost for want of memory.
    pub fn has_lost(&self) -> bool
        ensures { result ≡ self.now.lost }
    {
        self.lost
    }

    /// Whether a claim may give a rule that gave none: the desk has other moves than then, or a
    /// worker may be asked that was passed over.
    pub fn has_news(&self, moves: u64) -> bool {
        self.quiet != moves || self.has_eased()
    }

    /// Whether fewer workers are to be asked nothing than when no claim gave a rule.
    pub fn has_eased(&self) -> bool {
        self.barred_count() < self.barred
    }

    // How many workers are to be asked nothing now.
    fn barred_count(&self) -> usize {
        let mut count: usize = 0;
        for seat in &self.seats {
            if seat.is_barred() {
                count = count.saturating_add(1);
            }
        }
        count
    }

    // Whether the worker at this place is to be asked nothing now.
    fn is_barred_at(&self, at: usize) -> bool {
        match self.seats.get(at) {
            Some(seat) => seat.is_barred(),
            None => false,
        }
    }

    /// No claim gives a rule while the desk has so many moves.
    pub fn rest_at(&mut self, moves: u64)
        ensures { self.new ≡ self.old }
    {
        self.quiet = moves;
        self.barred = self.barred_count();
    }

    /// A link is left for this. Where that is want of memory the run can't go on.
    fn leaves(&mut self, leave: Leave)
        ensures left { self.new
            ≡ record self.old { lost = left_lost leave self.old.lost } }
    {
        if leave == Leave::Memory {
            self.lost = true;
        }
    }

    /// The desk refuses a guest for this. Where that is want of memory the run can't go on.
    fn refuses(&mut self, why: JoinRefused)
        ensures refused { self.new
            ≡ record self.old { lost = refused_lost why self.old.lost } }
    {
        if why == JoinRefused::Memory {
            self.lost = true;
        }
    }

    // Whether nobody more is to be let in.
    fn is_full(&self) -> bool {
        self.seats.len() + self.guests.len() >= MOST_LINKS
    }

    /// Whether a peer that came hasn't joined yet.
    pub fn has_guests(&self) -> bool
        ensures { result ≡ false → self.now.guests ≡ [] }
    {
        !self.guests.is_empty()
    }

    /// Ends it, with nobody left.
    pub fn end(self)
        requires seats { self.seats ≡ [] }
    {
        let Company {
            seats,
            guests: _,
            failed: _,
            lost: _,
            passed: _,
            quiet: _,
            barred: _,
            newest: _,
        } = self;
        seats.destroy_empty();
    }

    // Whether a link of this number may be seated: it is beyond all that were, and no seat has it.
    fn takes(&self, link: LinkNo) -> bool
        ensures unseated { result ≡ true → IsUnseated link.0 self.now.seats }
        ensures beyond { result ≡ true → self.now.newest < link.0 }
    {
        link.0 > self.newest && !self.has(link)
    }

    // Whether a seat has this link.
    fn has(&self, link: LinkNo) -> bool
        ensures { result ≡ false → IsUnseated link.0 self.now.seats }
    {
        self.seats.iter().any(|seat| seat.link().0 == link.0)
    }
}
