//! How a peer has done of late: one that lost no attempt never rests.
ghost use Rattle.std.specs.Prelude.{◌≡◌, ◌≤◌, ◌<◌, ◌+◌, ◌-◌, false, not, true};
ghost use Rattle.peer_health.specs.Healths.{IsRested, IsSicker, well};

use std::marker::Model;

/// So many attempts in a row that came to no end make a peer sick.
const SICK: u32 = 3;

/// The most turns that a sick peer rests, which are seconds.
const LONGEST: u32 = 60;

/// How a peer has done of late.
#[derive(Drop)]
pub struct Health {
    // How many attempts in a row came to no end there.
    lost: u32,
    // How many turns it rests still, and how many the next time.
    rests: u32,
    next: u32,
}

impl Model for Health {
    ghost use Rattle.peer_health.specs.Healths.{HealthState};

    ghost Value = { HealthState };

    ghost view = { λ h. record { lost = h.lost; rests = h.rests; next = h.next } };
}

impl Health {
    /// A peer that was asked for nothing yet.
    pub fn new() -> Health
        ensures { result ≡ well }
    {
        Health {
            lost: 0,
            rests: 0,
            next: 1,
        }
    }

    /// An attempt came to no end there.
    pub fn lose(&mut self)
        ensures few { self.old.lost < 2 → self.new ≡ record self.old {
          lost = self.old.lost + 1;
        } }
        ensures sick { 2 ≤ self.old.lost → IsSicker self.old self.new }
    {
        self.lost = self.lost.saturating_add(1);
        if self.lost >= SICK {
            self.rests = self.next;
            self.next = self.next.saturating_mul(2).min(LONGEST);
        }
    }

    /// An attempt came to its end there.
    pub fn recover(&mut self)
        ensures rested { IsRested self.new }
        ensures well { self.new ≡ well }
    {
        self.lost = 0;
        self.rests = 0;
        self.next = 1;
    }

    /// A second has gone by.
    pub fn beat(&mut self)
        ensures rested { IsRested self.old → IsRested self.new }
        ensures less { self.new ≡ record self.old { rests = self.old.rests - 1 } }
    {
        self.rests = self.rests.saturating_sub(1);
    }

    /// Whether it is to be given nothing now: it rests, or it is sick and something runs there.
    pub fn is_resting(&self, is_idle: bool) -> bool
        ensures rested { IsRested self.now → result ≡ false }
        ensures rests { 0 < self.now.rests → result ≡ true }
        ensures sick { self.now.rests ≡ 0 → 3 ≤ self.now.lost → result ≡ not is_idle }
        ensures well { self.now.rests ≡ 0 → self.now.lost < 3 → result ≡ false }
    {
        self.rests > 0 || self.lost >= SICK && !is_idle
    }
}
