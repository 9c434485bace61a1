//! For how long nothing was said to a peer.
ghost use Rattle.std.specs.Prelude.{◌≡◌, ◌≤◌, ◌<◌, ◌+◌, false, true};

use std::marker::Model;

/// So many turns, which are seconds, after something was said a word is said that the peer passes
/// over, so that the system notices one that is gone.
const LONG: u32 = 60;

/// For how many turns nothing was said to a peer.
#[derive(Drop)]
pub struct Quiet {
    turns: u32,
}

impl Model for Quiet {
    ghost use Rattle.std.specs.Prelude.{ℕ};

    ghost Value = { ℕ };

    ghost view = { λ q. q.turns };
}

impl Quiet {
    /// A peer that is met now.
    pub fn new() -> Quiet
        ensures { result ≡ 0 }
    {
        Quiet { turns: 0 }
    }

    /// Something is said to it.
    pub fn say(&mut self)
        ensures { self.new ≡ 0 }
    {
        self.turns = 0;
    }

    /// A second has gone by.
    pub fn beat(&mut self)
        ensures short { self.old < 60 → self.new ≡ self.old + 1 }
        ensures long { 60 ≤ self.old → 60 ≤ self.new }
    {
        self.turns = self.turns.saturating_add(1);
    }

    /// Whether it is time for a word: nothing was said for a minute.
    pub fn is_long(&self) -> bool
        ensures short { self.now < 60 → result ≡ false }
        ensures long { 60 ≤ self.now → result ≡ true }
    {
        self.turns >= LONG
    }
}
