//! A foreman's workers, each at its link.
ghost use Rattle.std.specs.Prelude.{◌≡◌, ◌<◌, ◌+◌, ◌==◌, ◌∷◌, ◌++◌, [], IfErr, IfNone, IfSome, OnOk, length, true};
ghost use Rattle.std.specs.List.{position};
ghost use Rattle.foreman_run.specs.Lost.{seen_of};
ghost use Rattle.foreman_run.specs.Lowers.{Keeps, KeepsWith, LowerState, Parts};
ghost use Rattle.peer_run.specs.Says.{CanBeTold};
ghost use Rattle.foreman_run.specs.Says.{CanGoDown};

use crate::lower::Lower;
use flow_types::{LinkNo, Rows};
use foreman_core::Down;
use links::Link;
use outside::Commands;
use std::alloc::Global;
use std::collections::VecDeque;
use std::marker::Model;

/// The most workers that a foreman has at once.
const MOST_WORKERS: usize = 32;

/// The most links at once: as many as there may be workers, and eight more that wait for their Hello.
const MOST_LINKS: usize = 40;

/// The links to the workers, in the order in which they came.
#[derive(Drop)]
pub(crate) struct Company<F: Commands, L: Link<F>> {
    pub(crate) lowers: Vec<Lower<F, L>>,
}

impl<F: Commands, L: Link<F>> Model for Company<F, L> {
    ghost use Rattle.std.specs.Prelude.{List};
    ghost use Rattle.foreman_run.specs.Lowers.{LowerState};

    ghost Value = { List (LowerState L) };

    ghost view = { λ c. c.lowers.items };
}

impl<F: Commands, L: Link<F>> Company<F, L> {
    /// Nobody has come.
    pub fn new(alloc: Global) -> Company<F, L>
        ensures { result ≡ [] }
    {
        Company {
            lowers: Vec::new(alloc),
        }
    }

    // How many workers have said their Hello.
    fn workers(&self) -> usize {
        self.lowers
            .iter()
            .filter(|lower| lower.is_greeted())
            .count()
    }

    /// The number of the next link, where so many had one. While as many are there as may be, and once
    /// each number was given, there is none.
    pub fn next(&self, numbered: u32) -> Option<LinkNo>
        ensures { IfSome result (λ link. link.0 ≡ numbered + 1) }
    {
        if self.lowers.len() >= MOST_LINKS || self.workers() >= MOST_WORKERS {
            return None;
        }
        let number = numbered.checked_add(1)?;
        Some(LinkNo(number))
    }

    /// One more worker, under the next number. Where memory is wanting it comes back.
    pub fn add(&mut self, lower: Lower<F, L>) -> Result<(), Lower<F, L>>
        ensures ok { OnOk result (self.new ≡ self.old ++ lower ∷ []) }
        ensures back { IfErr result (λ back. (back ≡ lower) × (self.new ≡ self.old)) }
    {
        match self.lowers.push(lower) {
            Ok(()) => Ok(()),
            Err(failed) => Err(failed.value),
        }
    }

    /// Takes the worker that came last out, if there is one.
    pub fn pop(&mut self) -> Option<Lower<F, L>>
        ensures some { IfSome result (λ out. self.old ≡ self.new ++ out ∷ []) }
        ensures none { IfNone result (self.old ≡ []) }
    {
        self.lowers.pop()
    }

    /// How many there are.
    pub fn count(&self) -> usize
        ensures { result ≡ length self.now }
    {
        self.lowers.len()
    }

    // Where the link of this number stands.
    fn place(&self, link: LinkNo) -> Option<usize>
        ensures { result ≡ position (λ (l : LowerState L). l.link.0 == link.0) self.now }
    {
        self.lowers
            .iter()
            .position(|lower| lower.link().0 == link.0)
    }

    // Sends a message down, where there is its link.
    fn send(&mut self, alloc: Global, down: Down)
        requires told { CanBeTold down.message }
        ensures { KeepsWith L.tells (seen_of L.history L.is_closed L.count L.idle_count) L.honest
            (down ∷ []) self.old self.new }
    {
        let Down { link, message } = down;
        if let Some(at) = self.place(link) {
            if let Some(lower) = self.lowers.get_mut(at) {
                lower.send(alloc, message);
            }
        }
    }

    /// Sends these messages down, in order.
    pub fn send_all(&mut self, alloc: Global, downs: Rows<Down>)
        requires told { CanGoDown downs }
        ensures { KeepsWith L.tells (seen_of L.history L.is_closed L.count L.idle_count) L.honest
            downs self.old self.new }
    {
        let mut left = VecDeque::from(downs.into_vec());
        while let Some(down) = left.pop_front() {
            self.send(alloc, down);
        }
    }

    // A second has passed at the link at a place.
    fn check_at(&mut self, alloc: Global, at: usize)
        ensures { Keeps L.tells (seen_of L.history L.is_closed L.count L.idle_count) L.honest
            self.old self.new }
    {
        let Some(lower) = self.lowers.get_mut(at) else {
            return;
        };
        lower.check(alloc);
    }

    /// At a turn, a second has passed at each link: what waits is sent on, and links are to be left
    /// whose workers are gone or never came.
    pub fn check(&mut self, alloc: Global, turn: bool)
        ensures { Keeps L.tells (seen_of L.history L.is_closed L.count L.idle_count) L.honest
            self.old self.new }
    {
        if !turn {
            return;
        }
        for at in 0..self.count() {
            self.check_at(alloc, at);
        }
    }

    // Where the first link stands that is to be left.
    fn place_gone(&self) -> Option<usize>
        ensures place { result ≡ position (λ (l : LowerState L). l.gone) self.now }
        ensures within { IfSome result (λ at. at < length self.now) }
    {
        self.lowers.iter().position(|lower| lower.is_gone())
    }

    /// Takes out a link that is to be left, if there is one.
    pub fn take_gone(&mut self) -> Option<Lower<F, L>>
        ensures some { IfSome result (λ out. Parts out self.old self.new × (out.gone ≡ true)) }
        ensures none { IfNone result (self.new ≡ self.old) }
    {
        let at = self.place_gone()?;
        Some(self.lowers.remove(at))
    }
}
