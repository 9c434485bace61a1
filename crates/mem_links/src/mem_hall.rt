//! A hall in memory, by a list of its answers.
ghost use Rattle.std.specs.Prelude.{◌≡◌, None, true, is_ok};
ghost use Rattle.outside.specs.Causes.{HasCause};
ghost use Rattle.links.specs.Halls.{Gives, IfLink};
ghost use Rattle.mem_links.specs.MemHalls.{new_hall, AreFresh, IsUnused, WaitsBy, KeepsLink};
ghost use Rattle.mem_links.specs.MemHalls.{has_news};
ghost use Rattle.mem_links.specs.MemHalls.{EachLink, IsManned, IsStaffed};
ghost use Rattle.mem_links.specs.Serving.{IsHonestLink, IsSureLink};

use crate::mem_link::MemLink;
use flow_types::{LinkNo, Memory, Rows};
use links::{Came, Hall};
use outside::{Commands, Fault, failed};
use std::alloc::Global;
use std::collections::VecDeque;
use std::marker::Model;

/// What a hall answers next.
#[derive(Drop)]
pub enum HallStep {
    /// A peer comes over this link.
    Link(MemLink),
    /// Nobody comes.
    Idle,
    /// A `wait` fails.
    Fail,
}

/// A hall that answers its steps one after the other, and is idle after the last.
#[derive(Drop)]
pub struct MemHall {
    steps: VecDeque<HallStep>,
    got: Vec<(Option<LinkNo>, MemLink)>,
    listens: bool,
    given: u64,
    faults: u64,
    idles: u64,
}

impl Model for MemHall {
    ghost use Rattle.mem_links.specs.MemHalls.{HallState, AreFresh};

    ghost Value = { HallState };

    ghost view = { λ h. record {
      steps = h.steps.items;
      got = h.got.items;
      listens = h.listens;
      given = h.given;
      faults = h.faults;
      idles = h.idles;
    } };

    ghost invariant = { λ h. AreFresh h.steps.items };
}

impl MemHall {
    /// A hall with these steps. Over each link in them nothing has passed yet.
    pub fn new(alloc: Global, steps: Rows<HallStep>) -> MemHall
        requires { AreFresh steps }
        ensures { result ≡ new_hall steps }
    {
        MemHall {
            steps: VecDeque::from_vec(steps.into_vec()),
            got: Vec::new(alloc),
            listens: false,
            given: 0,
            faults: 0,
            idles: 0,
        }
    }

    /// The links that were handed back, in order, each with its number where it had one.
    pub fn got(&self) -> &[(Option<LinkNo>, MemLink)]
        ensures { result.now ≡ self.now.got }
    {
        self.got.as_slice()
    }
}

impl<F: Commands> Hall<F> for MemHall {
    type Way = MemLink;

    ghost listens = { λ hall. hall.listens ≡ true };

    ghost given = { λ hall. hall.given };

    ghost got = { λ hall. hall.got };

    ghost honest = { λ hall. EachLink (IsHonestLink F.gives F.may_fail) hall.steps };

    ghost sure = { λ hall. EachLink (IsSureLink F.gives F.may_fail) hall.steps };

    ghost manned = { λ hall amounts. IsManned F.gives F.may_fail amounts hall };

    ghost staffed = { λ hall amounts. IsStaffed F.gives F.may_fail amounts hall };

    ghost count = { λ hall. hall.faults };

    ghost idle_count = { λ hall. hall.idles };

    ghost manned_is = { λ hall amounts is. (is.staffed, is.none_given) };

    fn listen(&mut self, _port: u16) -> Result<(), Fault>
        ensures ok { is_ok result ≡ true }
        ensures listens { self.new ≡ record self.old { listens = true } }
    {
        self.listens = true;
        Ok(())
    }

    fn wait(&mut self, _alloc: Global) -> Result<Came<MemLink>, Fault>
        ensures step { WaitsBy self.old.steps self.old result self.new }
        ensures fresh { IfLink result IsUnused }
        ensures given { Gives result self.old.given self.new.given }
        ensures cause { HasCause self.old.faults self.new.faults result }
    {
        if self.given == u64::MAX || self.faults == u64::MAX || self.idles == u64::MAX {
            return Err(Fault::Memory);
        }
        match self.steps.pop_front() {
            Some(HallStep::Link(link)) => {
                self.given += 1;
                Ok(Came::Link(link))
            }
            Some(HallStep::Fail) => Err(failed(&mut self.faults)),
            Some(HallStep::Idle) | None => {
                self.idles += 1;
                Ok(Came::Idle)
            }
        }
    }

    fn ready(&mut self) -> bool
        ensures answer { result ≡ has_news self.old.steps }
        ensures hall { self.new ≡ self.old }
    {
        matches!(self.steps.front(), Some(HallStep::Link(_) | HallStep::Fail))
    }

    fn rest(&mut self, millis: u64) -> u64
        ensures millis { result ≡ millis }
        ensures hall { self.new ≡ self.old }
    {
        millis
    }

    fn back(&mut self, _alloc: Global, link: Option<LinkNo>, way: MemLink) -> Result<(), Memory>
        ensures { KeepsLink link way self.old result self.new }
    {
        match self.got.push((link, way)) {
            Ok(()) => Ok(()),
            Err(_) => Err(Memory),
        }
    }

    fn faults(&self) -> u64
        ensures { result ≡ self.now.faults }
    {
        self.faults
    }

    fn idles(&self) -> u64
        ensures { result ≡ self.now.idles }
    {
        self.idles
    }
}
