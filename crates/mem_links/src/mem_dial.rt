//! A dial in memory, by a list of its answers.
ghost use Rattle.std.specs.Prelude.{◌≡◌, None, IfOk};
ghost use Rattle.outside.specs.Causes.{HasCause};
ghost use Rattle.mem_links.specs.MemHalls.{AreFreshLinks, IsUnused, DialsBy};

use crate::mem_link::MemLink;
use crate::no_ringer::NoRinger;
use flow_types::Rows;
use links::Dial;
use outside::{Commands, Fault, failed};
use std::alloc::Global;
use std::collections::VecDeque;
use std::marker::Model;

/// What a dial answers next.
#[derive(Drop)]
pub enum DialStep {
    /// It connects over this link.
    Link(MemLink),
    /// A `dial` fails.
    Fail,
}

/// A dial that answers its steps one after the other, and fails after the last.
#[derive(Drop)]
pub struct MemDial {
    steps: VecDeque<DialStep>,
    faults: u64,
}

impl Model for MemDial {
    ghost use Rattle.mem_links.specs.MemHalls.{DialState, AreFreshLinks};

    ghost Value = { DialState };

    ghost view = { λ d. record { steps = d.steps.items; faults = d.faults } };

    ghost invariant = { λ d. AreFreshLinks d.steps.items };
}

impl MemDial {
    /// A dial with these steps. Over each link in them nothing has passed yet.
    pub fn new(_alloc: Global, steps: Rows<DialStep>) -> MemDial
        requires { AreFreshLinks steps }
        ensures { result ≡ record { steps = steps; faults = 0 } }
    {
        MemDial {
            steps: VecDeque::from_vec(steps.into_vec()),
            faults: 0,
        }
    }
}

impl<F: Commands> Dial<F> for MemDial {
    type Way = MemLink;

    type Ringer = NoRinger;

    ghost count = { λ dial. dial.faults };

    fn dial(&mut self, _alloc: Global, _host: &str, _port: u16) -> Result<MemLink, Fault>
        ensures step { DialsBy self.old.steps self.old result self.new }
        ensures fresh { IfOk result IsUnused }
        ensures cause { HasCause self.old.faults self.new.faults result }
    {
        match self.steps.pop_front() {
            Some(DialStep::Link(link)) => Ok(link),
            Some(DialStep::Fail) | None => Err(failed(&mut self.faults)),
        }
    }

    fn rest(&mut self, millis: u64) -> u64
        ensures millis { result ≡ millis }
        ensures dial { self.new ≡ self.old }
    {
        millis
    }

    fn ringer(&mut self) -> Option<NoRinger>
        ensures none { result ≡ None }
        ensures dial { self.new ≡ self.old }
    {
        None
    }

    fn faults(&self) -> u64
        ensures { result ≡ self.now.faults }
    {
        self.faults
    }
}
