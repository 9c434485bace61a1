//! A foreman of a world, as it runs.
ghost use Rattle.std.specs.Prelude.{◌≡◌, ◌<◌, ◌+◌, ◌||◌, [], if◌then◌else◌, IfOk, None, OnErr};
ghost use Rattle.std.specs.Prelude.{OnOk, Some};
ghost use Rattle.foreman_core.specs.Foremen.{each_amount, largest_by, total_by};
ghost use Rattle.foreman_core.specs.Steps.{hears_down, hears_up, loses, sending};
ghost use Rattle.world_peers.specs.Peers.{gone_lead, is_open, most_came, new_lead, next_below};
ghost use Rattle.world_peers.specs.Peers.{stepped_lead};

use flow_types::{Amounts, LinkNo, Memory, Message, Rows};
use foreman_core::{ForemanActs, ForemanCore};
use std::alloc::Global;
use std::marker::Model;
use wq_messages::{PeerFault, View};

/// Nothing of each amount.
pub const NOTHING: Amounts = Amounts {
    cores: 0,
    memory: 0,
    disk: 0,
};

/// A foreman, with how many times somebody came to it.
#[derive(Drop)]
pub struct Leader {
    alloc: Global,
    core: ForemanCore,
    came: u32,
    gone: bool,
}

impl Model for Leader {
    ghost use Rattle.world_peers.specs.Peers.{Lead};

    ghost Value = { Lead };

    ghost view = { λ l. record { foreman = l.core; came = l.came; gone = l.gone } };
}

impl Leader {
    /// A foreman with a cache of so many bytes, to which nobody came.
    pub fn new(alloc: Global, cap: u64) -> Leader
        ensures { result ≡ new_lead cap }
    {
        Leader {
            alloc,
            core: ForemanCore::new(alloc, cap),
            came: 0,
            gone: false,
        }
    }

    /// A message of the master comes; answers what is to be sent. Without memory nothing is done.
    pub fn hear(&mut self, message: Message) -> Result<ForemanActs, Memory>
        ensures acts { IfOk result (λ acts. acts ≡ (hears_up self.old.foreman message).acts) }
        ensures lead { OnOk result (self.new
            ≡ stepped_lead self.old (hears_up self.old.foreman message)) }
        ensures same { OnErr result (self.new ≡ self.old) }
    {
        match self.core.on_up(message) {
            Ok(acts) => Ok(self.takes(acts)),
            Err(PeerFault::Unexpected) => Ok(nothing(self.alloc)),
            Err(PeerFault::Memory) => Err(Memory),
        }
    }

    /// A message comes over a link from below; answers what is to be sent, and which link is to be
    /// left. Without memory nothing is done.
    pub fn told(&mut self, link: LinkNo, message: &View<'_>) -> Result<ForemanActs, Memory>
        ensures acts { IfOk result (λ acts. acts
            ≡ (hears_down self.old.foreman link message.now).acts) }
        ensures lead { OnOk result (self.new
            ≡ stepped_lead self.old (hears_down self.old.foreman link message.now)) }
        ensures same { OnErr result (self.new ≡ self.old) }
    {
        match self.core.on_down(link, message) {
            Ok(acts) => Ok(self.takes(acts)),
            Err(_) => Err(Memory),
        }
    }

    /// A link from below is lost; answers what is to be sent. Without memory nothing is done.
    pub fn lose(&mut self, link: LinkNo) -> Result<ForemanActs, Memory>
        ensures acts { IfOk result (λ acts. acts ≡ (loses self.old.foreman link).acts) }
        ensures lead { OnOk result (self.new
            ≡ stepped_lead self.old (loses self.old.foreman link)) }
        ensures same { OnErr result (self.new ≡ self.old) }
    {
        let acts = self.core.on_lost(link)?;
        Ok(self.takes(acts))
    }

    /// Whether the foreman isn't gone, and somebody may come to it.
    pub fn is_open(&self) -> bool
        ensures { result ≡ is_open self.now }
    {
        !self.gone && self.came < u32::MAX
    }

    /// The number of the next link, where somebody may come.
    pub(crate) fn next_link(&self) -> Option<LinkNo>
        ensures { result ≡ if is_open self.now then Some (next_below self.now) else None }
    {
        if self.is_open() {
            Some(LinkNo(self.came + 1))
        } else {
            None
        }
    }

    /// What the foreman's workers have together, what one job may take of it, and the bytes that the
    /// foreman may keep.
    pub(crate) fn offer(&self) -> (Amounts, Amounts, u64)
        ensures total { result.0 ≡ each_amount (λ amount. total_by amount self.now.foreman.links) }
        ensures largest { result.1
            ≡ each_amount (λ amount. largest_by amount self.now.foreman.links) }
        ensures cache { result.2 ≡ self.now.foreman.cache.cap }
    {
        match self.core.totals() {
            Message::Totals {
                total,
                largest,
                cache,
            } => (total, largest, cache),
            _ => (NOTHING, NOTHING, 0),
        }
    }

    /// Somebody comes to the foreman; answers the number of the link.
    pub fn admit(&mut self) -> LinkNo
        requires { self.old.came < most_came }
        ensures link { result.0 ≡ self.old.came + 1 }
        ensures lead { self.new ≡ record self.old { came = self.old.came + 1 } }
    {
        self.came += 1;
        LinkNo(self.came)
    }

    /// The foreman is gone.
    pub fn leave(&mut self)
        ensures { self.new ≡ gone_lead self.old }
    {
        self.gone = true;
    }

    /// Whether the foreman is gone.
    pub fn is_gone(&self) -> bool
        ensures { result ≡ self.now.gone }
    {
        self.gone
    }

    // A step of the machine was done.
    fn takes(&mut self, acts: ForemanActs) -> ForemanActs
        ensures acts { result ≡ acts }
        ensures foreman { self.new.foreman ≡ self.old.foreman }
        ensures came { self.new.came ≡ self.old.came }
        ensures gone { self.new.gone ≡ acts.bye || self.old.gone }
    {
        self.gone = acts.bye || self.gone;
        acts
    }
}

// Nothing is to be sent.
fn nothing(alloc: Global) -> ForemanActs
    ensures { result ≡ sending [] [] }
{
    ForemanActs {
        up: Rows::new(alloc),
        down: Rows::new(alloc),
        leave: None,
        bye: false,
    }
}
