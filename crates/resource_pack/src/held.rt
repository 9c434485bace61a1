//! One link and what runs on it.
ghost use Rattle.std.specs.Prelude.{◌≡◌, true, IfOk};
ghost use Rattle.run_history.specs.Links.{has_room, taken_on};
ghost use Rattle.resource_pack.specs.Occupancy.{stated_row};
ghost use Rattle.resource_pack.specs.Packing.{empty_link, loaded, row_on, stating, unloaded};

use crate::load::{Load, occupied_by, place_of};
use crate::occupied::Stated;
use flow_types::{Amounts, LinkNo, Needs};
use std::alloc::{AllocError, Global};
use std::marker::Model;

/// The most tasks that run on a link.
const MOST_TASKS: usize = 64;

/// A link, and room for what may run on it.
#[derive(Drop)]
pub(crate) struct Held {
    link: LinkNo,
    total: Amounts,
    largest: Amounts,
    cache: u64,
    loads: Vec<Load>,
}

impl Model for Held {
    ghost use Rattle.std.specs.Prelude.{◌≤◌, length};
    ghost use Rattle.std.specs.Vec.{vec_capacity};
    ghost use Rattle.resource_pack.specs.Packing.{PackedLink, row_on};
    ghost use Rattle.resource_pack.specs.Used.{IsSmall, IsUsable};

    ghost Value = { PackedLink };

    ghost view = { λ h. record {
      link = h.link.0;
      row = row_on h.link.0 h.total h.largest h.cache;
      loads = h.loads.items;
    } };

    ghost invariant = { λ h. (length h.loads.items ≤ 64) × (64 ≤ vec_capacity h.loads)
        × IsSmall h.total × IsUsable h.link.0 h.loads.items };
}

impl Held {
    pub(crate) fn new(
        alloc: Global,
        link: LinkNo,
        total: Amounts,
        largest: Amounts,
        cache: u64,
    ) -> Result<Held, AllocError>
        ensures { IfOk result (λ held. held ≡ empty_link link.0 total largest cache) }
    {
        let loads = Vec::with_capacity(alloc, MOST_TASKS)?;
        Ok(Held {
            link,
            total,
            largest,
            cache,
            loads,
        })
    }

    pub(crate) fn link(&self) -> LinkNo
        ensures { result.0 ≡ self.now.link }
    {
        self.link
    }

    pub(crate) fn change(&mut self, total: Amounts, largest: Amounts, cache: u64)
        ensures { self.new ≡ stating (row_on self.old.link total largest cache) self.old }
    {
        self.total = total;
        self.largest = largest;
        self.cache = cache;
    }

    pub(crate) fn has_room(&self, needs: Needs, bytes: u64) -> bool
        ensures { result ≡ has_room self.now.link self.now.row self.now.loads (record { needs = needs; bytes = bytes }) }
    {
        occupied_by(&self.loads, self.link, self.total).has_room(
            self.link,
            self.stated(),
            needs,
            bytes,
        )
    }

    fn stated(&self) -> Stated
        ensures { stated_row result ≡ self.now.row }
    {
        Stated {
            total: self.total,
            largest: self.largest,
            cache: if self.link.0 == 0 {
                None
            } else {
                Some(self.cache)
            },
        }
    }

    // What runs there takes of the link together.
    pub(crate) fn used(&self) -> Amounts
        ensures { result ≡ taken_on self.now.link self.now.row.total self.now.loads }
    {
        occupied_by(&self.loads, self.link, self.total).amounts()
    }

    pub(crate) fn take(&mut self, needs: Needs, bytes: u64)
        requires { has_room self.old.link self.old.row self.old.loads
            (record { needs = needs; bytes = bytes }) ≡ true }
        ensures { self.new ≡ loaded (record { needs = needs; bytes = bytes }) self.old }
    {
        let _ = self.loads.push(Load::new(needs, bytes));
    }

    pub(crate) fn give(&mut self, needs: Needs, bytes: u64)
        ensures { self.new ≡ unloaded (record { needs = needs; bytes = bytes }) self.old }
    {
        let at = place_of(&self.loads, needs, bytes);
        if at < self.loads.len() {
            let _ = self.loads.remove(at);
        }
    }
}
