//! What a task takes of a link.
ghost use Rattle.std.specs.Prelude.{◌≡◌, ◌≤◌, length};
ghost use Rattle.std.specs.List.{position_or_len};
ghost use Rattle.resource_pack.specs.Occupancy.{occupancy_of};
ghost use Rattle.resource_pack.specs.Packing.{are_same_needs, is_load};

use crate::occupied::Occupied;
use flow_types::{Amounts, LinkNo, Needs};
use std::marker::Model;

/// What a task needs of its link, and the bytes that it takes there.
#[derive(Drop)]
pub(crate) struct Load {
    needs: Needs,
    bytes: u64,
}

impl Model for Load {
    ghost use Rattle.run_history.specs.Links.{Load};

    ghost Value = { Load };

    ghost view = { λ l. record { needs = l.needs; bytes = l.bytes } };
}

impl Load {
    pub(crate) fn new(needs: Needs, bytes: u64) -> Load
        ensures { result ≡ record { needs = needs; bytes = bytes } }
    {
        Load { needs, bytes }
    }

    pub(crate) fn needs(&self) -> Needs
        ensures { result ≡ self.now.needs }
    {
        self.needs
    }

    pub(crate) fn bytes(&self) -> u64
        ensures { result ≡ self.now.bytes }
    {
        self.bytes
    }

    pub(crate) fn is(&self, needs: Needs, bytes: u64) -> bool
        ensures { result ≡ is_load (record { needs = needs; bytes = bytes }) self.now }
    {
        are_same(self.needs, needs) && self.bytes == bytes
    }
}

// The place of the first load that is this one, or the number of loads.
pub(crate) fn place_of(loads: &[Load], needs: Needs, bytes: u64) -> usize
    ensures { result ≡ position_or_len (is_load (record { needs = needs; bytes = bytes })) loads.now }
{
    for (at, load) in loads.iter().enumerate() {
        if load.is(needs, bytes) {
            return at;
        }
    }
    loads.len()
}

// What these loads take of the link.
pub(crate) fn occupied_by(loads: &[Load], link: LinkNo, total: Amounts) -> Occupied
    requires { length loads.now ≤ 64 }
    ensures { result ≡ occupancy_of link.0 total loads.now }
{
    let mut occupied = Occupied::nothing();
    for load in loads {
        occupied.add(link, total, load.needs(), load.bytes());
    }
    occupied
}

fn are_same(needs: Needs, others: Needs) -> bool
    ensures { result ≡ are_same_needs needs others }
{
    match (needs, others) {
        (Needs::Whole, Needs::Whole) => true,
        (Needs::Stated(a), Needs::Stated(b)) => {
            a.cores == b.cores && a.memory == b.memory && a.disk == b.disk
        }
        _ => false,
    }
}
