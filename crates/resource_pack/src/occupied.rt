//! What the tasks on a link take of it together.
ghost use Rattle.std.specs.Prelude.{◌≡◌, ◌<◌, ◌-◌, ◌==◌};
ghost use Rattle.run_history.specs.Links.{amounts_on, is_at_most, with_amounts};
ghost use Rattle.resource_pack.specs.Occupancy.{has_room_beside, leaves_amounts_beside, leaves_bytes_beside, no_tasks, stated_row, with_task};
ghost use Rattle.resource_pack.specs.Used.{IsSmall};

use flow_types::{Amounts, LinkNo, Needs};
use std::marker::Model;

/// The most tasks that run on a link.
const MOST_TASKS: u32 = 64;

/// What a link states of itself: its amounts, the largest of one of its places, and its cache in bytes, where it is bounded.
#[derive(Clone, Copy)]
pub struct Stated {
    pub total: Amounts,
    pub largest: Amounts,
    pub cache: Option<u64>,
}

/// The tasks that run on a link, summed.
#[derive(Drop)]
pub struct Occupied {
    tasks: u32,
    cores: u64,
    memory: u64,
    disk: u64,
    bytes: u128,
}

impl Model for Occupied {
    ghost use Rattle.std.specs.Prelude.{◌≤◌, ◌*◌};
    ghost use Rattle.resource_pack.specs.Occupancy.{Occupancy};

    ghost Value = { Occupancy };

    ghost view = { λ o. record {
      tasks = o.tasks;
      amounts = record { cores = o.cores; memory = o.memory; disk = o.disk };
      bytes = o.bytes;
    } };

    ghost invariant = { λ o. (o.tasks ≤ 1000000) × (o.cores ≤ 4294967295 * o.tasks) × (o.memory ≤ 4294967295 * o.tasks)
        × (o.disk ≤ 4294967295 * o.tasks) × (o.bytes ≤ 18446744073709551615 * o.tasks) };
}

impl Occupied {
    /// No task.
    pub fn nothing() -> Occupied
        ensures { result ≡ no_tasks }
    {
        Occupied {
            tasks: 0,
            cores: 0,
            memory: 0,
            disk: 0,
            bytes: 0,
        }
    }

    /// One more task, with these needs on a link of this total and so many bytes of inputs.
    pub fn add(&mut self, link: LinkNo, total: Amounts, needs: Needs, bytes: u64)
        requires { self.old.tasks < 1000000 }
        ensures { self.new ≡ with_task link.0 total (record { needs = needs; bytes = bytes }) self.old }
    {
        let amounts = amounts_for(link, total, needs);
        self.tasks += 1;
        self.cores += u64::from(amounts.cores);
        self.memory += u64::from(amounts.memory);
        self.disk += u64::from(amounts.disk);
        self.bytes += u128::from(bytes);
    }

    /// Whether no task runs.
    pub fn is_empty(&self) -> bool
        ensures { result ≡ (self.now.tasks == 0) }
    {
        self.tasks == 0
    }

    /// What these tasks take together. Condition: no amount is more than an amount can say.
    pub(crate) fn amounts(&self) -> Amounts
        requires { IsSmall self.now.amounts }
        ensures { result ≡ self.now.amounts }
    {
        Amounts {
            cores: self.cores as u32,
            memory: self.memory as u32,
            disk: self.disk as u32,
        }
    }

    /// What these tasks leave of a total, none of an amount of which they take more.
    pub fn left(&self, total: Amounts) -> Amounts
        ensures cores { result.cores ≡ total.cores - self.now.amounts.cores }
        ensures memory { result.memory ≡ total.memory - self.now.amounts.memory }
        ensures disk { result.disk ≡ total.disk - self.now.amounts.disk }
    {
        Amounts {
            cores: left_of(total.cores, self.cores),
            memory: left_of(total.memory, self.memory),
            disk: left_of(total.disk, self.disk),
        }
    }

    /// What these tasks leave of a cache in bytes, none where they take more.
    pub fn left_bytes(&self, cache: u64) -> u64
        ensures { result ≡ cache - self.now.bytes }
    {
        if self.bytes < u128::from(cache) {
            cache - self.bytes as u64
        } else {
            0
        }
    }

    /// Whether one more task fits the link beside these.
    pub fn has_room(&self, link: LinkNo, stated: Stated, needs: Needs, bytes: u64) -> bool
        ensures { result ≡ has_room_beside link.0 (stated_row stated) self.now (record { needs = needs; bytes = bytes }) }
    {
        self.tasks < MOST_TASKS
            && self.leaves_amounts(link, stated, needs)
            && self.leaves_bytes(stated.cache, bytes)
    }

    fn leaves_amounts(&self, link: LinkNo, stated: Stated, needs: Needs) -> bool
        ensures { result ≡ leaves_amounts_beside link.0 (stated_row stated) self.now needs }
    {
        if matches!(needs, Needs::Whole) && link.0 != 0 {
            return self.tasks == 0;
        }
        let amounts = amounts_for(link, stated.total, needs);
        is_within(amounts, stated.largest) && self.is_left(amounts, stated.total)
    }

    fn is_left(&self, amounts: Amounts, total: Amounts) -> bool
        ensures { result ≡ is_at_most (with_amounts self.now.amounts amounts) total }
    {
        self.cores + u64::from(amounts.cores) <= u64::from(total.cores)
            && self.memory + u64::from(amounts.memory) <= u64::from(total.memory)
            && self.disk + u64::from(amounts.disk) <= u64::from(total.disk)
    }

    fn leaves_bytes(&self, cache: Option<u64>, bytes: u64) -> bool
        ensures { result ≡ leaves_bytes_beside cache self.now bytes }
    {
        match cache {
            None => true,
            Some(cache) => self.bytes + u128::from(bytes) <= u128::from(cache),
        }
    }
}

fn amounts_for(link: LinkNo, total: Amounts, needs: Needs) -> Amounts
    ensures { result ≡ amounts_on link.0 total needs }
{
    match needs {
        Needs::Stated(amounts) => amounts,
        Needs::Whole if link.0 == 0 => Amounts {
            cores: 1,
            memory: 0,
            disk: 0,
        },
        Needs::Whole => total,
    }
}

fn left_of(total: u32, taken: u64) -> u32
    ensures { result ≡ total - taken }
{
    if taken < u64::from(total) {
        total - taken as u32
    } else {
        0
    }
}

fn is_within(amounts: Amounts, others: Amounts) -> bool
    ensures { result ≡ is_at_most amounts others }
{
    amounts.cores <= others.cores && amounts.memory <= others.memory && amounts.disk <= others.disk
}
