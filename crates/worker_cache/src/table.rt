//! Rows by key, oldest first.
ghost use Rattle.std.specs.Prelude.{◌≡◌, [], ◌∷◌, ◌++◌, None, OnOk, OnErr, option_copied};
ghost use Rattle.std.specs.List.{IsDistinct};
ghost use Rattle.std.specs.Map.{keys_of};
ghost use Rattle.worker_cache.specs.Caches.{same_key, held_of, place, without, newest, changed_at, with_pin, less_pin, with_mark, renewed, bytes_of, make_room};
ghost use Rattle.worker_cache.specs.Tables.{at_place};

use crate::held::Held;
use crate::leaving::{bytes_left, let_go};
use flow_types::{Bytes, Key, Memory};
use indexmap::IndexMap;
use std::alloc::Global;
use std::marker::Model;

/// Rows by key, in the order of use: the oldest stands in front. A row that leaves or is made the
/// newest moves the rows behind it by one place.
#[derive(Drop)]
pub struct Table {
    rows: IndexMap<Key, Held>,
}

impl Model for Table {
    ghost use Rattle.worker_cache.specs.Caches.{Rows};

    ghost Value = { Rows };

    ghost view = { λ t. t.rows.entries };
}

// One pin more, up to the most that are counted.
fn count_pin(held: &mut Held)
    ensures { held.new ≡ with_pin held.old }
{
    if held.pins < u64::MAX {
        held.pins += 1;
    }
}

impl Table {
    /// No rows. It takes no memory.
    pub(crate) fn new(alloc: Global) -> Table
        ensures { result ≡ [] }
    {
        Table {
            rows: IndexMap::new(alloc),
        }
    }

    /// What a key's row holds.
    pub(crate) fn get(&self, key: Key) -> Option<&Held>
        ensures { option_copied result ≡ held_of key self.now }
    {
        self.rows.get(&key)
    }

    /// Makes a key's row the newest. It takes no memory.
    pub(crate) fn make_newest(&mut self, key: Key)
        ensures { self.new ≡ newest key self.old }
    {
        if let Some(at) = self.rows.get_index_of(&key) {
            let last = self.rows.len() - 1;
            self.rows.move_index(at, last);
        }
    }

    /// Takes a key's row away.
    pub(crate) fn remove(&mut self, key: Key)
        ensures { self.new ≡ without (place key self.old) self.old }
    {
        let _ = self.rows.shift_remove(&key);
    }

    /// Adds a row as the newest, or nothing where there is no memory.
    pub(crate) fn add(&mut self, key: Key, held: Held) -> Result<(), Memory>
        requires { place key self.old ≡ None }
        ensures ok { OnOk result (self.new ≡ self.old ++ (key, held) ∷ []) }
        ensures err { OnErr result (self.new ≡ self.old) }
    {
        match self.rows.insert(key, held) {
            Ok(_) => Ok(()),
            Err(_) => Err(Memory),
        }
    }

    /// One pin more.
    pub(crate) fn add_pin(&mut self, key: Key)
        ensures { self.new ≡ at_place (changed_at with_pin) key self.old }
    {
        let Some(held) = self.rows.get_mut(&key) else {
            return;
        };
        count_pin(held);
    }

    /// One pin less.
    pub(crate) fn take_pin(&mut self, key: Key)
        ensures { self.new ≡ at_place (changed_at less_pin) key self.old }
    {
        let Some(held) = self.rows.get_mut(&key) else {
            return;
        };
        held.pins = held.pins.saturating_sub(1);
    }

    /// From now on the key isn't found.
    pub(crate) fn mark(&mut self, key: Key)
        ensures { self.new ≡ at_place (changed_at with_mark) key self.old }
    {
        let Some(held) = self.rows.get_mut(&key) else {
            return;
        };
        held.unlinked = true;
    }

    /// Another content, which may be found.
    pub(crate) fn renew(&mut self, key: Key, content: Bytes)
        ensures { self.new ≡ at_place (changed_at (renewed content)) key self.old }
    {
        let Some(held) = self.rows.get_mut(&key) else {
            return;
        };
        held.content = content;
        held.unlinked = false;
    }

    /// The bytes of the rows that stay where `excess` bytes are to leave of `total`.
    pub(crate) fn bytes_left(&self, total: u128, excess: u128) -> u128
        requires { total ≡ bytes_of self.now }
        ensures { result ≡ bytes_of (make_room excess self.now) }
    {
        bytes_left(&self.rows, total, excess)
    }

    /// Lets the oldest unpinned rows leave, as few as hold so many bytes together.
    pub(crate) fn make_room(&mut self, excess: u128)
        ensures { self.new ≡ make_room excess self.old }
    {
        let_go(&mut self.rows, excess);
    }

    /// How many rows there are, each under a key of its own.
    pub(crate) fn len(&self) -> usize
        ensures distinct { IsDistinct same_key (keys_of self.now) }
    {
        self.rows.len()
    }
}
