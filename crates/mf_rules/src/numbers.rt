//! Numbers by name.
ghost use Rattle.std.specs.Prelude.{◌≡◌, OnOk, OnErr};
ghost use Rattle.std.specs.FinMap as map;

use flow_types::Memory;
use std::alloc::Global;
use std::collections::BTreeMap;
use std::marker::Model;

/// Numbers by name. Contracts see a finite map.
#[derive(Drop)]
pub(crate) struct Numbers {
    alloc: Global,
    numbers: BTreeMap<String, u32>,
}

impl Model for Numbers {
    ghost use Rattle.std.specs.Prelude.{map, string_bytes};
    ghost use Rattle.std.specs.FinMap as map_of;
    ghost use Rattle.std.specs.Coded.{coded_list, coded_ℕ};
    ghost use Rattle.mf_rules.specs.Tables.{Counts};

    ghost Value = { Counts };

    ghost coded = { map_of.code (coded_list coded_ℕ) coded_ℕ };

    ghost view = { λ s.
        map_of.from_entries (map (λ e. (string_bytes e.0, e.1)) s.numbers.entries) };
}

impl Numbers {
    /// No name has a number.
    pub(crate) fn new(alloc: Global) -> Numbers
        ensures { result ≡ map.empty }
    {
        Numbers {
            alloc,
            numbers: BTreeMap::new(alloc),
        }
    }

    /// Gives a name this number, in place of the one that it had.
    pub(crate) fn set(&mut self, name: &str, number: u32) -> Result<(), Memory>
        ensures ok { OnOk result (self.new ≡ map.insert self.old name.now number) }
        ensures err { OnErr result (self.new ≡ self.old) }
    {
        let Ok(name) = String::from_str(self.alloc, name) else {
            return Err(Memory);
        };
        match self.numbers.insert(name, number) {
            Ok(_) => Ok(()),
            Err(_) => Err(Memory),
        }
    }

    /// The number of a name.
    pub(crate) fn get(&self, name: &str) -> Option<u32>
        ensures { result ≡ map.get self.now name.now }
    {
        self.numbers.get(name).copied()
    }
}
