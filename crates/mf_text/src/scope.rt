//! The variables of a text.
ghost use Rattle.std.specs.Prelude.{◌≡◌, ◌++◌, ◌∷◌, OnOk, OnErr, string_bytes};
ghost use Rattle.std.specs.Option.{option_map};
ghost use Rattle.std.specs.FinMap as map;
ghost use Rattle.mf_text.specs.Names.{behind_old};

use flow_types::Memory;
use std::alloc::Global;
use std::collections::BTreeMap;
use std::marker::Model;

/// The values of variables. Contracts see a finite map from names to values.
#[derive(Drop)]
pub struct Scope {
    alloc: Global,
    values: BTreeMap<String, String>,
}

impl Model for Scope {
    ghost use Rattle.std.specs.Prelude.{map, string_bytes};
    ghost use Rattle.mf_text.specs.Names.{Values};
    ghost use Rattle.std.specs.FinMap as map_of;
    ghost use Rattle.std.specs.Coded.{coded_list, coded_ℕ};

    ghost Value = { Values };

    ghost coded = { map_of.code (coded_list coded_ℕ) (coded_list coded_ℕ) };

    ghost view = { λ s.
        map_of.from_entries (map (λ e. (string_bytes e.0, string_bytes e.1)) s.values.entries) };
}

impl Scope {
    /// No variable has a value.
    pub fn new(alloc: Global) -> Scope
        ensures { result ≡ map.empty }
    {
        Scope {
            alloc,
            values: BTreeMap::new(alloc),
        }
    }

    /// Gives a variable this value, in place of the one that it had.
    pub fn set(&mut self, name: &str, value: &str) -> Result<(), Memory>
        ensures ok { OnOk result (self.new ≡ map.insert self.old name.now value.now) }
        ensures err { OnErr result (self.new ≡ self.old) }
    {
        let Ok(name) = String::from_str(self.alloc, name) else {
            return Err(Memory);
        };
        let Ok(value) = String::from_str(self.alloc, value) else {
            return Err(Memory);
        };
        match self.values.insert(name, value) {
            Ok(_) => Ok(()),
            Err(_) => Err(Memory),
        }
    }

    /// Puts a space and this value behind the one that a variable has, or sets it if it has none.
    pub fn append(&mut self, name: &str, value: &str) -> Result<(), Memory>
        ensures ok { OnOk result
            (self.new
            ≡ map.insert self.old name.now (behind_old (map.get self.old name.now) value.now)) }
        ensures err { OnErr result (self.new ≡ self.old) }
    {
        match self.values.get_mut(name) {
            Some(old) => put_behind(old, value),
            None => self.set(name, value),
        }
    }

    /// The value of a variable.
    pub fn get(&self, name: &str) -> Option<&str>
        ensures { option_map (λ value. value.now) result ≡ map.get self.now name.now }
    {
        match self.values.get(name) {
            Some(value) => Some(value.as_str()),
            None => None,
        }
    }
}

// A space and the value behind a text, which stays as it is for want of memory.
fn put_behind(text: &mut String, value: &str) -> Result<(), Memory>
    ensures ok { OnOk result (string_bytes text.new ≡ string_bytes text.old ++ 32 ∷ value.now) }
    ensures err { OnErr result (string_bytes text.new ≡ string_bytes text.old) }
{
    let room = value.len().saturating_add(1);
    if text.reserve(room).is_err() || text.push(' ').is_err() {
        return Err(Memory);
    }
    match text.push_str(value) {
        Ok(()) => Ok(()),
        Err(_) => Err(Memory),
    }
}
