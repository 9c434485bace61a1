//! Sets of names.
ghost use Rattle.std.specs.Prelude.{◌≡◌, ◌+◌, ◌≤◌, length, nat_lt, if◌then◌else◌};
ghost use Rattle.std.specs.Prelude.{unwrap_or, [], IfOk, OnOk, OnErr};
ghost use Rattle.std.specs.FinMap as finite;
ghost use Rattle.mf_rules.specs.Tables.{names_in, pairs_of, limited_pairs};

use flow_types::{Memory, Pair, Rows, Text};
use mf_text::Scope;
use std::alloc::Global;
use std::collections::BTreeSet;
use std::marker::Model;

/// The most bytes of a rule's environment, with 8 more a pair, and of its command.
pub const MAX_COMMAND: u64 = 1_048_576;

/// A set of names. Contracts see a finite set.
#[derive(Drop)]
pub(crate) struct Names {
    alloc: Global,
    names: BTreeSet<String>,
}

impl Model for Names {
    ghost use Rattle.std.specs.Prelude.{map, string_bytes};
    ghost use Rattle.std.specs.FinMap as map_of;
    ghost use Rattle.std.specs.Coded.{coded_list, coded_ℕ};
    ghost use base.Stored.{coded_unit};
    ghost use Rattle.mf_rules.specs.Tables.{NameSet, set_of};

    ghost Value = { NameSet };

    ghost coded = { map_of.code (coded_list coded_ℕ) coded_unit };

    ghost view = { λ s. set_of (map string_bytes s.names.keys) };
}

impl Names {
    /// No name.
    pub(crate) fn new(alloc: Global) -> Names
        ensures { result ≡ finite.empty }
    {
        Names {
            alloc,
            names: BTreeSet::new(alloc),
        }
    }

    /// Puts a name in.
    pub(crate) fn insert(&mut self, name: &str) -> Result<(), Memory>
        ensures ok { OnOk result (self.new ≡ finite.insert self.old name.now tt) }
        ensures err { OnErr result (self.new ≡ self.old) }
    {
        let Ok(name) = String::from_str(self.alloc, name) else {
            return Err(Memory);
        };
        match self.names.insert(name) {
            Ok(_) => Ok(()),
            Err(_) => Err(Memory),
        }
    }

    /// Whether the name was put in.
    pub(crate) fn contains(&self, name: &str) -> bool
        ensures { result ≡ finite.contains_key self.now name.now }
    {
        self.names.contains(name)
    }

    /// The names with their values, in byte order; none where they pass the limit of an
    /// environment.
    pub(crate) fn pairs(&self, alloc: Global, values: &Scope) -> Result<Option<Rows<Pair>>, Memory>
        ensures { IfOk result
            (λ pairs. pairs
            ≡ limited_pairs (pairs_of (finite.get values.now) (names_in self.now))) }
    {
        let mut pairs = Vec::new(alloc);
        let mut size = 0;
        for name in &self.names {
            let value = value_or_empty(values, name.as_str());
            let Some(total) = total_size(size, name.as_str(), value) else {
                return Ok(None);
            };
            size = total;
            let pair = pair_of(alloc, name.as_str(), value)?;
            let Ok(()) = pairs.push(pair) else {
                return Err(Memory);
            };
        }
        pairs.shrink_to_fit();
        Ok(Some(Rows::of(pairs)))
    }
}

/// The value of a name, empty where it has none.
pub(crate) fn value_or_empty<'a>(values: &'a Scope, name: &str) -> &'a str
    ensures { result.now ≡ unwrap_or (finite.get values.now name.now) [] }
{
    match values.get(name) {
        Some(value) => value,
        None => "",
    }
}

fn pair_of(alloc: Global, name: &str, value: &str) -> Result<Pair, Memory>
    ensures { IfOk result (λ pair. pair ≡ record { name = name.now; value = value.now }) }
{
    let name = Text::of(alloc, name)?;
    let value = Text::of(alloc, value)?;
    Ok(Pair { name, value })
}

// The size of an environment with one pair more, none where it passes the limit.
fn total_size(size: usize, name: &str, value: &str) -> Option<usize>
    requires { size ≤ 1048576 }
    ensures { result ≡ (if nat_lt 1048576 (size + (length name.now + length value.now + 8))
        then None else Some (size + (length name.now + length value.now + 8))) }
{
    let more = name.len().saturating_add(value.len()).saturating_add(8);
    let total = size.saturating_add(more);
    if total as u64 > MAX_COMMAND {
        return None;
    }
    Some(total)
}
