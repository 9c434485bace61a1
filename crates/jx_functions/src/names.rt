//! Names that have values.
ghost use Rattle.std.specs.Prelude.{◌≡◌, ◌++◌, List, ℕ, map, option_map, option_copied};
ghost use Rattle.jx_meaning.specs.Values.{Entry, plain, find};
ghost use Rattle.jx_meaning.specs.Scopes.{names_of};
ghost use Rattle.jx_values.specs.Kinds.{plain_pair};

use jx_meaning::JxScope;
use jx_syntax::{JxPair, JxValue};
use jx_values::find;

/// Names that have values: those of a scope, or those that an expression sees within its loops.
pub trait Names {
    /// The names with their values.
    ghost names: { Self → List Entry };

    /// The value of a name, where it has one.
    fn value(&self, name: &str) -> Option<&JxValue>
        ensures { option_map plain (option_copied result) ≡ find name.now (names self.now) };
}

impl Names for JxScope {
    ghost names = { λ s. names_of s };

    fn value(&self, name: &str) -> Option<&JxValue> {
        self.get(name)
    }
}

/// The keys of an object before other names.
#[derive(Drop)]
pub struct KeysBefore<'a, N> {
    /// The keys with their values.
    pub pairs: &'a [JxPair],
    /// The other names.
    pub names: &'a N,
}

#[tactic(auto, using(crate::proofs::Finding::findings))]
impl<'a, N: Names> Names for KeysBefore<'a, N> {
    ghost names = { λ k. map plain_pair k.pairs.now ++ N.names k.names.now };

    fn value(&self, name: &str) -> Option<&JxValue> {
        match find(self.pairs, name) {
            Some(value) => Some(value),
            None => self.names.value(name),
        }
    }
}
