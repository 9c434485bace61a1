//! Names and their values.
ghost use Rattle.std.specs.Prelude.{◌≡◌, [], ◌∷◌, ◌++◌, List, ℕ, OnOk};
ghost use Rattle.std.specs.Prelude.{OnErr, option_map, option_copied};
ghost use Rattle.std.specs.Prelude.{position, ◌<◌, length, IfSome};
ghost use Rattle.std.specs.Str.{bytes_eq};
ghost use Rattle.jx_meaning.specs.Values.{plain, or_else};
ghost use Rattle.jx_meaning.specs.Lists.{put};
ghost use Rattle.jx_meaning.specs.Scopes.{named, names_of, ReplacesValue};

use flow_types::{Memory, Text};
use jx_syntax::JxValue;
use std::alloc::Global;
use std::marker::Model;

/// A name and its value.
#[derive(Drop)]
pub struct Binding {
    /// The name.
    pub name: Text,
    /// Its value.
    pub value: JxValue,
}

/// The names that an expression may use, and their values.
#[derive(Drop)]
pub struct JxScope {
    alloc: Global,
    bindings: Vec<Binding>,
}

impl Model for JxScope {
    ghost use Rattle.std.specs.Prelude.{List};
    ghost use Rattle.jx_meaning.specs.declared.scope.Binding.{Binding};
    ghost use Rattle.std.specs.Coded.{codes};
    ghost use Rattle.jx_syntax.specs.contracts.value.JxValue as value;

    ghost Value = { List Binding };

    ghost coded = { Prim.hlevel (codes, value.the_row.coded) };

    ghost view = { λ s. s.bindings.items };
}

/// Which of the bindings has this name.
fn place_of(bindings: &[Binding], name: &str) -> Option<usize>
    ensures place { result ≡ position (λ b. bytes_eq b.name name.now) bindings.now }
    ensures within { IfSome result (λ i. i < length bindings.now) }
{
    bindings.iter().position(|b| b.name.as_str() == name)
}

/// Gives the binding at this place another value.
fn replace_value(bindings: &mut Vec<Binding>, place: usize, value: JxValue)
    requires { place < length bindings.old.items }
    ensures { ReplacesValue bindings.old.items place value bindings.new.items }
{
    bindings[place].value = value;
}

/// Puts a binding at the end.
fn add(bindings: &mut Vec<Binding>, binding: Binding) -> Result<(), Memory>
    ensures added { OnOk result (bindings.new.items ≡ bindings.old.items ++ binding ∷ []) }
    ensures unchanged { OnErr result (bindings.new.items ≡ bindings.old.items) }
{
    match bindings.push(binding) {
        Ok(()) => Ok(()),
        Err(_) => Err(Memory),
    }
}

impl JxScope {
    /// No names.
    pub fn new(alloc: Global) -> JxScope
        ensures { result ≡ [] }
    {
        JxScope {
            alloc,
            bindings: Vec::new(alloc),
        }
    }

    /// Gives a name this value, in place of the one that it had.
    pub fn set(&mut self, name: &str, value: JxValue) -> Result<(), Memory>
        ensures named { OnOk result ((x : List ℕ) → named self.new x
            ≡ or_else (bytes_eq name.now x) (plain value) (named self.old x)) }
        ensures names { OnOk result (names_of self.new
            ≡ put name.now (plain value) (names_of self.old)) }
        ensures unchanged { OnErr result (self.new ≡ self.old) }
    {
        match place_of(self.bindings.as_slice(), name) {
            Some(place) => {
                replace_value(&mut self.bindings, place, value);
                Ok(())
            }
            None => {
                let name = Text::of(self.alloc, name)?;
                add(&mut self.bindings, Binding { name, value })
            }
        }
    }

    /// The value of a name, where it has one.
    pub fn get(&self, name: &str) -> Option<&JxValue>
        ensures { option_map plain (option_copied result) ≡ named self.now name.now }
    {
        match place_of(self.bindings.as_slice(), name) {
            Some(place) => Some(&self.bindings[place].value),
            None => None,
        }
    }

    /// The names with their values.
    pub fn bindings(&self) -> &[Binding]
        ensures { result.now ≡ self.now }
    {
        self.bindings.as_slice()
    }
}
