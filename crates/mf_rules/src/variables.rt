//! The variables of a text, over those that were given.
ghost use Rattle.std.specs.Prelude.{◌≡◌, OnOk, IfOk, MatchResult, if◌then◌else◌, true, []};
ghost use Rattle.std.specs.FinMap as finite;
ghost use Rattle.mf_text.specs.Answers.{Fails};
ghost use Rattle.mf_rules.specs.Faults.{least, first_unknown};
ghost use Rattle.mf_rules.specs.Flow.{given_pairs};
ghost use Rattle.mf_rules.specs.Progress.{HoldsVariables, Assigns, Marks, refused};

use crate::names::Names;
use flow_types::{Memory, Text};
use mf_text::{MakeFault, Scope};
use std::alloc::Global;

/// The values of names, the names that the text has set, and those that are marked.
#[derive(Drop)]
pub(crate) struct Variables {
    pub values: Scope,
    pub of_text: Names,
    pub marked: Names,
}

// Gives a variable this value, where it has none.
fn set_first(values: &mut Scope, name: &str, value: &str) -> Result<(), Memory>
    ensures { OnOk result
        (values.new ≡ (if finite.contains_key values.old name.now then values.old
        else finite.insert values.old name.now value.now)) }
{
    match values.get(name) {
        Some(_) => Ok(()),
        None => values.set(name, value),
    }
}

impl Variables {
    /// The given values, of which the first of a name counts.
    pub(crate) fn new(alloc: Global, env: &[(String, String)]) -> Result<Variables, Memory>
        ensures { IfOk result (λ variables. HoldsVariables (given_pairs env.now) [] variables) }
    {
        let mut values = Scope::new(alloc);
        for (name, value) in env {
            set_first(&mut values, name.as_str(), value.as_str())?;
        }
        Ok(Variables {
            values,
            of_text: Names::new(alloc),
            marked: Names::new(alloc),
        })
    }

    /// Gives a variable this value, in place of the one that the text gave it or behind it, and
    /// marks its name or not.
    pub(crate) fn assign(
        &mut self,
        marks: bool,
        name: &str,
        appends: bool,
        value: &str,
    ) -> Result<(), Memory>
        ensures { OnOk result (Assigns self.old marks name.now appends value.now self.new) }
    {
        if appends && self.of_text.contains(name) {
            self.values.append(name, value)?;
        } else {
            self.values.set(name, value)?;
        }
        self.of_text.insert(name)?;
        if marks {
            self.marked.insert(name)?;
        }
        Ok(())
    }

    /// Marks names, or answers the first that has no value.
    pub(crate) fn mark(
        &mut self,
        alloc: Global,
        number: u32,
        names: &[Text],
    ) -> Result<(), MakeFault>
        ensures { MatchResult result
            (λ _. Marks self.old names.now self.new
            × (least (first_unknown (finite.get self.old.values) number names.now) ≡ None))
            (λ fault. Fails fault
            (refused (least (first_unknown (finite.get self.old.values) number names.now)))) }
    {
        for name in names {
            match self.mark_one(alloc, number, name.as_str()) {
                Ok(()) => {}
                Err(fault) => return Err(fault),
            }
        }
        Ok(())
    }

    fn mark_one(&mut self, alloc: Global, number: u32, name: &str) -> Result<(), MakeFault>
        ensures values { self.new.values ≡ self.old.values }
        ensures of_text { self.new.of_text ≡ self.old.of_text }
        ensures marked { MatchResult result
            (λ _. (self.new.marked ≡ finite.insert self.old.marked name.now tt)
            × (finite.contains_key self.old.values name.now ≡ true))
            (λ fault. Fails {Y = Unit {0}} fault (if finite.contains_key self.old.values name.now
            then Ok tt else Err (MakeFault.UnknownName number name.now))) }
    {
        match self.values.get(name) {
            Some(_) => match self.marked.insert(name) {
                Ok(()) => Ok(()),
                Err(_) => Err(MakeFault::Memory),
            },
            None => match Text::of(alloc, name) {
                Ok(name) => Err(MakeFault::UnknownName(number, name)),
                Err(_) => Err(MakeFault::Memory),
            },
        }
    }
}
