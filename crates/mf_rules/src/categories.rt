//! Categories, and the amounts that each states.
ghost use Rattle.std.specs.Prelude.{◌≡◌, ℕ, List, OnOk, IfOk, MatchResult};
ghost use Rattle.std.specs.Prelude.{◌&&◌, if◌then◌else◌, Some, None, []};
ghost use Rattle.std.specs.FinMap as finite;
ghost use Rattle.std.specs.Str.{bytes_eq};
ghost use Rattle.mf_forms.specs.declared.form.Resource.{Resource};
ghost use Rattle.mf_forms.specs.Forms.{or_else};
ghost use Rattle.mf_rules.specs.Categories.{is_same, resource_of, amount_in, needs_by};
ghost use Rattle.mf_text.specs.Answers.{Fails};
ghost use Rattle.mf_rules.specs.Faults.{least, setting_faults};
ghost use Rattle.mf_rules.specs.Progress.{HoldsCategories, Heeds, SetsAmount};
ghost use Rattle.mf_rules.specs.Progress.{amounts_of, set_by_variable, refused};

use crate::numbers::Numbers;
use flow_types::{Amounts, Memory, Needs, Text};
use mf_forms::{Resource, number_within};
use mf_text::MakeFault;
use std::alloc::Global;

/// The most of a resource that a category may state.
const MAX_AMOUNT: u64 = 1_000_000_000;

/// The current category, and the amounts of each category by its name.
#[derive(Drop)]
pub(crate) struct Categories {
    pub current: Text,
    pub cores: Numbers,
    pub memory: Numbers,
    pub disk: Numbers,
}

impl Categories {
    /// The category `default`, and no amounts.
    pub(crate) fn new(alloc: Global) -> Result<Categories, Memory>
        ensures { IfOk result (λ it. (env : List (List ℕ × List ℕ)) → HoldsCategories env [] it) }
    {
        let current = Text::of(alloc, "default")?;
        Ok(Categories {
            current,
            cores: Numbers::new(alloc),
            memory: Numbers::new(alloc),
            disk: Numbers::new(alloc),
        })
    }

    /// States an amount of the current category.
    pub(crate) fn state(&mut self, resource: Resource, amount: u32) -> Result<(), Memory>
        ensures amounts { OnOk result ((wanted : Resource) (name : List ℕ) →
            finite.get (amounts_of wanted self.new) name
            ≡ or_else (if is_same wanted resource && bytes_eq self.old.current name then Some amount
            else None) (finite.get (amounts_of wanted self.old) name)) }
        ensures current { OnOk result (self.new.current ≡ self.old.current) }
    {
        let current = self.current.as_str();
        match resource {
            Resource::Cores => self.cores.set(current, amount),
            Resource::Memory => self.memory.set(current, amount),
            Resource::Disk => self.disk.set(current, amount),
        }
    }

    /// States the amount of a text, or answers the fault of a line where it is none.
    pub(crate) fn set_amount(
        &mut self,
        number: u32,
        resource: Resource,
        text: &str,
    ) -> Result<(), MakeFault>
        ensures { MatchResult result
            (λ _. SetsAmount self.old resource text.now self.new
            × (least (setting_faults number (Some (resource, text.now))) ≡ None))
            (λ fault. Fails fault
            (refused (least (setting_faults number (Some (resource, text.now)))))) }
    {
        match amount_in(text) {
            Some(amount) => match self.state(resource, amount) {
                Ok(()) => Ok(()),
                Err(_) => Err(MakeFault::Memory),
            },
            None => Err(MakeFault::BadNumber(number)),
        }
    }

    /// Takes note of a variable's value: the current category, or an amount of it.
    pub(crate) fn heed(
        &mut self,
        alloc: Global,
        number: u32,
        name: &str,
        value: &str,
    ) -> Result<(), MakeFault>
        ensures { MatchResult result
            (λ _. Heeds self.old name.now value.now self.new
            × (least (setting_faults number (set_by_variable name.now value.now)) ≡ None))
            (λ fault. Fails fault
            (refused (least (setting_faults number (set_by_variable name.now value.now))))) }
    {
        if name == "CATEGORY" {
            return self.enter(alloc, value);
        }
        match resource_of(name) {
            Some(resource) => self.set_amount(number, resource, value),
            None => Ok(()),
        }
    }

    fn enter(&mut self, alloc: Global, category: &str) -> Result<(), MakeFault>
        ensures { MatchResult result
            (λ _. self.new ≡ record self.old { current = category.now })
            (λ fault. fault ≡ MakeFault.Memory) }
    {
        match Text::of(alloc, category) {
            Ok(category) => {
                self.current = category;
                Ok(())
            }
            Err(_) => Err(MakeFault::Memory),
        }
    }

    /// What the rules of a category need.
    pub(crate) fn needs(&self, category: &str) -> Needs
        ensures { result ≡ needs_by (finite.get self.now.cores category.now)
            (finite.get self.now.memory category.now) (finite.get self.now.disk category.now) }
    {
        let cores = self.cores.get(category);
        let memory = self.memory.get(category);
        let disk = self.disk.get(category);
        if cores.is_none() && memory.is_none() && disk.is_none() {
            return Needs::Whole;
        }
        Needs::Stated(Amounts {
            cores: cores.unwrap_or(1),
            memory: memory.unwrap_or(0),
            disk: disk.unwrap_or(0),
        })
    }
}

/// The resource of which a variable sets an amount.
pub(crate) fn resource_of(name: &str) -> Option<Resource>
    ensures { result ≡ resource_of name.now }
{
    match name {
        "CORES" => Some(Resource::Cores),
        "MEMORY" => Some(Resource::Memory),
        "DISK" => Some(Resource::Disk),
        _ => None,
    }
}

/// The amount that a text states.
pub(crate) fn amount_in(text: &str) -> Option<u32>
    ensures { result ≡ amount_in text.now }
{
    match number_within(MAX_AMOUNT, text) {
        Some(amount) => u32::try_from(amount).ok(),
        None => None,
    }
}
