//! Amounts of resources, and categories.
ghost use Rattle.std.specs.Prelude.{◌≡◌, map, option_map, option_copied};
ghost use Rattle.jx_meaning.specs.Values.{plain};
ghost use Rattle.jx_values.specs.Kinds.{plain_pair};
ghost use Rattle.jx_flow.specs.Answers.{Gives};
ghost use Rattle.jx_flow.specs.Reading.{each};
ghost use Rattle.jx_flow.specs.Amounts.{amounts_in, resources_of, or_general};
ghost use Rattle.jx_flow.specs.Amounts.{over, needs_of, category_of};
ghost use Rattle.jx_flow.specs.Amounts.{categories_by, listed, general_of, unstated};

use crate::fault::JxFlowFault;
use crate::reading::{entries_of, optional_number};
use flow_types::{Amounts, Needs, Rows, Text};
use jx_syntax::{JxPair, JxValue};
use jx_values::find;
use std::alloc::Global;

const MOST: u32 = 1_000_000_000;

/// The amounts that are stated.
#[derive(Clone, Copy)]
pub(crate) struct Resources {
    pub(crate) cores: Option<u32>,
    pub(crate) memory: Option<u32>,
    pub(crate) disk: Option<u32>,
}

/// A category and its amounts.
#[derive(Drop)]
pub(crate) struct Category {
    pub(crate) name: Text,
    pub(crate) resources: Resources,
}

fn unstated() -> Resources
    ensures { result ≡ unstated }
{
    Resources {
        cores: None,
        memory: None,
        disk: None,
    }
}

fn amounts_in(alloc: Global, rule: Option<u32>, pairs: &[JxPair]) -> Result<Resources, JxFlowFault>
    ensures { Gives (λ r. r) result (amounts_in rule (map plain_pair pairs.now)) }
{
    let cores = optional_number(alloc, rule, "cores", MOST, pairs)?;
    let memory = optional_number(alloc, rule, "memory", MOST, pairs)?;
    let disk = optional_number(alloc, rule, "disk", MOST, pairs)?;
    Ok(Resources {
        cores,
        memory,
        disk,
    })
}

/// The amounts of the field `resources`, none where it isn't there.
pub(crate) fn resources_of(
    alloc: Global,
    rule: Option<u32>,
    pairs: &[JxPair],
) -> Result<Resources, JxFlowFault>
    ensures { Gives (λ r. r) result (resources_of rule (map plain_pair pairs.now)) }
{
    match find(pairs, "resources") {
        Some(value) => {
            let pairs = entries_of(alloc, rule, "resources", value)?;
            amounts_in(alloc, rule, pairs)
        }
        None => Ok(unstated()),
    }
}

fn or_general(own: Option<u32>, general: Option<u32>) -> Option<u32>
    ensures { result ≡ or_general own general }
{
    match own {
        Some(amount) => Some(amount),
        None => general,
    }
}

impl Resources {
    /// These amounts over those of a category.
    pub(crate) fn over(self, general: Resources) -> Resources
        ensures { result ≡ over self general }
    {
        Resources {
            cores: or_general(self.cores, general.cores),
            memory: or_general(self.memory, general.memory),
            disk: or_general(self.disk, general.disk),
        }
    }

    /// What a rule with these amounts needs.
    pub(crate) fn needs(self) -> Needs
        ensures { result ≡ needs_of self }
    {
        if self.cores.is_none() && self.memory.is_none() && self.disk.is_none() {
            return Needs::Whole;
        }
        Needs::Stated(Amounts {
            cores: self.cores.unwrap_or(1),
            memory: self.memory.unwrap_or(0),
            disk: self.disk.unwrap_or(0),
        })
    }
}

fn category_of(alloc: Global, pair: &JxPair) -> Result<Category, JxFlowFault>
    ensures { Gives (λ c. c) result (category_of (plain_pair pair.now)) }
{
    let pairs = entries_of(alloc, None, pair.key.as_str(), &pair.value)?;
    let resources = resources_of(alloc, None, pairs)?;
    let name = pair.key.copy(alloc)?;
    Ok(Category { name, resources })
}

fn all_categories(alloc: Global, pairs: &[JxPair]) -> Result<Rows<Category>, JxFlowFault>
    ensures { Gives (λ cs. cs) result (each category_of (map plain_pair pairs.now)) }
{
    let mut categories = Vec::new(alloc);
    for pair in pairs {
        let category = category_of(alloc, pair)?;
        categories.push(category)?;
    }
    Ok(Rows::of(categories))
}

/// The categories that the field `categories` holds, none where it isn't there.
pub(crate) fn categories_of(
    alloc: Global,
    value: Option<&JxValue>,
) -> Result<Rows<Category>, JxFlowFault>
    ensures { Gives (λ cs. cs) result
        (categories_by (option_map plain (option_copied value.entry))) }
{
    match value {
        Some(value) => {
            let pairs = entries_of(alloc, None, "categories", value)?;
            all_categories(alloc, pairs)
        }
        None => Ok(Rows::new(alloc)),
    }
}

fn listed(categories: &[Category], name: &str) -> Option<Resources>
    ensures { result ≡ listed name.now categories.now }
{
    for category in categories {
        if category.name.as_str() == name {
            return Some(category.resources);
        }
    }
    None
}

/// The amounts of a rule's category. The category `default` is always there.
pub(crate) fn general_of(
    rule: u32,
    name: &str,
    categories: &[Category],
) -> Result<Resources, JxFlowFault>
    ensures { Gives (λ r. r) result (general_of rule name.now categories.now) }
{
    match listed(categories, name) {
        Some(resources) => Ok(resources),
        None => {
            if name == "default" {
                Ok(unstated())
            } else {
                Err(JxFlowFault::UnknownCategory(rule))
            }
        }
    }
}
