//! Environments.
ghost use Rattle.std.specs.Prelude.{◌≡◌, ◌++◌, ◌+◌, ◌≤◌, map, filter, length};
ghost use Rattle.std.specs.Prelude.{option_map, option_copied, is_some, not};
ghost use Rattle.std.specs.Prelude.{nat_lt, unwrap_or, if◌then◌else◌, IfOk};
ghost use Rattle.flow_types.specs.Plans.{env_bytes};
ghost use Rattle.jx_meaning.specs.Values.{plain};
ghost use Rattle.jx_values.specs.Kinds.{plain_pair};
ghost use Rattle.jx_flow.specs.Answers.{Gives};
ghost use Rattle.jx_flow.specs.Reading.{each};
ghost use Rattle.jx_flow.specs.Variables.{variable_of, variables_by, value_in};
ghost use Rattle.jx_flow.specs.Variables.{replaced_by, is_new, overlaid};
ghost use Rattle.jx_flow.specs.Variables.{fitting, environment_of};

use crate::fault::JxFlowFault;
use crate::reading::{entries_of, text_of};
use flow_types::{Memory, Pair, Rows, Text};
use jx_syntax::{JxPair, JxValue};
use std::alloc::Global;

/// The most bytes of a rule's environment, with 8 more a pair, and of its command.
pub(crate) const MOST_BYTES: usize = 1_048_576;

fn variable_of(alloc: Global, rule: Option<u32>, pair: &JxPair) -> Result<Pair, JxFlowFault>
    ensures { Gives (λ p. p) result (variable_of rule (plain_pair pair.now)) }
{
    let text = text_of(alloc, rule, pair.key.as_str(), &pair.value)?;
    let value = Text::of(alloc, text)?;
    let name = pair.key.copy(alloc)?;
    Ok(Pair { name, value })
}

fn all_variables(
    alloc: Global,
    rule: Option<u32>,
    pairs: &[JxPair],
) -> Result<Rows<Pair>, JxFlowFault>
    ensures { Gives (λ ps. ps) result (each (variable_of rule) (map plain_pair pairs.now)) }
{
    let mut variables = Vec::new(alloc);
    for pair in pairs {
        let variable = variable_of(alloc, rule, pair)?;
        variables.push(variable)?;
    }
    Ok(Rows::of(variables))
}

/// The variables that the field `environment` holds, none where it isn't there.
pub(crate) fn variables_of(
    alloc: Global,
    rule: Option<u32>,
    value: Option<&JxValue>,
) -> Result<Rows<Pair>, JxFlowFault>
    ensures { Gives (λ ps. ps) result
        (variables_by rule (option_map plain (option_copied value.entry))) }
{
    match value {
        Some(value) => {
            let pairs = entries_of(alloc, rule, "environment", value)?;
            all_variables(alloc, rule, pairs)
        }
        None => Ok(Rows::new(alloc)),
    }
}

fn value_in<'a>(name: &str, pairs: &'a [Pair]) -> Option<&'a Text>
    ensures { option_copied result ≡ value_in name.now pairs.now }
{
    for pair in pairs {
        if pair.name.as_str() == name {
            return Some(&pair.value);
        }
    }
    None
}

// A variable with the rule's own value, where it has one.
fn replaced_by(alloc: Global, own: &[Pair], pair: &Pair) -> Result<Pair, Memory>
    ensures { IfOk result (λ p. p ≡ replaced_by own.now pair.now) }
{
    let value = match value_in(pair.name.as_str(), own) {
        Some(value) => value.copy(alloc)?,
        None => pair.value.copy(alloc)?,
    };
    let name = pair.name.copy(alloc)?;
    Ok(Pair { name, value })
}

fn all_replaced(alloc: Global, own: &[Pair], general: &[Pair]) -> Result<Vec<Pair>, Memory>
    ensures { IfOk result (λ ps. ps.items ≡ map (replaced_by own.now) general.now) }
{
    let mut pairs = Vec::new(alloc);
    for pair in general {
        let pair = replaced_by(alloc, own, pair)?;
        if pairs.push(pair).is_err() {
            return Err(Memory);
        }
    }
    Ok(pairs)
}

/// A rule's own variables over those of all rules.
fn overlaid(alloc: Global, own: Rows<Pair>, general: &[Pair]) -> Result<Rows<Pair>, Memory>
    ensures { IfOk result (λ ps. ps ≡ overlaid own general.now) }
{
    let mut pairs = all_replaced(alloc, own.as_slice(), general)?;
    for pair in own.into_vec() {
        if value_in(pair.name.as_str(), general).is_none() {
            if pairs.push(pair).is_err() {
                return Err(Memory);
            }
        }
    }
    Ok(Rows::of(pairs))
}

// The bytes of an environment with one pair more, none where it passes the limit.
fn total_size(size: usize, name: &str, value: &str) -> Option<usize>
    requires { size ≤ 1048576 }
    ensures { result ≡ (if nat_lt 1048576 (size + (length name.now + length value.now + 8))
        then None else Some (size + (length name.now + length value.now + 8))) }
{
    let more = name.len().saturating_add(value.len()).saturating_add(8);
    let total = size.saturating_add(more);
    if total > MOST_BYTES {
        return None;
    }
    Some(total)
}

fn passes_limit(pairs: &[Pair]) -> bool
    ensures { result ≡ nat_lt 1048576 (env_bytes pairs.now) }
{
    let mut size: usize = 0;
    for pair in pairs {
        match total_size(size, pair.name.as_str(), pair.value.as_str()) {
            Some(total) => size = total,
            None => return true,
        }
    }
    false
}

/// The environment of a rule, over the variables of all rules.
pub(crate) fn environment_of(
    alloc: Global,
    rule: Option<u32>,
    general: &[Pair],
    value: Option<&JxValue>,
) -> Result<Rows<Pair>, JxFlowFault>
    ensures { Gives (λ ps. ps) result
        (environment_of rule general.now (option_map plain (option_copied value.entry))) }
{
    let own = variables_of(alloc, rule, value)?;
    let pairs = overlaid(alloc, own, general)?;
    if passes_limit(pairs.as_slice()) {
        return Err(JxFlowFault::TooLarge(MOST_BYTES as u64));
    }
    Ok(pairs)
}
