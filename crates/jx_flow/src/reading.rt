//! What the fields of an object hold.
ghost use Rattle.std.specs.Prelude.{◌≡◌, map, option_map, option_copied, option_and_then};
ghost use Rattle.jx_meaning.specs.Values.{plain, find};
ghost use Rattle.jx_values.specs.Kinds.{plain_pair, number_in};
ghost use Rattle.jx_flow.specs.declared.fault.JxFlowFault.TheVariants.{MissingField, FieldKind};
ghost use Rattle.jx_flow.specs.Answers.{FailsAs, Gives};
ghost use Rattle.jx_flow.specs.Reading.{text_of, truth_of, items_of, entries_of, up_to, number_of};
ghost use Rattle.jx_flow.specs.Reading.{optional_text, required_text, optional_number};

use crate::fault::JxFlowFault;
use flow_types::Text;
use jx_syntax::{JxPair, JxValue};
use jx_values::{entries_in, find, items_in, number_in, text_in, truth_in};
use std::alloc::Global;

/// The fault that a field isn't there.
pub(crate) fn missing(alloc: Global, rule: Option<u32>, name: &str) -> JxFlowFault
    ensures { FailsAs result (MissingField rule name.now) }
{
    match Text::of(alloc, name) {
        Ok(field) => JxFlowFault::MissingField { rule, field },
        Err(_) => JxFlowFault::Memory,
    }
}

/// The fault that a field holds a value of another kind.
pub(crate) fn bad(alloc: Global, rule: Option<u32>, name: &str) -> JxFlowFault
    ensures { FailsAs result (FieldKind rule name.now) }
{
    match Text::of(alloc, name) {
        Ok(field) => JxFlowFault::FieldKind { rule, field },
        Err(_) => JxFlowFault::Memory,
    }
}

/// The text that a field holds.
pub(crate) fn text_of<'a>(
    alloc: Global,
    rule: Option<u32>,
    name: &str,
    value: &'a JxValue,
) -> Result<&'a str, JxFlowFault>
    ensures { Gives (λ t. t.now) result (text_of rule name.now (plain value.now)) }
{
    match text_in(value) {
        Some(text) => Ok(text),
        None => Err(bad(alloc, rule, name)),
    }
}

/// The truth value that a field holds.
pub(crate) fn truth_of(
    alloc: Global,
    rule: Option<u32>,
    name: &str,
    value: &JxValue,
) -> Result<bool, JxFlowFault>
    ensures { Gives (λ t. t) result (truth_of rule name.now (plain value.now)) }
{
    match truth_in(value) {
        Some(truth) => Ok(truth),
        None => Err(bad(alloc, rule, name)),
    }
}

/// The items of the list that a field holds.
pub(crate) fn items_of<'a>(
    alloc: Global,
    rule: Option<u32>,
    name: &str,
    value: &'a JxValue,
) -> Result<&'a [JxValue], JxFlowFault>
    ensures { Gives (λ items. map plain items.now) result
        (items_of rule name.now (plain value.now)) }
{
    match items_in(value) {
        Some(items) => Ok(items),
        None => Err(bad(alloc, rule, name)),
    }
}

/// The pairs of the object that a field holds.
pub(crate) fn entries_of<'a>(
    alloc: Global,
    rule: Option<u32>,
    name: &str,
    value: &'a JxValue,
) -> Result<&'a [JxPair], JxFlowFault>
    ensures { Gives (λ pairs. map plain_pair pairs.now) result
        (entries_of rule name.now (plain value.now)) }
{
    match entries_in(value) {
        Some(pairs) => Ok(pairs),
        None => Err(bad(alloc, rule, name)),
    }
}

/// The whole number that a value is, where it lies between 0 and the most.
fn up_to(most: u32, value: &JxValue) -> Option<u32>
    ensures { result ≡ option_and_then (up_to most) (number_in (plain value.now)) }
{
    match number_in(value) {
        Some(number) => match u32::try_from(number) {
            Ok(number) if number <= most => Some(number),
            _ => None,
        },
        None => None,
    }
}

/// The text of a key, where the object has it.
pub(crate) fn optional_text(
    alloc: Global,
    rule: Option<u32>,
    name: &str,
    pairs: &[JxPair],
) -> Result<Option<Text>, JxFlowFault>
    ensures { Gives (λ t. t) result
        (optional_text rule name.now (map plain_pair pairs.now)) }
{
    match find(pairs, name) {
        Some(value) => {
            let text = text_of(alloc, rule, name, value)?;
            Ok(Some(Text::of(alloc, text)?))
        }
        None => Ok(None),
    }
}

/// The text of a key, which the object must have.
pub(crate) fn required_text(
    alloc: Global,
    rule: Option<u32>,
    name: &str,
    pairs: &[JxPair],
) -> Result<Text, JxFlowFault>
    ensures { Gives (λ t. t) result (required_text rule name.now (map plain_pair pairs.now)) }
{
    match find(pairs, name) {
        Some(value) => {
            let text = text_of(alloc, rule, name, value)?;
            Ok(Text::of(alloc, text)?)
        }
        None => Err(missing(alloc, rule, name)),
    }
}

/// The number of a key from 0 to the most, where the object has it.
pub(crate) fn optional_number(
    alloc: Global,
    rule: Option<u32>,
    name: &str,
    most: u32,
    pairs: &[JxPair],
) -> Result<Option<u32>, JxFlowFault>
    ensures { Gives (λ n. n) result
        (optional_number rule name.now most (map plain_pair pairs.now)) }
{
    match find(pairs, name) {
        Some(value) => match up_to(most, value) {
            Some(number) => Ok(Some(number)),
            None => Err(bad(alloc, rule, name)),
        },
        None => Ok(None),
    }
}
