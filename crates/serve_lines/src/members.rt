//! What the members of an object hold.
ghost use Rattle.std.specs.Prelude.{◌≡◌};
ghost use Rattle.serde_json.specs.Find.{get};
ghost use Rattle.serde_json.specs.View.{view, members_view};
ghost use Rattle.serve_lines.specs.Answers.{Gives};
ghost use Rattle.serve_lines.specs.Requests.{amount_in, amount_of, are_known, is_alone, is_amount};
ghost use Rattle.serve_lines.specs.Requests.{has_name_bytes, is_known, is_name_byte, is_plain};
ghost use Rattle.serve_lines.specs.Requests.{is_plain_byte, is_variable, is_work, members_of};
ghost use Rattle.serve_lines.specs.Requests.{named, number_of, place_of, places_in, text_of};
ghost use Rattle.serve_lines.specs.Requests.{variable_of, variables_in};

use crate::fault::{LineFault, Part, Refusal};
use crate::request::Place;
use flow_types::{Name, NameFault, Pair, Rows, Text};
use serde_json::{Map, Value};
use std::alloc::Global;

// Whether a byte may stand in a text: the system takes none that is 0.
fn is_plain_byte(byte: u8) -> bool
    ensures { result ≡ is_plain_byte byte }
{
    byte != 0
}

// Whether a byte may stand in the name of a variable.
fn is_name_byte(byte: u8) -> bool
    ensures { result ≡ is_name_byte byte }
{
    byte != 0 && byte != b'='
}

fn is_plain(text: &str) -> bool
    ensures { result ≡ is_plain text.now }
{
    text.as_bytes().iter().all(|byte| is_plain_byte(*byte))
}

fn has_name_bytes(name: &str) -> bool
    ensures { result ≡ has_name_bytes name.now }
{
    name.as_bytes().iter().all(|byte| is_name_byte(*byte))
}

// Whether a text may be the name of a variable.
fn is_variable(name: &str) -> bool
    ensures { result ≡ is_variable name.now }
{
    !name.is_empty() && has_name_bytes(name)
}

/// The text that a value is, which has no byte 0.
pub(crate) fn text_of(part: Part, value: &Value) -> Result<&str, LineFault>
    ensures { Gives (λ t. t.now) result (text_of part (view value.now)) }
{
    let Some(text) = value.as_str() else {
        return Err(LineFault::Refused(Refusal::Bad(part)));
    };
    if !is_plain(text) {
        return Err(LineFault::Refused(Refusal::Bad(part)));
    }
    Ok(text)
}

/// The number that a value is.
pub(crate) fn number_of(part: Part, value: &Value) -> Result<u64, LineFault>
    ensures { Gives (λ n. n) result (number_of part (view value.now)) }
{
    match value.as_u64() {
        Some(number) => Ok(number),
        None => Err(LineFault::Refused(Refusal::Bad(part))),
    }
}

// The number that a value is, where it isn't above the most.
fn amount_of(part: Part, most: u32, value: &Value) -> Result<u32, LineFault>
    ensures { Gives (λ n. n) result (amount_of part most (view value.now)) }
{
    let number = number_of(part, value)?;
    if number > u64::from(most) {
        return Err(LineFault::Refused(Refusal::Bad(part)));
    }
    Ok(number as u32)
}

/// The members of the object that a value is.
pub(crate) fn members_of(part: Part, value: &Value) -> Result<&Map<String, Value>, LineFault>
    ensures { Gives (λ m. members_view m.now.entries) result (members_of part (view value.now)) }
{
    match value.as_object() {
        Some(members) => Ok(members),
        None => Err(LineFault::Refused(Refusal::Bad(part))),
    }
}

/// The number of a member, where it is there.
pub(crate) fn amount_in(part: Part, most: u32, object: &Value) -> Result<Option<u32>, LineFault>
    ensures { Gives (λ n. n) result (amount_in part most (view object.now)) }
{
    match object.get(part.name()) {
        Some(value) => Ok(Some(amount_of(part, most, value)?)),
        None => Ok(None),
    }
}

// A variable by its name and its value.
fn variable_of(alloc: Global, key: &str, value: &Value) -> Result<Pair, LineFault>
    ensures { Gives (λ p. p) result (variable_of key.now (view value.now)) }
{
    if !is_variable(key) {
        return Err(LineFault::Refused(Refusal::Bad(Part::Env)));
    }
    let text = text_of(Part::Env, value)?;
    let name = Text::of(alloc, key)?;
    let value = Text::of(alloc, text)?;
    Ok(Pair { name, value })
}

/// A variable for each member, in the order of their keys.
pub(crate) fn variables_in(
    alloc: Global,
    members: &Map<String, Value>,
) -> Result<Rows<Pair>, LineFault>
    ensures { Gives (λ ps. ps) result (variables_in (members_view members.now.entries)) }
{
    let mut variables = Vec::new(alloc);
    for (key, value) in members.iter() {
        let variable = variable_of(alloc, key.as_str(), value)?;
        variables.push(variable)?;
    }
    Ok(Rows::of(variables))
}

// The name that a key is.
fn name_of(alloc: Global, part: Part, key: &str) -> Result<Name, LineFault>
    ensures { Gives (λ n. n) result (named part key.now) }
{
    match Name::of(alloc, key.as_bytes()) {
        Ok(name) => Ok(name),
        Err(NameFault::Bad) => Err(LineFault::Refused(Refusal::Bad(part))),
        Err(NameFault::Memory) => Err(LineFault::Memory),
    }
}

// A file by its name where the command runs, and its path here.
fn place_of(alloc: Global, part: Part, key: &str, value: &Value) -> Result<Place, LineFault>
    ensures { Gives (λ p. p) result (place_of part key.now (view value.now)) }
{
    let name = name_of(alloc, part, key)?;
    let text = text_of(part, value)?;
    let path = Text::of(alloc, text)?;
    Ok(Place { name, path })
}

/// A file for each member, in the order of their keys.
pub(crate) fn places_in(
    alloc: Global,
    part: Part,
    members: &Map<String, Value>,
) -> Result<Rows<Place>, LineFault>
    ensures { Gives (λ ps. ps) result (places_in part (members_view members.now.entries)) }
{
    let mut places = Vec::new(alloc);
    for (key, value) in members.iter() {
        let place = place_of(alloc, part, key.as_str(), value)?;
        places.push(place)?;
    }
    Ok(Rows::of(places))
}

// Whether a key says what is to be done.
fn is_work(key: &str) -> bool
    ensures { result ≡ is_work key.now }
{
    key == "submit" || key == "inputs" || key == "outputs" || key == "env"
}

// Whether a key says how much is taken.
fn is_amount(key: &str) -> bool
    ensures { result ≡ is_amount key.now }
{
    key == "bound" || key == "cores" || key == "memory" || key == "disk"
}

// Whether a key is one of a task's members.
fn is_known(key: &str) -> bool
    ensures { result ≡ is_known key.now }
{
    is_work(key) || is_amount(key)
}

/// Whether each key is one of a task's members.
pub(crate) fn are_known(members: &Map<String, Value>) -> bool
    ensures { result ≡ are_known (members_view members.now.entries) }
{
    for (key, _value) in members.iter() {
        if !is_known(key.as_str()) {
            return false;
        }
    }
    true
}

/// Whether there is one member at most.
#[tactic(auto, using(crate::proofs::Each::alone))]
pub(crate) fn is_alone(members: &Map<String, Value>) -> bool
    ensures { result ≡ is_alone (members_view members.now.entries) }
{
    members.len() <= 1
}
