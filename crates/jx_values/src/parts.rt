//! Items and characters by their number.
ghost use Rattle.std.specs.Prelude.{◌≡◌, ◌≤◌, ◌-◌, ◌∷◌, ◌++◌, List, ℕ, length, take, drop, map};
ghost use Rattle.std.specs.Prelude.{slice_get, OnOk, string_bytes};
ghost use Rattle.std.specs.Str.{chars};
ghost use Rattle.jx_meaning.specs.Answers.{Gives};
ghost use Rattle.jx_meaning.specs.Values.{plain};
ghost use Rattle.jx_meaning.specs.Lists.{index_of, end_in, at_index, or_no_item, char_value};
ghost use Rattle.jx_meaning.specs.Lists.{indexed};

use crate::copy::copied;
use crate::equality::find;
use crate::kinds::{entries_in, items_in, number_in, text_in};
use crate::texts::Texts;
use flow_types::Text;
use jx_meaning::EvalFault;
use jx_syntax::JxValue;
use std::alloc::Global;

/// Which of so many items an index means. A negative one counts from the end.
fn index_of(len: usize, index: i64) -> Option<usize>
    ensures { result ≡ index_of len index }
{
    let distance = index.unsigned_abs() as usize;
    if index >= 0 {
        if distance < len {
            return Some(distance);
        }
        return None;
    }
    if distance <= len {
        Some(len - distance)
    } else {
        None
    }
}

/// Where an end of a slice of so many items lies. A negative one counts from the end.
pub fn end_in(len: usize, end: i64) -> usize
    ensures value { result ≡ end_in len end }
    ensures within { result ≤ len }
{
    let distance = end.unsigned_abs() as usize;
    if end >= 0 {
        distance.min(len)
    } else {
        len.saturating_sub(distance)
    }
}

/// The number of characters.
pub fn char_count(text: &str) -> usize
    ensures value { result ≡ length (chars text.now) }
    ensures within { result ≤ length text.now }
{
    let mut count = 0;
    for _c in text.chars() {
        count += 1;
    }
    count
}

/// The character with so many others before it.
pub fn char_at(text: &str, wanted: usize) -> Option<char>
    ensures { result ≡ slice_get (chars text.now) wanted }
{
    let mut at = 0;
    for c in text.chars() {
        if at == wanted {
            return Some(c);
        }
        at += 1;
    }
    None
}

#[tactic(auto, using(crate::proofs::Places::parts))]
fn item_at(
    alloc: Global,
    texts: &Texts,
    place: usize,
    items: &[JxValue],
    index: i64,
) -> Result<JxValue, EvalFault>
    ensures { Gives plain result (or_no_item place (at_index (map plain items.now) index)) }
{
    match index_of(items.len(), index) {
        Some(at) => match items.get(at) {
            Some(item) => {
                let copy = copied(alloc, texts, item)?;
                Ok(copy)
            }
            None => Err(EvalFault::IndexRange(place)),
        },
        None => Err(EvalFault::IndexRange(place)),
    }
}

#[tactic(auto, using(crate::proofs::Places::parts))]
fn character_at(
    alloc: Global,
    texts: &Texts,
    place: usize,
    text: &str,
    index: i64,
) -> Result<JxValue, EvalFault>
    ensures { Gives plain result (or_no_item place (char_value (at_index (chars text.now) index))) }
{
    match index_of(char_count(text), index) {
        Some(at) => match char_at(text, at) {
            Some(c) => {
                let mut bytes = String::new(alloc);
                bytes.push(c)?;
                texts.reserve(bytes.len())?;
                Ok(JxValue::Text(Text::from_string(bytes)))
            }
            None => Err(EvalFault::IndexRange(place)),
        },
        None => Err(EvalFault::IndexRange(place)),
    }
}

/// An item of a list or a character of a text by its number, or a value of an object by its key.
#[tactic(auto, using(crate::proofs::Places::indices))]
pub fn indexed(
    alloc: Global,
    texts: &Texts,
    place: usize,
    value: &JxValue,
    index: &JxValue,
) -> Result<JxValue, EvalFault>
    ensures { Gives plain result (indexed place (plain value.now) (plain index.now)) }
{
    match number_in(index) {
        Some(i) => match items_in(value) {
            Some(items) => item_at(alloc, texts, place, items, i),
            None => match text_in(value) {
                Some(text) => character_at(alloc, texts, place, text, i),
                None => Err(EvalFault::WrongKind(place)),
            },
        },
        None => match text_in(index) {
            Some(key) => match entries_in(value) {
                Some(pairs) => match find(pairs, key) {
                    Some(found) => {
                        let copy = copied(alloc, texts, found)?;
                        Ok(copy)
                    }
                    None => Err(EvalFault::NoSuchKey(place)),
                },
                None => Err(EvalFault::WrongKind(place)),
            },
            None => Err(EvalFault::WrongKind(place)),
        },
    }
}
