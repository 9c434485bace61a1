//! Parts of lists and texts.
ghost use Rattle.std.specs.Prelude.{◌≡◌, ◌≤◌, ◌∷◌, ◌++◌, List, ℕ, length, take, drop, map};
ghost use Rattle.std.specs.Prelude.{flat_map, OnOk, IfOk, string_bytes, option_map, option_copied};
ghost use Rattle.std.specs.Char.{encode_utf8};
ghost use Rattle.std.specs.Str.{chars};
ghost use Rattle.jx_meaning.specs.Answers.{Gives};
ghost use Rattle.jx_meaning.specs.Values.{plain, values};
ghost use Rattle.jx_meaning.specs.Values as of;
ghost use Rattle.jx_meaning.specs.Lists.{limited, between, start_in, stop_in, sliced};
ghost use Rattle.jx_values.specs.Ends.{number_end};

use crate::copy::copied;
use crate::kinds::{items_in, number_in, text_in};
use crate::limits::{may_be_list, text_value};
use crate::parts::{char_count, end_in};
use crate::size::items_size;
use crate::texts::Texts;
use flow_types::{Memory, Rows, Text};
use jx_meaning::EvalFault;
use jx_syntax::JxValue;
use std::alloc::{AllocError, Global};

fn start_in(len: usize, start: Option<i64>) -> usize
    ensures value { result ≡ start_in len start }
    ensures within { result ≤ len }
{
    match start {
        Some(i) => end_in(len, i),
        None => 0,
    }
}

fn stop_in(len: usize, stop: Option<i64>) -> usize
    ensures value { result ≡ stop_in len stop }
    ensures within { result ≤ len }
{
    match stop {
        Some(i) => end_in(len, i),
        None => len,
    }
}

/// The items from one place up to another.
fn part_of(items: &[JxValue], from: usize, to: usize) -> &[JxValue]
    requires begins { from ≤ length items.now }
    requires stops { to ≤ length items.now }
    ensures { result.now ≡ between from to items.now }
{
    let (_, rest) = items.split_at(from);
    let (part, _) = rest.split_at(to.saturating_sub(from));
    part
}

fn copied_items(alloc: Global, texts: &Texts, items: &[JxValue]) -> Result<Rows<JxValue>, Memory>
    ensures { IfOk result (λ copies. copies ≡ items.now) }
{
    let mut copies = Rows::new(alloc);
    for item in items {
        let copy = copied(alloc, texts, item)?;
        if copies.push(copy).is_err() {
            return Err(Memory);
        }
    }
    Ok(copies)
}

fn list_value(
    alloc: Global,
    texts: &Texts,
    place: usize,
    part: &[JxValue],
) -> Result<JxValue, EvalFault>
    ensures { Gives plain result (limited place (of.list (values (map plain part.now)))) }
{
    if !may_be_list(part.len(), items_size(part).around()) {
        return Err(EvalFault::TooMuch(place));
    }
    let items = copied_items(alloc, texts, part)?;
    Ok(JxValue::List(items))
}

/// Passes over a character, or keeps it.
#[tactic(auto, using(crate::proofs::Cuts::kept))]
fn keep(out: &mut String, c: char, skip: &mut usize, left: &mut usize) -> Result<(), AllocError>
    ensures { (rest : List ℕ) → OnOk result (string_bytes out.new
        ++ flat_map encode_utf8 (take left.new (drop skip.new rest)) ≡ string_bytes out.old
        ++ flat_map encode_utf8 (take left.old (drop skip.old (c ∷ rest)))) }
{
    let passed = *skip;
    let wanted = *left;
    if passed > 0 {
        *skip = passed - 1;
        return Ok(());
    }
    if wanted == 0 {
        return Ok(());
    }
    *left = wanted - 1;
    out.push(c)?;
    Ok(())
}

/// So many characters of a text, behind so many others.
fn text_part(alloc: Global, text: &str, from: usize, len: usize) -> Result<Text, AllocError>
    ensures { IfOk result (λ t. t ≡ flat_map encode_utf8 (take len (drop from (chars text.now)))) }
{
    let mut out = String::new(alloc);
    let mut skip = from;
    let mut left = len;
    for c in text.chars() {
        keep(&mut out, c, &mut skip, &mut left)?;
    }
    Ok(Text::from_string(out))
}

/// An end of a slice, which is a number.
#[tactic(auto, using(crate::proofs::Plain::views))]
fn number_end(place: usize, end: Option<&JxValue>) -> Result<Option<i64>, EvalFault>
    ensures { Gives (λ n. n) result
        (number_end place (option_map plain (option_copied end.entry))) }
{
    match end {
        Some(value) => match number_in(value) {
            Some(n) => Ok(Some(n)),
            None => Err(EvalFault::WrongKind(place)),
        },
        None => Ok(None),
    }
}

/// A part of a list, or of a text by its characters.
#[tactic(auto, using(crate::proofs::Cuts::slices))]
pub fn sliced(
    alloc: Global,
    texts: &Texts,
    place: usize,
    value: &JxValue,
    start: Option<&JxValue>,
    stop: Option<&JxValue>,
) -> Result<JxValue, EvalFault>
    ensures { Gives plain result (sliced place (plain value.now)
        (option_map plain (option_copied start.entry))
        (option_map plain (option_copied stop.entry))) }
{
    let first = number_end(place, start)?;
    let last = number_end(place, stop)?;
    match items_in(value) {
        Some(items) => {
            let from = start_in(items.len(), first);
            let to = stop_in(items.len(), last);
            list_value(alloc, texts, place, part_of(items, from, to))
        }
        None => match text_in(value) {
            Some(text) => {
                let len = char_count(text);
                let from = start_in(len, first);
                let to = stop_in(len, last);
                let part = text_part(alloc, text, from, to.saturating_sub(from))?;
                texts.reserve(part.as_str().len())?;
                text_value(place, part)
            }
            None => Err(EvalFault::WrongKind(place)),
        },
    }
}
