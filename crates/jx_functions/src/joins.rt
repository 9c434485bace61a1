//! Texts with others between them.
ghost use Rattle.std.specs.Prelude.{◌≡◌, true, [], ◌∷◌, map, string_bytes, IfOk, is_some};
ghost use Rattle.jx_meaning.specs.Answers.{Gives};
ghost use Rattle.jx_meaning.specs.Values.{plain};
ghost use Rattle.jx_meaning.specs.Texts.{texts_of, join_texts};
ghost use Rattle.jx_meaning.specs.Operations.{join_of};
ghost use Rattle.jx_functions.specs.Pieces.{piece, AddsPiece};

use flow_types::Text;
use jx_meaning::EvalFault;
use jx_syntax::JxValue;
use jx_values::{MOST_BYTES, items_in, text_in, text_value};
use std::alloc::{AllocError, Global};

/// Whether all items are texts.
fn are_texts(items: &[JxValue]) -> bool
    ensures { result ≡ is_some (texts_of (map plain items.now)) }
{
    for item in items {
        match text_in(item) {
            Some(_text) => {}
            None => return false,
        }
    }
    true
}

/// Puts a text at the end, behind a separator where it isn't the first, unless that is too long.
fn add_piece(out: &mut String, first: bool, separator: &str, text: &str) -> Result<bool, AllocError>
    ensures { IfOk result (λ b. AddsPiece (string_bytes out.old)
        (piece first separator.now text.now) b (string_bytes out.new)) }
{
    let gap = if first { "" } else { separator };
    let len = out.len().saturating_add(gap.len());
    if len.saturating_add(text.len()) > MOST_BYTES {
        return Ok(false);
    }
    out.push_str(gap)?;
    out.push_str(text)?;
    Ok(true)
}

fn texts_joined(
    alloc: Global,
    place: usize,
    items: &[JxValue],
    separator: &str,
) -> Result<JxValue, EvalFault>
    requires { is_some (texts_of (map plain items.now)) ≡ true }
    ensures { Gives plain result
        (join_texts place separator.now (texts_of (map plain items.now))) }
{
    let mut out = String::new(alloc);
    let mut first = true;
    for item in items {
        match text_in(item) {
            Some(text) => {
                if !add_piece(&mut out, first, separator, text)? {
                    return Err(EvalFault::TooMuch(place));
                }
                first = false;
            }
            None => return Err(EvalFault::WrongKind(place)),
        }
    }
    text_value(place, Text::from_string(out))
}

/// The texts of a list, with this text between them.
pub fn join(
    alloc: Global,
    place: usize,
    items: &[JxValue],
    separator: &str,
) -> Result<JxValue, EvalFault>
    ensures { Gives plain result
        (join_texts place separator.now (texts_of (map plain items.now))) }
{
    if !are_texts(items) {
        return Err(EvalFault::WrongKind(place));
    }
    texts_joined(alloc, place, items, separator)
}

/// The texts of a list, with a blank between them.
#[tactic(auto, using(crate::proofs::Calls::calls))]
fn join_by_blank(alloc: Global, place: usize, list: &JxValue) -> Result<JxValue, EvalFault>
    ensures { Gives plain result (join_of place (plain list.now ∷ [])) }
{
    match items_in(list) {
        Some(items) => join(alloc, place, items, " "),
        None => Err(EvalFault::WrongKind(place)),
    }
}

/// The texts of a list, with another text between them.
#[tactic(auto, using(crate::proofs::Calls::calls))]
fn join_by(
    alloc: Global,
    place: usize,
    list: &JxValue,
    separator: &JxValue,
) -> Result<JxValue, EvalFault>
    ensures { Gives plain result (join_of place (plain list.now ∷ plain separator.now ∷ [])) }
{
    match items_in(list) {
        Some(items) => match text_in(separator) {
            Some(text) => join(alloc, place, items, text),
            None => Err(EvalFault::WrongKind(place)),
        },
        None => Err(EvalFault::WrongKind(place)),
    }
}

/// `join` of these arguments. It takes time and memory by the length of its text.
#[tactic(auto, using(crate::proofs::Calls::calls))]
pub fn join_of(alloc: Global, place: usize, given: &[&JxValue]) -> Result<JxValue, EvalFault>
    ensures { Gives plain result (join_of place (map (λ v. plain v.now) given.now)) }
{
    match given {
        [list] => join_by_blank(alloc, place, list),
        [list, separator] => join_by(alloc, place, list, separator),
        _ => Err(EvalFault::ArgCount(place)),
    }
}
