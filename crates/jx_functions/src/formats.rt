//! Texts with marks in place of values.
ghost use Rattle.std.specs.Prelude.{◌≡◌, ◌≤◌, ◌++◌, List, ℕ, length, map, drop, true, false};
ghost use Rattle.std.specs.Prelude.{Some, IfOk};
ghost use Rattle.std.specs.Char.{encode_utf8};
ghost use Rattle.jx_meaning.specs.Answers.{Gives};
ghost use Rattle.jx_meaning.specs.Values.{Value, plain};
ghost use Rattle.jx_meaning.specs.Texts.{Piece, Mark, decimal, any, marked, formatted, made};
ghost use Rattle.jx_meaning.specs.Operations.{format_of};
ghost use Rattle.jx_functions.specs.Drafts.{finished, Continues};

use crate::draft::Draft;
use crate::shown::write_shown;
use jx_meaning::EvalFault;
use jx_syntax::JxValue;
use jx_values::{number_in, text_in};
use std::alloc::Global;

/// Writes the first of the values, which is a number, and tells that it took one.
#[tactic(auto, using(crate::proofs::Marks::marks))]
fn write_decimal(draft: &mut Draft, place: usize, values: &[&JxValue]) -> Result<usize, EvalFault>
    ensures within { IfOk result (λ taken. taken ≤ length values.now) }
    ensures text { (more : List Value → Piece) → Continues (λ taken. finished place draft.new
        (more (drop taken (map (λ v. plain v.now) values.now)))) result
        (finished place draft.old
        (marked place (Some decimal) (map (λ v. plain v.now) values.now) more)) }
{
    match values.split_first() {
        Some((first, _)) => match number_in(first) {
            Some(n) => {
                draft.add_number(n)?;
                Ok(1)
            }
            None => Err(EvalFault::WrongKind(place)),
        },
        None => Err(EvalFault::ArgCount(place)),
    }
}

/// Writes the first of the values, and tells that it took one.
#[tactic(auto, using(crate::proofs::Marks::marks))]
fn write_any(draft: &mut Draft, place: usize, values: &[&JxValue]) -> Result<usize, EvalFault>
    ensures within { IfOk result (λ taken. taken ≤ length values.now) }
    ensures text { (more : List Value → Piece) → Continues (λ taken. finished place draft.new
        (more (drop taken (map (λ v. plain v.now) values.now)))) result
        (finished place draft.old
        (marked place (Some any) (map (λ v. plain v.now) values.now) more)) }
{
    match values.split_first() {
        Some((first, _)) => {
            write_shown(draft, first)?;
            Ok(1)
        }
        None => Err(EvalFault::ArgCount(place)),
    }
}

/// Writes what this character behind a `%` stands for, and tells how many of the values it took.
#[tactic(auto, using(crate::proofs::Marks::marks))]
fn write_mark(
    draft: &mut Draft,
    place: usize,
    mark: char,
    values: &[&JxValue],
) -> Result<usize, EvalFault>
    ensures within { IfOk result (λ taken. taken ≤ length values.now) }
    ensures text { (rest : List ℕ) → Continues (λ taken. finished place draft.new
        (formatted false place rest (drop taken (map (λ v. plain v.now) values.now)))) result
        (finished place draft.old (formatted true place (encode_utf8 mark ++ rest)
        (map (λ v. plain v.now) values.now))) }
{
    match mark {
        '%' => {
            draft.add("%")?;
            Ok(0)
        }
        'd' => write_decimal(draft, place, values),
        'i' => write_decimal(draft, place, values),
        's' => write_any(draft, place, values),
        _ => Err(EvalFault::BadMark(place)),
    }
}

/// A text with its marks replaced by these values.
fn formatted(
    alloc: Global,
    place: usize,
    text: &str,
    values: &[&JxValue],
) -> Result<JxValue, EvalFault>
    ensures { Gives plain result (made place
        (formatted false place text.now (map (λ v. plain v.now) values.now))) }
{
    let mut draft = Draft::new(alloc);
    let mut used = 0;
    let mut behind_mark = false;
    for c in text.chars() {
        if behind_mark {
            let (_, left) = values.split_at(used);
            match write_mark(&mut draft, place, c, left) {
                Ok(taken) => used += taken,
                Err(fault) => return Err(fault),
            }
            behind_mark = false;
        } else if c == '%' {
            behind_mark = true;
        } else {
            draft.add_char(c)?;
        }
    }
    if behind_mark {
        return Err(EvalFault::BadMark(place));
    }
    if used < values.len() {
        return Err(EvalFault::ArgCount(place));
    }
    draft.into_value(place)
}

/// `format` of these arguments. It takes time and memory by the length of its text.
#[tactic(auto, using(crate::proofs::Calls::calls))]
pub fn format_of(alloc: Global, place: usize, given: &[&JxValue]) -> Result<JxValue, EvalFault>
    ensures { Gives plain result (format_of place (map (λ v. plain v.now) given.now)) }
{
    match given.split_first() {
        Some((first, values)) => match text_in(first) {
            Some(text) => formatted(alloc, place, text, values),
            None => Err(EvalFault::WrongKind(place)),
        },
        None => Err(EvalFault::ArgCount(place)),
    }
}
