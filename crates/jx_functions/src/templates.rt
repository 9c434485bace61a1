//! Texts with names in place of values.
ghost use Rattle.std.specs.Prelude.{◌≡◌, ◌++◌, ◌∷◌, [], List, ℕ, map, Option, string_bytes};
ghost use Rattle.std.specs.Char.{encode_utf8};
ghost use Rattle.jx_meaning.specs.Answers.{Gives};
ghost use Rattle.jx_meaning.specs.Values.{Value, plain, find};
ghost use Rattle.jx_meaning.specs.Texts.{Piece, behind, named, filled, made};
ghost use Rattle.jx_meaning.specs.Texts.{outside, opened, naming, closed};
ghost use Rattle.jx_meaning.specs.Operations.{template_of};
ghost use Rattle.jx_functions.specs.Drafts.{finished, Continues};
ghost use Rattle.jx_functions.specs.Spots.{spot_of};

use crate::draft::Draft;
use crate::names::{KeysBefore, Names};
use crate::shown::write_shown;
use jx_meaning::EvalFault;
use jx_syntax::JxValue;
use jx_values::{entries_in, text_in};
use std::alloc::Global;

/// Where in a template a place lies.
#[derive(Clone, Copy, Debug, PartialEq, Eq)]
pub enum Spot {
    /// Outside of names.
    Outside,
    /// Right behind an opening brace.
    Opened,
    /// Within a name.
    Naming,
    /// Right behind a closing brace.
    Closed,
}

/// Writes the value of a name.
#[tactic(auto, using(crate::proofs::Filling::fillings))]
fn write_named<N: Names>(
    draft: &mut Draft,
    place: usize,
    names: &N,
    name: &str,
) -> Result<(), EvalFault>
    ensures { (more : Piece) → Continues (λ _. finished place draft.new more) result
        (finished place draft.old
        (behind (named place (find name.now (N.names names.now))) (λ _. more))) }
{
    match names.value(name) {
        Some(value) => {
            write_shown(draft, value)?;
            Ok(())
        }
        None => Err(EvalFault::UnknownName(place)),
    }
}

/// Reads a character outside of names.
#[tactic(auto, using(crate::proofs::Filling::fillings))]
fn read_outside(draft: &mut Draft, place: usize, c: char) -> Result<Spot, EvalFault>
    ensures { (look : List ℕ → Option Value) (name rest : List ℕ) → Continues
        (λ spot. finished place draft.new (filled place look (spot_of spot name) rest)) result
        (finished place draft.old (filled place look outside (encode_utf8 c ++ rest))) }
{
    match c {
        '{' => Ok(Spot::Opened),
        '}' => Ok(Spot::Closed),
        _ => {
            draft.add_char(c)?;
            Ok(Spot::Outside)
        }
    }
}

/// Reads a character right behind a closing brace.
#[tactic(auto, using(crate::proofs::Filling::fillings))]
fn read_closed(draft: &mut Draft, place: usize, c: char) -> Result<Spot, EvalFault>
    ensures { (look : List ℕ → Option Value) (name rest : List ℕ) → Continues
        (λ spot. finished place draft.new (filled place look (spot_of spot name) rest)) result
        (finished place draft.old (filled place look closed (encode_utf8 c ++ rest))) }
{
    match c {
        '}' => {
            draft.add("}")?;
            Ok(Spot::Outside)
        }
        _ => Err(EvalFault::BadMark(place)),
    }
}

/// Reads a character right behind an opening brace.
#[tactic(auto, using(crate::proofs::Filling::fillings))]
fn read_opened<N: Names>(
    draft: &mut Draft,
    name: &mut String,
    place: usize,
    names: &N,
    c: char,
) -> Result<Spot, EvalFault>
    ensures { (rest : List ℕ) → Continues (λ spot. finished place draft.new (filled place
        (λ x. find x (N.names names.now)) (spot_of spot (string_bytes name.new)) rest)) result
        (finished place draft.old (filled place (λ x. find x (N.names names.now)) opened
        (encode_utf8 c ++ rest))) }
{
    match c {
        '{' => {
            draft.add("{")?;
            Ok(Spot::Outside)
        }
        '}' => match write_named(draft, place, names, "") {
            Ok(()) => Ok(Spot::Outside),
            Err(fault) => Err(fault),
        },
        _ => {
            name.clear();
            name.push(c)?;
            Ok(Spot::Naming)
        }
    }
}

/// Reads a character within a name.
#[tactic(auto, using(crate::proofs::Filling::fillings))]
fn read_naming<N: Names>(
    draft: &mut Draft,
    name: &mut String,
    place: usize,
    names: &N,
    c: char,
) -> Result<Spot, EvalFault>
    ensures { (rest : List ℕ) → Continues (λ spot. finished place draft.new (filled place
        (λ x. find x (N.names names.now)) (spot_of spot (string_bytes name.new)) rest)) result
        (finished place draft.old (filled place (λ x. find x (N.names names.now))
        (naming (string_bytes name.old)) (encode_utf8 c ++ rest))) }
{
    match c {
        '{' => Err(EvalFault::BadMark(place)),
        '}' => match write_named(draft, place, names, name.as_str()) {
            Ok(()) => Ok(Spot::Outside),
            Err(fault) => Err(fault),
        },
        _ => {
            name.push(c)?;
            Ok(Spot::Naming)
        }
    }
}

/// Reads a character at a place, and tells what place follows.
fn read<N: Names>(
    draft: &mut Draft,
    name: &mut String,
    place: usize,
    names: &N,
    spot: Spot,
    c: char,
) -> Result<Spot, EvalFault>
    ensures { (rest : List ℕ) → Continues (λ spot. finished place draft.new (filled place
        (λ x. find x (N.names names.now)) (spot_of spot (string_bytes name.new)) rest)) result
        (finished place draft.old (filled place (λ x. find x (N.names names.now))
        (spot_of spot (string_bytes name.old)) (encode_utf8 c ++ rest))) }
{
    match spot {
        Spot::Outside => read_outside(draft, place, c),
        Spot::Opened => read_opened(draft, name, place, names, c),
        Spot::Naming => read_naming(draft, name, place, names, c),
        Spot::Closed => read_closed(draft, place, c),
    }
}

/// A template with its names replaced by their values.
fn filled<N: Names>(
    alloc: Global,
    place: usize,
    text: &str,
    names: &N,
) -> Result<JxValue, EvalFault>
    ensures { Gives plain result (made place (filled place
        (λ x. find x (N.names names.now)) outside text.now)) }
{
    let mut draft = Draft::new(alloc);
    let mut name = String::new(alloc);
    let mut spot = Spot::Outside;
    for c in text.chars() {
        match read(&mut draft, &mut name, place, names, spot, c) {
            Ok(next) => spot = next,
            Err(fault) => return Err(fault),
        }
    }
    match spot {
        Spot::Outside => draft.into_value(place),
        _ => Err(EvalFault::BadMark(place)),
    }
}

/// The template that a value is, filled by these names.
#[tactic(auto, using(crate::proofs::Calls::calls))]
fn filled_by<N: Names>(
    alloc: Global,
    place: usize,
    names: &N,
    template: &JxValue,
) -> Result<JxValue, EvalFault>
    ensures { Gives plain result (template_of place (N.names names.now) (plain template.now ∷ [])) }
{
    match text_in(template) {
        Some(text) => filled(alloc, place, text, names),
        None => Err(EvalFault::WrongKind(place)),
    }
}

/// The template that a value is, filled by the keys of an object before other names.
#[tactic(auto, using(crate::proofs::Calls::calls))]
fn filled_with<N: Names>(
    alloc: Global,
    place: usize,
    names: &N,
    template: &JxValue,
    object: &JxValue,
) -> Result<JxValue, EvalFault>
    ensures { Gives plain result (template_of place (N.names names.now)
        (plain template.now ∷ plain object.now ∷ [])) }
{
    match text_in(template) {
        Some(text) => match entries_in(object) {
            Some(pairs) => filled(alloc, place, text, &KeysBefore { pairs, names }),
            None => Err(EvalFault::WrongKind(place)),
        },
        None => Err(EvalFault::WrongKind(place)),
    }
}

/// `template` of these arguments, by these names. It takes time and memory by the length of its
/// text and of the values that it names.
#[tactic(auto, using(crate::proofs::Calls::calls))]
pub fn template_of<N: Names>(
    alloc: Global,
    place: usize,
    names: &N,
    given: &[&JxValue],
) -> Result<JxValue, EvalFault>
    ensures { Gives plain result (template_of place (N.names names.now)
        (map (λ v. plain v.now) given.now)) }
{
    match given {
        [template] => filled_by(alloc, place, names, template),
        [template, object] => filled_with(alloc, place, names, template, object),
        _ => Err(EvalFault::ArgCount(place)),
    }
}
