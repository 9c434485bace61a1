//! Functions of values.
ghost use Rattle.std.specs.Prelude.{◌≡◌, map};
ghost use Rattle.jx_meaning.specs.Answers.{Gives};
ghost use Rattle.jx_meaning.specs.Numbers.{Answer};
ghost use Rattle.jx_meaning.specs.Values.{plain};
ghost use Rattle.jx_meaning.specs.Operations.{applied};

use crate::formats::format_of;
use crate::joins::join_of;
use crate::measures::len_of;
use crate::names::Names;
use crate::ranges::range_of;
use crate::templates::template_of;
use jx_meaning::{EvalFault, Function};
use jx_syntax::JxValue;
use jx_values::Texts;
use std::alloc::Global;

#[tactic(auto, unfolding(jx_meaning::specs::Operations::applied))]
fn called<N: Names>(
    alloc: Global,
    function: Option<Function>,
    place: usize,
    names: &N,
    given: &[&JxValue],
) -> Result<JxValue, EvalFault>
    ensures { Gives plain result (applied function place (N.names names.now)
        (map (λ v. plain v.now) given.now)) }
{
    match function {
        Some(Function::Range) => range_of(alloc, place, given),
        Some(Function::Join) => join_of(alloc, place, given),
        Some(Function::Format) => format_of(alloc, place, given),
        Some(Function::Template) => template_of(alloc, place, names, given),
        Some(Function::Len) => len_of(place, given),
        None => Err(EvalFault::UnknownName(place)),
    }
}

// The answer, for which room is taken where it is a text.
fn counted(texts: &Texts, answer: Result<JxValue, EvalFault>) -> Result<JxValue, EvalFault>
    ensures { (a : Answer) → Gives plain answer a → Gives plain result a }
{
    match &answer {
        Ok(JxValue::Text(text)) => match texts.reserve(text.as_str().len()) {
            Ok(()) => answer,
            Err(_) => Err(EvalFault::Memory),
        },
        _ => answer,
    }
}

/// What a function comes to with these arguments, where these names have values. The arguments are
/// read and not taken.
pub fn applied<N: Names>(
    alloc: Global,
    texts: &Texts,
    function: Option<Function>,
    place: usize,
    names: &N,
    given: &[&JxValue],
) -> Result<JxValue, EvalFault>
    ensures { Gives plain result (applied function place (N.names names.now)
        (map (λ v. plain v.now) given.now)) }
{
    counted(texts, called(alloc, function, place, names, given))
}
