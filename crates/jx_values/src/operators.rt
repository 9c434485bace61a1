//! Operators on two values.
ghost use Rattle.std.specs.Prelude.{◌≡◌, ◌++◌, map};
ghost use Rattle.jx_meaning.specs.Answers.{Gives};
ghost use Rattle.jx_meaning.specs.Values.{plain, values};
ghost use Rattle.jx_meaning.specs.Values as of;
ghost use Rattle.jx_meaning.specs.Lists.{limited};
ghost use Rattle.jx_meaning.specs.Operations.{operated, added, calculated, in_order};

use crate::copy::copied;
use crate::equality::are_equal;
use crate::kinds::number_in;
use crate::limits::{MOST_BYTES, may_be_list};
use crate::numbers::arithmetic;
use crate::order::compared;
use crate::size::items_size;
use crate::texts::Texts;
use flow_types::{Rows, Text};
use jx_meaning::EvalFault;
use jx_syntax::{JxValue, Operator};
use std::alloc::Global;

/// Two numbers under an operator, as values.
#[tactic(auto, using(crate::proofs::Calculation::operators))]
fn calculated(o: Operator, place: usize, a: &JxValue, b: &JxValue) -> Result<JxValue, EvalFault>
    ensures { Gives plain result (calculated o place (plain a.now) (plain b.now)) }
{
    match number_in(a) {
        Some(x) => match number_in(b) {
            Some(y) => {
                let n = arithmetic(o, place, x, y)?;
                Ok(JxValue::Number(n))
            }
            None => Err(EvalFault::WrongKind(place)),
        },
        None => Err(EvalFault::WrongKind(place)),
    }
}

#[tactic(auto, using(crate::proofs::Sums::sums))]
fn added_to_text(texts: &Texts, place: usize, x: Text, b: JxValue) -> Result<JxValue, EvalFault>
    ensures { Gives plain result (added place (of.text x) (plain b)) }
{
    match b {
        JxValue::Text(y) => joined_texts(texts, place, x, y),
        _ => Err(EvalFault::WrongKind(place)),
    }
}

#[tactic(auto, using(crate::proofs::Sums::sums))]
fn added_to_list(place: usize, xs: Rows<JxValue>, b: JxValue) -> Result<JxValue, EvalFault>
    ensures { Gives plain result (added place (of.list (values (map plain xs))) (plain b)) }
{
    match b {
        JxValue::List(ys) => joined_lists(place, xs, ys),
        _ => Err(EvalFault::WrongKind(place)),
    }
}

/// Two texts or two lists, one behind the other, or the sum of two numbers. Of two texts the first is
/// built on, and room is taken for the second.
#[tactic(auto, using(crate::proofs::Sums::sums))]
pub fn added(texts: &Texts, place: usize, a: JxValue, b: JxValue) -> Result<JxValue, EvalFault>
    ensures { Gives plain result (added place (plain a) (plain b)) }
{
    match a {
        JxValue::Number(x) => match number_in(&b) {
            Some(y) => {
                let n = arithmetic(Operator::Add, place, x, y)?;
                Ok(JxValue::Number(n))
            }
            None => Err(EvalFault::WrongKind(place)),
        },
        JxValue::Text(x) => added_to_text(texts, place, x, b),
        JxValue::List(xs) => added_to_list(place, xs, b),
        _ => Err(EvalFault::WrongKind(place)),
    }
}

fn joined_texts(texts: &Texts, place: usize, x: Text, y: Text) -> Result<JxValue, EvalFault>
    ensures { Gives plain result (limited place (of.text (x ++ y))) }
{
    let mut bytes = x.into_string();
    if bytes.len() + y.as_str().len() > MOST_BYTES {
        return Err(EvalFault::TooMuch(place));
    }
    texts.reserve(y.as_str().len())?;
    bytes.push_str(y.as_str())?;
    Ok(JxValue::Text(Text::from_string(bytes)))
}

fn joined_lists(place: usize, xs: Rows<JxValue>, ys: Rows<JxValue>) -> Result<JxValue, EvalFault>
    ensures { Gives plain result (limited place (of.list (values (map plain xs ++ map plain ys)))) }
{
    let inside = items_size(xs.as_slice()).beside(items_size(ys.as_slice()));
    if !may_be_list(xs.len() + ys.len(), inside.around()) {
        return Err(EvalFault::TooMuch(place));
    }
    let mut items = xs.into_vec();
    let mut more = ys.into_vec();
    items.append(&mut more)?;
    Ok(JxValue::List(Rows::of(items)))
}

/// An operator that takes both its operands.
#[tactic(auto, using(crate::proofs::Calculation::operators), unfolding(jx_meaning::specs::Operations::operated))]
pub fn operated(
    alloc: Global,
    texts: &Texts,
    o: Operator,
    place: usize,
    a: &JxValue,
    b: &JxValue,
) -> Result<JxValue, EvalFault>
    ensures { Gives plain result (operated o place (plain a.now) (plain b.now)) }
{
    match o {
        Operator::Equal => Ok(JxValue::Truth(are_equal(a, b))),
        Operator::Unequal => Ok(JxValue::Truth(!are_equal(a, b))),
        Operator::Less => match compared(a, b) {
            Some(order) => Ok(JxValue::Truth(order.is_lt())),
            None => Err(EvalFault::WrongKind(place)),
        },
        Operator::AtMost => match compared(a, b) {
            Some(order) => Ok(JxValue::Truth(order.is_le())),
            None => Err(EvalFault::WrongKind(place)),
        },
        Operator::More => match compared(a, b) {
            Some(order) => Ok(JxValue::Truth(order.is_gt())),
            None => Err(EvalFault::WrongKind(place)),
        },
        Operator::AtLeast => match compared(a, b) {
            Some(order) => Ok(JxValue::Truth(order.is_ge())),
            None => Err(EvalFault::WrongKind(place)),
        },
        Operator::Add => added(
            texts,
            place,
            copied(alloc, texts, a)?,
            copied(alloc, texts, b)?,
        ),
        _ => calculated(o, place, a, b),
    }
}
