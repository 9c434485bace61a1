//! Lists of numbers in steps.
ghost use Rattle.std.specs.Prelude.{◌≡◌, ◌-ℤ◌, false, map, [], ◌∷◌};
ghost use Rattle.jx_meaning.specs.Answers.{Gives};
ghost use Rattle.jx_meaning.specs.Values.{plain};
ghost use Rattle.jx_meaning.specs.Numbers.{is_zero, whole, range_len, ranged};
ghost use Rattle.jx_meaning.specs.Operations.{range_of};

use flow_types::Rows;
use jx_meaning::EvalFault;
use jx_syntax::JxValue;
use jx_values::{MOST_ITEMS, number_in};
use std::alloc::{AllocError, Global};

/// How far a number lies above another one, and 0 where it doesn't.
fn distance(from: i64, to: i64) -> u64
    ensures { result ≡ whole (to -ℤ from) }
{
    if from < to { to.abs_diff(from) } else { 0 }
}

/// How many numbers go from a first one in steps of this size and stop before the end.
#[tactic(auto, using(crate::proofs::Ranging::ranges))]
fn range_len(first: i64, end: i64, step: i64) -> u64
    requires { is_zero step ≡ false }
    ensures { result ≡ range_len first end step }
{
    let size = step.unsigned_abs();
    if step > 0 {
        distance(first, end).div_ceil(size)
    } else {
        distance(end, first).div_ceil(size)
    }
}

/// The numbers from a first one in steps of this size that stand before the end.
fn ranged(
    alloc: Global,
    place: usize,
    first: i64,
    end: i64,
    step: i64,
) -> Result<JxValue, EvalFault>
    ensures { Gives plain result (ranged place first end step) }
{
    if step == 0 {
        return Err(EvalFault::ZeroDivisor(place));
    }
    let len = range_len(first, end, step);
    if len > MOST_ITEMS as u64 {
        return Err(EvalFault::TooMuch(place));
    }
    let mut items = Vec::new(alloc);
    let mut next = first;
    for _ in 0..len {
        items.push(JxValue::Number(next))?;
        next = next.saturating_add(step);
    }
    Ok(JxValue::List(Rows::of(items)))
}

/// The numbers from 0 on before the end.
#[tactic(auto, using(crate::proofs::Calls::calls))]
fn range_to(alloc: Global, place: usize, end: &JxValue) -> Result<JxValue, EvalFault>
    ensures { Gives plain result (range_of place (plain end.now ∷ [])) }
{
    match number_in(end) {
        Some(end) => ranged(alloc, place, 0, end, 1),
        None => Err(EvalFault::WrongKind(place)),
    }
}

/// The numbers from a first one on before the end.
#[tactic(auto, using(crate::proofs::Calls::calls))]
fn range_between(
    alloc: Global,
    place: usize,
    first: &JxValue,
    end: &JxValue,
) -> Result<JxValue, EvalFault>
    ensures { Gives plain result (range_of place (plain first.now ∷ plain end.now ∷ [])) }
{
    match number_in(first) {
        Some(first) => match number_in(end) {
            Some(end) => ranged(alloc, place, first, end, 1),
            None => Err(EvalFault::WrongKind(place)),
        },
        None => Err(EvalFault::WrongKind(place)),
    }
}

/// The numbers from a first one in steps before the end.
#[tactic(auto, using(crate::proofs::Calls::calls))]
fn range_by(
    alloc: Global,
    place: usize,
    first: &JxValue,
    end: &JxValue,
    step: &JxValue,
) -> Result<JxValue, EvalFault>
    ensures { Gives plain result (range_of place
        (plain first.now ∷ plain end.now ∷ plain step.now ∷ [])) }
{
    match number_in(first) {
        Some(first) => match number_in(end) {
            Some(end) => match number_in(step) {
                Some(step) => ranged(alloc, place, first, end, step),
                None => Err(EvalFault::WrongKind(place)),
            },
            None => Err(EvalFault::WrongKind(place)),
        },
        None => Err(EvalFault::WrongKind(place)),
    }
}

/// `range` of these arguments. A list that would be too long takes no memory.
#[tactic(auto, using(crate::proofs::Calls::calls))]
pub fn range_of(alloc: Global, place: usize, given: &[&JxValue]) -> Result<JxValue, EvalFault>
    ensures { Gives plain result (range_of place (map (λ v. plain v.now) given.now)) }
{
    match given {
        [end] => range_to(alloc, place, end),
        [first, end] => range_between(alloc, place, first, end),
        [first, end, step] => range_by(alloc, place, first, end, step),
        _ => Err(EvalFault::ArgCount(place)),
    }
}
