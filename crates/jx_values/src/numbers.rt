//! Numbers under operators and signs.
ghost use Rattle.std.specs.Prelude.{◌≡◌};
ghost use Rattle.jx_meaning.specs.Answers.{Gives};
ghost use Rattle.jx_meaning.specs.Values.{number, plain};
ghost use Rattle.jx_meaning.specs.Numbers.{arithmetic};
ghost use Rattle.jx_meaning.specs.Operations.{signed};
ghost use Rattle.jx_values.specs.Found.{number_of};

use crate::kinds::{number_in, truth_in};
use jx_meaning::EvalFault;
use jx_syntax::{JxValue, Operator, Sign};

fn number_of(place: usize, found: Option<i64>) -> Result<i64, EvalFault>
    ensures { Gives number result (number_of place found) }
{
    match found {
        Some(n) => Ok(n),
        None => Err(EvalFault::Overflow(place)),
    }
}

/// Two numbers under an operator.
pub fn arithmetic(o: Operator, place: usize, a: i64, b: i64) -> Result<i64, EvalFault>
    ensures { Gives number result (arithmetic o place a b) }
{
    match o {
        Operator::Add => number_of(place, a.checked_add(b)),
        Operator::Subtract => number_of(place, a.checked_sub(b)),
        Operator::Multiply => number_of(place, a.checked_mul(b)),
        Operator::Divide => {
            if b == 0 {
                return Err(EvalFault::ZeroDivisor(place));
            }
            number_of(place, a.checked_div(b))
        }
        Operator::Remainder => {
            if b == 0 {
                return Err(EvalFault::ZeroDivisor(place));
            }
            Ok(a.wrapping_rem(b))
        }
        _ => Err(EvalFault::WrongKind(place)),
    }
}

/// A value behind a sign.
#[tactic(auto, using(crate::proofs::Signs::signs))]
pub fn signed(place: usize, sign: Sign, value: &JxValue) -> Result<JxValue, EvalFault>
    ensures { Gives plain result (signed place sign (plain value.now)) }
{
    match sign {
        Sign::Minus => match number_in(value) {
            Some(n) => {
                let negative = number_of(place, n.checked_neg())?;
                Ok(JxValue::Number(negative))
            }
            None => Err(EvalFault::WrongKind(place)),
        },
        Sign::Plus => match number_in(value) {
            Some(n) => Ok(JxValue::Number(n)),
            None => Err(EvalFault::WrongKind(place)),
        },
        Sign::Not => match truth_in(value) {
            Some(t) => Ok(JxValue::Truth(!t)),
            None => Err(EvalFault::WrongKind(place)),
        },
    }
}
