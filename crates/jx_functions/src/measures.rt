//! How long lists and texts are.
ghost use Rattle.std.specs.Prelude.{◌≡◌, map, [], ◌∷◌};
ghost use Rattle.jx_meaning.specs.Answers.{Gives};
ghost use Rattle.jx_meaning.specs.Values.{plain};
ghost use Rattle.jx_meaning.specs.Operations.{len_of};

use jx_meaning::EvalFault;
use jx_syntax::JxValue;
use jx_values::{char_count, items_in, text_in};

/// How many items a list has, or how many characters a text.
#[tactic(auto, using(crate::proofs::Calls::calls))]
fn len(place: usize, value: &JxValue) -> Result<JxValue, EvalFault>
    ensures { Gives plain result (len_of place (plain value.now ∷ [])) }
{
    match items_in(value) {
        Some(items) => Ok(JxValue::Number(items.len() as i64)),
        None => match text_in(value) {
            Some(text) => Ok(JxValue::Number(char_count(text) as i64)),
            None => Err(EvalFault::WrongKind(place)),
        },
    }
}

/// `len` of these arguments.
#[tactic(auto, using(crate::proofs::Calls::calls))]
pub fn len_of(place: usize, given: &[&JxValue]) -> Result<JxValue, EvalFault>
    ensures { Gives plain result (len_of place (map (λ v. plain v.now) given.now)) }
{
    match given {
        [value] => len(place, value),
        _ => Err(EvalFault::ArgCount(place)),
    }
}
