//! The order of values.
ghost use Rattle.std.specs.Prelude.{◌≡◌};
ghost use Rattle.jx_meaning.specs.Values.{plain};
ghost use Rattle.jx_meaning.specs.Operations.{compared};

use crate::kinds::{number_in, text_in};
use jx_syntax::JxValue;
use std::cmp::Ordering;

/// Numbers by their size, texts by their bytes; other values have no order.
#[tactic(auto, using(crate::proofs::Orders::orders))]
pub fn compared(a: &JxValue, b: &JxValue) -> Option<Ordering>
    ensures { result ≡ compared (plain a.now) (plain b.now) }
{
    match number_in(a) {
        Some(x) => match number_in(b) {
            Some(y) => Some(x.cmp(&y)),
            None => None,
        },
        None => match text_in(a) {
            Some(x) => match text_in(b) {
                Some(y) => Some(x.cmp(y)),
                None => None,
            },
            None => None,
        },
    }
}
