//! What a value holds, where it is of a kind.
ghost use Rattle.std.specs.Prelude.{◌≡◌, map, option_map, option_copied};
ghost use Rattle.jx_meaning.specs.Values.{plain};
ghost use Rattle.jx_values.specs.Kinds.{plain_pair};
ghost use Rattle.jx_values.specs.Kinds.{is_null, truth_in, number_in};
ghost use Rattle.jx_values.specs.Kinds.{text_in, items_in, entries_in};

use jx_syntax::{JxPair, JxValue};

/// The truth value that a value is.
#[tactic(auto, using(crate::proofs::Plain::views))]
pub fn truth_in(value: &JxValue) -> Option<bool>
    ensures { result ≡ truth_in (plain value.now) }
{
    match value {
        JxValue::Truth(t) => Some(*t),
        _ => None,
    }
}

/// The number that a value is.
#[tactic(auto, using(crate::proofs::Plain::views))]
pub fn number_in(value: &JxValue) -> Option<i64>
    ensures { result ≡ number_in (plain value.now) }
{
    match value {
        JxValue::Number(n) => Some(*n),
        _ => None,
    }
}

/// The text that a value is.
#[tactic(auto, using(crate::proofs::Plain::views))]
pub fn text_in(value: &JxValue) -> Option<&str>
    ensures { option_copied result ≡ text_in (plain value.now) }
{
    match value {
        JxValue::Text(t) => Some(t.as_str()),
        _ => None,
    }
}

/// The items of the list that a value is.
#[tactic(auto, using(crate::proofs::Plain::views))]
pub fn items_in(value: &JxValue) -> Option<&[JxValue]>
    ensures { option_map (map plain) (option_copied result) ≡ items_in (plain value.now) }
{
    match value {
        JxValue::List(items) => Some(items.as_slice()),
        _ => None,
    }
}

/// The pairs of the object that a value is.
#[tactic(auto, using(crate::proofs::Plain::views))]
pub fn entries_in(value: &JxValue) -> Option<&[JxPair]>
    ensures { option_map (map plain_pair) (option_copied result) ≡ entries_in (plain value.now) }
{
    match value {
        JxValue::Object(pairs) => Some(pairs.as_slice()),
        _ => None,
    }
}

/// Whether a value is `null`.
#[tactic(auto, using(crate::proofs::Plain::views))]
pub fn is_null(value: &JxValue) -> bool
    ensures { result ≡ is_null (plain value.now) }
{
    match value {
        JxValue::Null => true,
        _ => false,
    }
}
