//! Numbers, and the bounds of sizes.
ghost use Rattle.std.specs.Prelude.{◌≡◌, IfOk, [], ◌∷◌};
ghost use Rattle.std.specs.List.{list_all};
ghost use Rattle.mf_forms.specs.Numbers.{is_digit, number_within, bound_by, bound_in};

use crate::blanks::words;
use flow_types::{Memory, SizeBound, Text};
use std::alloc::Global;

/// The most bytes that a file may have.
pub const MOST_FILE_BYTES: u64 = 67_108_864;

const MOST_DIGITS: usize = 10;

/// The number that one to ten decimal digits spell, where it is at most this.
pub fn number_within(most: u64, text: &str) -> Option<u64>
    ensures { result ≡ number_within most text.now }
{
    if text.is_empty() || text.len() > MOST_DIGITS || !all_digits(text) {
        return None;
    }
    match text.parse::<u64>() {
        Ok(number) if number <= most => Some(number),
        _ => None,
    }
}

fn is_digit(byte: u8) -> bool
    ensures { result ≡ is_digit byte }
{
    matches!(byte, b'0'..=b'9')
}

fn all_digits(text: &str) -> bool
    ensures { result ≡ list_all is_digit text.now }
{
    text.as_bytes().iter().all(|byte| is_digit(*byte))
}

/// The bound that the arguments of `.SIZE` give: a name, and a number of bytes that a file may
/// have. None for anything else.
pub fn size_bound_in(alloc: Global, text: &str) -> Result<Option<SizeBound>, Memory>
    ensures { IfOk result (λ bound. bound ≡ bound_in text.now) }
{
    let parts = words(alloc, text)?;
    match parts.as_slice() {
        [name, number] => bound_by(alloc, name, number),
        _ => Ok(None),
    }
}

// The bound of the file of this name, where the number is one.
fn bound_by(alloc: Global, name: &Text, number: &Text) -> Result<Option<SizeBound>, Memory>
    ensures { IfOk result (λ bound. bound ≡ bound_by (name.now ∷ number.now ∷ [])) }
{
    match number_within(MOST_FILE_BYTES, number.as_str()) {
        Some(bytes) => {
            let name = name.copy(alloc)?;
            Ok(Some(SizeBound { name, bytes }))
        }
        None => Ok(None),
    }
}
