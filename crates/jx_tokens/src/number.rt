//! Whole numbers.
ghost use Rattle.std.specs.Prelude.{◌≡◌, ◌≤◌, ◌<◌, ◌-◌, ◌^◌, ◌+◌, length};
ghost use Rattle.std.specs.Prelude.{drop, min, IsTrue, IfOk, slice_index};
ghost use Rattle.std.specs.Char.{is_ascii_digit};
ghost use Rattle.jx_tokens.specs.Answers.{Gives};
ghost use Rattle.jx_tokens.specs.Tokens as spec;
ghost use Rattle.jx_tokens.specs.Tokens.{size};

use crate::bytes::{byte_at, digits_end};
use crate::fault::JxFault;
use crate::token::{Kind, Piece};

const MOST: u64 = 9_223_372_036_854_775_808;

/// The number that digits write, or the greatest `u64` where it is more.
fn saturated(digits: &[u8]) -> u64
    ensures { result ≡ min (spec.decimal_value digits.now) (2 ^ 64 - 1) }
{
    let mut value = 0u64;
    for digit in digits {
        let one = u64::from(digit.saturating_sub(b'0'));
        value = value.saturating_mul(10).saturating_add(one);
    }
    value
}

/// Whether what stands from this place on makes digits before it a float.
fn goes_on_as_float(text: &[u8], at: usize) -> bool
    requires { at ≤ length text.now }
    ensures { result ≡ spec.goes_on_as_float (drop at text.now) }
{
    let behind = &text[at..];
    let first = byte_at(behind, 0);
    first == b'e' || first == b'E' || (first == b'.' && byte_at(behind, 1).is_ascii_digit())
}

/// The number whose first digit stands here.
#[tactic(auto, unfolding(crate::specs::Tokens::number))]
pub fn number(text: &[u8], at: usize) -> Result<Piece, JxFault>
    requires within { at < length text.now }
    requires digit { IsTrue (is_ascii_digit (slice_index text.now at)) }
    ensures value { Gives (λ p. p) result (spec.number at (drop at text.now)) }
    ensures size { IfOk result (λ p. (0 < size p) × (at + size p ≤ length text.now)) }
{
    let end = digits_end(text, at);
    if goes_on_as_float(text, end) {
        return Err(JxFault::FloatUnsupported(at));
    }
    let value = saturated(&text[at..end]);
    if value > MOST {
        return Err(JxFault::IntTooWide(at));
    }
    Ok(Piece::Token(Kind::Number(value), end - at))
}
