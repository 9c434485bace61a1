//! What stands behind a backslash.
ghost use Rattle.std.specs.Prelude.{◌≡◌, ◌≤◌, ◌<◌, ◌+◌, ◌-◌, ◌^◌, length, slice_index, IfSome};
ghost use Rattle.std.specs.Char.{digit_value};
ghost use Rattle.jx_tokens.specs.Texts as spec;

use crate::bytes::byte_at;

/// The value of a hexadecimal digit, 16 or more of any other byte.
fn digit(b: u8) -> u32
    ensures value { result ≡ digit_value b }
    ensures ascii { result < 16 → b < 128 }
{
    match b {
        b'0'..=b'9' => (b - b'0') as u32,
        b'A'..=b'Z' => (b - b'A') as u32 + 10,
        b'a'..=b'z' => (b - b'a') as u32 + 10,
        _ => 36,
    }
}

/// The code unit of the four digits from this place on.
#[tactic(auto, unfolding(crate::specs::Texts::unit_at))]
fn unit_at(bytes: &[u8], at: usize) -> Option<u32>
    requires { at < 100 }
    ensures value { result ≡ spec.unit_at at bytes.now }
    ensures small { IfSome result (λ u. u < 65536) }
    ensures within { IfSome result
        (λ u. (at + 4 ≤ length bytes.now) × (slice_index bytes.now (at + 3) < 128)) }
{
    let a = digit(byte_at(bytes, at));
    let b = digit(byte_at(bytes, at + 1));
    let c = digit(byte_at(bytes, at + 2));
    let d = digit(byte_at(bytes, at + 3));
    if a < 16 && b < 16 && c < 16 && d < 16 {
        Some(a * 4096 + b * 256 + c * 16 + d)
    } else {
        None
    }
}

fn short_escape(b: u8) -> Option<u8>
    ensures value { result ≡ spec.short_escape b }
    ensures ascii { IfSome result (λ c. (c < 128) × (0 < b) × (b < 128)) }
{
    match b {
        b'"' | b'\\' | b'/' => Some(b),
        b'b' => Some(8),
        b'f' => Some(12),
        b'n' => Some(b'\n'),
        b'r' => Some(b'\r'),
        b't' => Some(b'\t'),
        _ => None,
    }
}

/// The character of a first half and the second half that has to follow it.
fn paired(bytes: &[u8], high: u32) -> Option<(char, usize)>
    requires low { 0xd800 ≤ high }
    requires below { high < 0xdc00 }
    ensures value { result ≡ spec.paired bytes.now high (spec.unit_at 7 bytes.now) }
    ensures within { IfSome result
        (λ p. (p.1 ≡ 11) × (11 ≤ length bytes.now) × (slice_index bytes.now 10 < 128)) }
{
    let low = unit_at(bytes, 7)?;
    if byte_at(bytes, 5) == b'\\' && byte_at(bytes, 6) == b'u' && 0xdc00 <= low && low < 0xe000 {
        let c = char::from_u32(0x10000 + (high - 0xd800) * 1024 + (low - 0xdc00))?;
        return Some((c, 11));
    }
    None
}

/// The character of the code unit behind `u`.
fn unicode(bytes: &[u8]) -> Option<(char, usize)>
    ensures value { result ≡ spec.unicode bytes.now (spec.unit_at 1 bytes.now) }
    ensures within { IfSome result
        (λ p. (0 < p.1) × (p.1 ≤ length bytes.now) × (slice_index bytes.now (p.1 - 1) < 128)) }
{
    let unit = unit_at(bytes, 1)?;
    if 0xd800 <= unit && unit < 0xdc00 {
        return paired(bytes, unit);
    }
    let c = char::from_u32(unit)?;
    Some((c, 5))
}

/// The character that the bytes behind a backslash write, and how many they are.
#[tactic(auto, unfolding(crate::specs::Texts::escape))]
pub fn escape(bytes: &[u8]) -> Option<(char, usize)>
    ensures value { result ≡ spec.escape bytes.now }
    ensures within { IfSome result
        (λ p. (0 < p.1) × (p.1 ≤ length bytes.now) × (slice_index bytes.now (p.1 - 1) < 128)) }
{
    if byte_at(bytes, 0) == b'u' {
        return unicode(bytes);
    }
    let c = short_escape(byte_at(bytes, 0))?;
    Some((c as char, 1))
}
