//! Readers of single fields. Each takes a field off the front.
ghost use Rattle.std.specs.Prelude.{◌≡◌, ◌+◌, length, take, slice_index, IfOk};
ghost use Rattle.byteorder.specs.Endian.{big_number};
ghost use Rattle.byte_fields.specs.Reading.{Gives, number_at, fixed_at, up_to_at, bytes_at};

use crate::fault::FieldFault;
use byteorder::{BigEndian, ByteOrder};

/// A byte.
pub fn u8_field(bytes: &[u8]) -> Result<(u8, &[u8]), FieldFault>
    ensures { Gives (λ x. (x.0, x.1.now)) result (number_at 1 bytes.now) }
{
    match bytes {
        [] => Err(FieldFault::Short),
        [first, rest @ ..] => Ok((*first, rest)),
    }
}

/// A number of 2 bytes.
pub fn u16_field(bytes: &[u8]) -> Result<(u16, &[u8]), FieldFault>
    ensures { Gives (λ x. (x.0, x.1.now)) result (number_at 2 bytes.now) }
{
    if bytes.len() < 2 {
        return Err(FieldFault::Short);
    }
    Ok((BigEndian::read_u16(bytes), &bytes[2..]))
}

/// A number of 4 bytes.
pub fn u32_field(bytes: &[u8]) -> Result<(u32, &[u8]), FieldFault>
    ensures { Gives (λ x. (x.0, x.1.now)) result (number_at 4 bytes.now) }
{
    if bytes.len() < 4 {
        return Err(FieldFault::Short);
    }
    Ok((BigEndian::read_u32(bytes), &bytes[4..]))
}

/// A number of 8 bytes.
pub fn u64_field(bytes: &[u8]) -> Result<(u64, &[u8]), FieldFault>
    ensures { Gives (λ x. (x.0, x.1.now)) result (number_at 8 bytes.now) }
{
    if bytes.len() < 8 {
        return Err(FieldFault::Short);
    }
    Ok((BigEndian::read_u64(bytes), &bytes[8..]))
}

/// So many bytes.
pub fn fixed_bytes(len: usize, bytes: &[u8]) -> Result<(&[u8], &[u8]), FieldFault>
    ensures field { Gives (λ x. (x.0.now, x.1.now)) result (fixed_at len bytes.now) }
    ensures whole { IfOk result (λ x. length x.0.now ≡ len) }
{
    if bytes.len() < len {
        return Err(FieldFault::Short);
    }
    Ok(bytes.split_at(len))
}

/// Bytes behind their length.
#[tactic(auto, unfolding(crate::specs::Reading::bytes_at))]
pub fn counted_bytes(bytes: &[u8]) -> Result<(&[u8], &[u8]), FieldFault>
    ensures field { Gives (λ x. (x.0.now, x.1.now)) result (bytes_at bytes.now) }
    ensures parts { IfOk result (λ x. length bytes.now ≡ length x.0.now + length x.1.now + 4) }
{
    let (len, rest) = u32_field(bytes)?;
    let len = len as usize;
    if rest.len() < len {
        return Err(FieldFault::Short);
    }
    Ok(rest.split_at(len))
}

// The byte at a place among the first ones, or 0.
fn byte_among(seen: usize, bytes: &[u8], at: usize) -> u8
    ensures { result ≡ slice_index (take seen bytes.now) at }
{
    if at < seen && at < bytes.len() {
        bytes[at]
    } else {
        0
    }
}

// The number that the first bytes begin, as if zeros followed them.
fn begun_number(seen: usize, bytes: &[u8]) -> u32
    ensures { result ≡ big_number 4 (take seen bytes.now) }
{
    let number = [
        byte_among(seen, bytes, 0),
        byte_among(seen, bytes, 1),
        byte_among(seen, bytes, 2),
        byte_among(seen, bytes, 3),
    ];
    BigEndian::read_u32(&number)
}

/// A number of 4 bytes up to this. A greater one is a fault at the first byte with which it is
/// greater, whatever follows.
pub fn u32_up_to(most: u32, bytes: &[u8]) -> Result<(u32, &[u8]), FieldFault>
    ensures { Gives (λ x. (x.0, x.1.now)) result (up_to_at most bytes.now) }
{
    for seen in 0..4usize {
        if begun_number(seen + 1, bytes) > most {
            return Err(FieldFault::Kind(bytes.len().saturating_sub(seen)));
        }
    }
    u32_field(bytes)
}
