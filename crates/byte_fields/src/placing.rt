//! Writers of fields into bytes that are there. Each writes at a place, keeps what stands before
//! it, and answers the place behind what it wrote.
ghost use Rattle.std.specs.Prelude.{◌≡◌, ◌≤◌, ◌+◌, ◌++◌, length, take};
ghost use Rattle.byteorder.specs.Endian.{big_bytes};

use byteorder::{BigEndian, ByteOrder};

/// Bytes as they are.
pub fn place_bytes(into: &mut [u8], at: usize, bytes: &[u8]) -> usize
    requires { at + length bytes.now ≤ length into.old }
    ensures text { take result into.new ≡ take at into.old ++ bytes.now }
    ensures end { result ≡ at + length bytes.now }
{
    let end = at + bytes.len();
    into[at..end].copy_from_slice(bytes);
    end
}

/// A byte.
pub fn place_u8(into: &mut [u8], at: usize, n: u8) -> usize
    requires { at + 1 ≤ length into.old }
    ensures text { take result into.new ≡ take at into.old ++ big_bytes 1 n }
    ensures end { result ≡ at + 1 }
{
    into[at] = n;
    at + 1
}

/// A number of 2 bytes.
pub fn place_u16(into: &mut [u8], at: usize, n: u16) -> usize
    requires { at + 2 ≤ length into.old }
    ensures text { take result into.new ≡ take at into.old ++ big_bytes 2 n }
    ensures end { result ≡ at + 2 }
{
    let mut bytes = [0u8; 2];
    BigEndian::write_u16(&mut bytes, n);
    place_bytes(into, at, &bytes)
}

/// A number of 4 bytes.
pub fn place_u32(into: &mut [u8], at: usize, n: u32) -> usize
    requires { at + 4 ≤ length into.old }
    ensures text { take result into.new ≡ take at into.old ++ big_bytes 4 n }
    ensures end { result ≡ at + 4 }
{
    let mut bytes = [0u8; 4];
    BigEndian::write_u32(&mut bytes, n);
    place_bytes(into, at, &bytes)
}

/// A number of 8 bytes.
pub fn place_u64(into: &mut [u8], at: usize, n: u64) -> usize
    requires { at + 8 ≤ length into.old }
    ensures text { take result into.new ≡ take at into.old ++ big_bytes 8 n }
    ensures end { result ≡ at + 8 }
{
    let mut bytes = [0u8; 8];
    BigEndian::write_u64(&mut bytes, n);
    place_bytes(into, at, &bytes)
}
