//! Rows of two bytes, as a kind of row to read and to write.
ghost use Rattle.byte_fields.specs.Reading.{number_at};
ghost use Rattle.byteorder.specs.Endian.{big_bytes};

use byte_fields::{FieldFault, PassedRow, PutRow, Row, TakeFault, put_u16, u16_field};
use flow_types::Memory;
use std::alloc::Global;

/// Numbers of 2 bytes.
pub enum Pairs {}

impl Row for Pairs {
    type Value = u16;

    ghost read = { number_at 2 };

    fn take(_alloc: Global, bytes: &[u8]) -> Result<(u16, &[u8]), TakeFault> {
        let (number, rest) = u16_field(bytes)?;
        Ok((number, rest))
    }
}

impl PassedRow for Pairs {
    fn skip(bytes: &[u8]) -> Result<&[u8], FieldFault> {
        let (_, rest) = u16_field(bytes)?;
        Ok(rest)
    }
}

impl PutRow for Pairs {
    type Value = u16;

    ghost spell = { λ number. big_bytes 2 number };

    ghost fits = { λ number. Unit {0} };

    fn put(row: &u16, out: &mut Vec<u8>) -> Result<(), Memory> {
        put_u16(out, *row)
    }
}
