//! Rows of one kind, one after the other.
ghost use Rattle.std.specs.Prelude.{◌≡◌, List, ℕ, Result, Ok, IfOk};
ghost use Rattle.byte_fields.specs.declared.fault.FieldFault.{FieldFault};
ghost use Rattle.byte_fields.specs.Reading.{Gives, GivesInMemory, Reader};
ghost use Rattle.byte_fields.specs.Reading.{skipping, rows_at, counted_rows_at};

use crate::fault::{FieldFault, TakeFault};
use crate::reading::u32_field;
use flow_types::Rows;
use std::alloc::Global;

/// A kind of row that is read into memory.
pub trait Row {
    type Value: Drop;

    /// How a row is read.
    ghost read: { List ℕ → Result (Self.Value × List ℕ) FieldFault };

    /// The row at the front, and the bytes behind it.
    fn take(alloc: Global, bytes: &[u8]) -> Result<(Self::Value, &[u8]), TakeFault>
        ensures { GivesInMemory (λ x. (x.0, x.1.now)) result (read bytes.now) };
}

/// A kind of row that can be passed over without memory.
pub trait PassedRow: Row {
    /// The bytes behind the row at the front.
    fn skip(bytes: &[u8]) -> Result<&[u8], FieldFault>
        ensures { Gives (λ rest. rest.now) result (skipping Self.read bytes.now) };
}

/// The bytes behind so many rows.
pub fn skip_rows<R: PassedRow>(count: u32, bytes: &[u8]) -> Result<&[u8], FieldFault>
    ensures { Gives (λ rest. rest.now) result (skipping (rows_at R.read count) bytes.now) }
{
    let mut rest = bytes;
    for _ in 0..count {
        rest = R::skip(rest)?;
    }
    Ok(rest)
}

/// So many rows, and the bytes behind them.
pub fn take_rows<R: Row>(
    alloc: Global,
    count: u32,
    bytes: &[u8],
) -> Result<(Rows<R::Value>, &[u8]), TakeFault>
    ensures { GivesInMemory (λ x. (x.0, x.1.now)) result (rows_at R.read count bytes.now) }
{
    let mut rows = Rows::new(alloc);
    let mut rest = bytes;
    for _ in 0..count {
        match R::take(alloc, rest) {
            Ok((row, after)) => {
                let Ok(()) = rows.push(row) else {
                    return Err(TakeFault::Memory);
                };
                rest = after;
            }
            Err(fault) => return Err(fault),
        }
    }
    Ok((rows, rest))
}

/// The bytes behind a count of rows and the rows. A count above the limit is a fault at the count.
#[tactic(auto, unfolding(crate::specs::Reading::counted_rows_at))]
pub fn skip_counted_rows<R: PassedRow>(most: u32, bytes: &[u8]) -> Result<&[u8], FieldFault>
    ensures { Gives (λ rest. rest.now) result (skipping (counted_rows_at most R.read) bytes.now) }
{
    let (count, rest) = u32_field(bytes)?;
    if count > most {
        return Err(FieldFault::Kind(bytes.len()));
    }
    skip_rows::<R>(count, rest)
}

/// The rows behind their count. A count above the limit is a fault at the count.
#[tactic(auto, unfolding(crate::specs::Reading::counted_rows_at))]
pub fn take_counted_rows<R: Row>(
    alloc: Global,
    most: u32,
    bytes: &[u8],
) -> Result<(Rows<R::Value>, &[u8]), TakeFault>
    ensures { GivesInMemory (λ x. (x.0, x.1.now)) result (counted_rows_at most R.read bytes.now) }
{
    match u32_field(bytes) {
        Ok((count, rest)) => {
            if count > most {
                return Err(TakeFault::Field(FieldFault::Kind(bytes.len())));
            }
            take_rows::<R>(alloc, count, rest)
        }
        Err(fault) => Err(TakeFault::Field(fault)),
    }
}
