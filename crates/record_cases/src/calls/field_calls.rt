//! `up_to MOST HEX`, `counted HEX`, `fixed LEN HEX`, `take MOST HEX` and `skip MOST HEX` read a
//! field off the front: what it holds and the bytes behind it, or what is wrong, with the number of
//! bytes from there to the end. `put` and `place` write some fields, and `rows` two rows.
use crate::calls::rows_of_pairs::Pairs;
use crate::calls::words::{first, said, unspelled};
use byte_fields::{
    FieldFault, TakeFault, counted_bytes, fixed_bytes, place_bytes, place_u8, place_u16, place_u32,
    place_u64, put_counted, put_rows, put_u8, put_u16, put_u32, put_u64, skip_counted_rows,
    take_counted_rows, u32_up_to,
};
use flow_types::Memory;
use std::alloc::{AllocError, Global};

fn shown_fault(alloc: Global, fault: FieldFault) -> Result<String, AllocError> {
    let left = fault.left();
    let kind = match fault {
        FieldFault::Short => "short",
        FieldFault::Kind(_) => "kind",
        FieldFault::BadText(_) => "text",
        FieldFault::Long(_) => "long",
    };
    format!(in alloc; "{kind} {left}")
}

fn up_to(alloc: Global, most: u32, bytes: &[u8]) -> Result<String, AllocError> {
    match u32_up_to(most, bytes) {
        Ok((number, rest)) => {
            let rest = hex::encode(alloc, rest)?;
            format!(in alloc; "{number} [{rest}]")
        }
        Err(fault) => shown_fault(alloc, fault),
    }
}

// A field of bytes, and the bytes behind it.
fn shown_bytes(
    alloc: Global,
    answer: Result<(&[u8], &[u8]), FieldFault>,
) -> Result<String, AllocError> {
    match answer {
        Ok((field, rest)) => {
            let field = hex::encode(alloc, field)?;
            let rest = hex::encode(alloc, rest)?;
            format!(in alloc; "[{field}] [{rest}]")
        }
        Err(fault) => shown_fault(alloc, fault),
    }
}

fn take(alloc: Global, most: u32, bytes: &[u8]) -> Result<String, AllocError> {
    match take_counted_rows::<Pairs>(alloc, most, bytes) {
        Ok((rows, rest)) => {
            let rest = hex::encode(alloc, rest)?;
            let mut text = format!(in alloc; "[{rest}]")?;
            for row in rows.as_slice() {
                let row = *row;
                text.push_str(format!(in alloc; " {row}")?.as_str())?;
            }
            Ok(text)
        }
        Err(TakeFault::Field(fault)) => shown_fault(alloc, fault),
        Err(TakeFault::Memory) => Err(AllocError),
    }
}

fn skip(alloc: Global, most: u32, bytes: &[u8]) -> Result<String, AllocError> {
    match skip_counted_rows::<Pairs>(most, bytes) {
        Ok(rest) => {
            let rest = hex::encode(alloc, rest)?;
            format!(in alloc; "[{rest}]")
        }
        Err(fault) => shown_fault(alloc, fault),
    }
}

fn fields_put(alloc: Global) -> Result<Vec<u8>, Memory> {
    let mut out = Vec::new(alloc);
    put_u8(&mut out, 1)?;
    put_u16(&mut out, 0x0203)?;
    put_u32(&mut out, 0x0405_0607)?;
    put_u64(&mut out, 0x0809_0a0b_0c0d_0e0f)?;
    put_counted(&mut out, b"ab")?;
    Ok(out)
}

fn fields_placed() -> [u8; 19] {
    let mut into = [0xffu8; 19];
    let at = place_u8(&mut into, 1, 1);
    let at = place_u16(&mut into, at, 0x0203);
    let at = place_u32(&mut into, at, 0x0405_0607);
    let at = place_u64(&mut into, at, 0x0809_0a0b_0c0d_0e0f);
    let _end = place_bytes(&mut into, at, b"ab");
    into
}

fn rows_put(alloc: Global) -> Result<Vec<u8>, Memory> {
    let mut out = Vec::new(alloc);
    put_rows::<Pairs>(&mut out, &[258, 772])?;
    Ok(out)
}

fn shown_put(alloc: Global, out: Result<Vec<u8>, Memory>) -> Result<String, AllocError> {
    match out {
        Ok(bytes) => hex::encode(alloc, bytes.as_slice()),
        Err(Memory) => Err(AllocError),
    }
}

// A call with a number before its bytes.
fn of_number(alloc: Global, call: &str, line: &str) -> Result<String, AllocError> {
    let (number, digits) = first(line);
    let Ok(number) = number.parse::<u32>() else {
        return said(alloc, "no number");
    };
    let bytes = unspelled(alloc, digits)?;
    match call {
        "up_to" => up_to(alloc, number, &bytes),
        "fixed" => shown_bytes(alloc, fixed_bytes(number as usize, &bytes)),
        "take" => take(alloc, number, &bytes),
        "skip" => skip(alloc, number, &bytes),
        _ => said(alloc, "no call"),
    }
}

/// Makes a call over fields, and says its answer.
pub fn of_fields(alloc: Global, line: &str) -> Result<String, AllocError> {
    let (call, rest) = first(line);
    match call {
        "counted" => {
            let bytes = unspelled(alloc, rest)?;
            shown_bytes(alloc, counted_bytes(&bytes))
        }
        "put" => shown_put(alloc, fields_put(alloc)),
        "rows" => shown_put(alloc, rows_put(alloc)),
        "place" => hex::encode(alloc, fields_placed().as_slice()),
        _ => of_number(alloc, call, rest),
    }
}
