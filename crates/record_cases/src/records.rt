//! Records of the log, read from their bytes and written again.
//!
//! A line of a case has a kind byte and a body in hex, with blanks where they help. It is answered
//! by the record and by the bytes that are written of it, or by the place at which it is refused. A
//! line `cuts HEX` is answered by the places at which the beginnings of those bytes are refused,
//! the shortest first.

mod text;

use crate::records::text::shown_record;
use hex::FromHexError;
use log_records::{RecordFault, read_record, write_record};
use std::alloc::{AllocError, Global};

// The bytes that a line spells, none where it spells none.
fn bytes_of(alloc: Global, line: &str) -> Result<Option<Vec<u8>>, AllocError> {
    let mut digits = String::new(alloc);
    for part in line.split_whitespace() {
        digits.push_str(part)?;
    }
    match hex::decode(alloc, digits.as_str()) {
        Ok(bytes) => Ok(Some(bytes)),
        Err(FromHexError::OutOfMemory) => Err(AllocError),
        Err(_) => Ok(None),
    }
}

fn shown_fault(alloc: Global, fault: RecordFault) -> Result<String, AllocError> {
    match fault {
        RecordFault::Bad { at } => format!(in alloc; "refused at {at}"),
        RecordFault::Memory => Err(AllocError),
    }
}

// The record of these bytes and, on a second line, what is written of it.
fn shown(alloc: Global, bytes: &[u8]) -> Result<String, AllocError> {
    match read_record(alloc, bytes) {
        Ok(record) => {
            let text = shown_record(alloc, &record)?;
            let Ok(written) = write_record(alloc, &record) else {
                return Err(AllocError);
            };
            let written = hex::encode(alloc, written.as_slice())?;
            format!(in alloc; "{text}\n{written}")
        }
        Err(fault) => shown_fault(alloc, fault),
    }
}

// Where each beginning of these bytes is refused.
fn shown_cuts(alloc: Global, bytes: &[u8]) -> Result<String, AllocError> {
    let mut text = String::from_str(alloc, "cuts")?;
    for len in 0..bytes.len() {
        match read_record(alloc, &bytes[..len]) {
            Ok(_) => text.push_str(" read")?,
            Err(RecordFault::Bad { at }) => text.push_str(format!(in alloc; " {at}")?.as_str())?,
            Err(RecordFault::Memory) => return Err(AllocError),
        }
    }
    Ok(text)
}

fn answer(alloc: Global, line: &str) -> Result<String, AllocError> {
    let (cuts, digits) = match line.strip_prefix("cuts ") {
        Some(digits) => (true, digits),
        None => (false, line),
    };
    match bytes_of(alloc, digits)? {
        Some(bytes) if cuts => shown_cuts(alloc, &bytes),
        Some(bytes) => shown(alloc, &bytes),
        None => String::from_str(alloc, "no hex"),
    }
}

/// The answer of each line, a line each.
pub(crate) fn answers(alloc: Global, text: &str) -> Result<String, AllocError> {
    let mut shown = String::new(alloc);
    for line in text.lines() {
        let answer = answer(alloc, line)?;
        shown.push_str(&answer)?;
        shown.push_str("\n")?;
    }
    Ok(shown)
}
