//! Bytes in hex.
use hex::FromHexError;
use std::alloc::{AllocError, Global};

/// The bytes that a text spells, with blanks where they help; none where it spells none.
pub fn bytes_of(alloc: Global, text: &str) -> Result<Vec<u8>, AllocError> {
    let mut digits = String::new(alloc);
    for part in text.split_whitespace() {
        digits.push_str(part)?;
    }
    match hex::decode(alloc, digits.as_str()) {
        Ok(bytes) => Ok(bytes),
        Err(FromHexError::OutOfMemory) => Err(AllocError),
        Err(_) => Ok(Vec::new(alloc)),
    }
}
