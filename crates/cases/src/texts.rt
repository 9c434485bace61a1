//! Bytes as text.
use std::alloc::{AllocError, Global};

// A text of more bytes is shown by its first ones and its length.
const MOST_SHOWN: usize = 400;

const SHOWN_OF_LONG: usize = 20;

/// These bytes as text of one line: control characters, backslashes and bytes that are no part of a
/// UTF-8 text as escapes. Of more than 400 bytes the first 20 are shown, and `\{.. N bytes}`.
pub fn shown(alloc: Global, bytes: &[u8]) -> Result<String, AllocError> {
    let mut text = String::new(alloc);
    if bytes.len() <= MOST_SHOWN {
        add_escaped(alloc, &mut text, bytes)?;
        return Ok(text);
    }
    if let Some((first, _)) = bytes.split_at_checked(SHOWN_OF_LONG) {
        add_escaped(alloc, &mut text, first)?;
    }
    let count = bytes.len();
    let tail = format!(in alloc; "\\{{.. {count} bytes}}")?;
    text.push_str(&tail)?;
    Ok(text)
}

fn add_escaped(alloc: Global, text: &mut String, bytes: &[u8]) -> Result<(), AllocError> {
    for chunk in bytes.utf8_chunks() {
        for character in chunk.valid().chars() {
            add_character(alloc, text, character)?;
        }
        for byte in chunk.invalid() {
            let byte = *byte;
            let piece = format!(in alloc; "\\x{byte:02x}")?;
            text.push_str(&piece)?;
        }
    }
    Ok(())
}

fn add_character(alloc: Global, text: &mut String, character: char) -> Result<(), AllocError> {
    match character {
        '\n' => text.push_str("\\n"),
        '\t' => text.push_str("\\t"),
        '\r' => text.push_str("\\r"),
        '\0' => text.push_str("\\0"),
        '\\' => text.push_str("\\\\"),
        '\u{1}'..='\u{1f}' | '\u{7f}' => {
            let code = character as u32;
            let piece = format!(in alloc; "\\x{code:02x}")?;
            text.push_str(&piece)
        }
        _ => text.push(character),
    }
}
