//! `name TEXT`: the name that a text gives, of a copy. `form TEXT`: its one form, be it a name or
//! not. `text TEXT` and `bytes TEXT`: what they were made of. `rows ITEM..`: numbers in a list.
use crate::calls::words::said;
use cases::shown;
use flow_types::{Bytes, Memory, Name, NameFault, Rows, Text, form_of};
use std::alloc::{AllocError, Global};

fn bracketed(alloc: Global, bytes: &[u8]) -> Result<String, AllocError> {
    let bytes = shown(alloc, bytes)?;
    format!(in alloc; "[{bytes}]")
}

/// The name that a text gives, of a copy.
pub fn of_name(alloc: Global, text: &[u8]) -> Result<String, AllocError> {
    match Name::of(alloc, text) {
        Ok(name) => match name.copy(alloc) {
            Ok(copy) => bracketed(alloc, copy.as_bytes()),
            Err(Memory) => Err(AllocError),
        },
        Err(NameFault::Bad) => said(alloc, "bad"),
        Err(NameFault::Memory) => Err(AllocError),
    }
}

// The text through each of its forms.
fn text_again(alloc: Global, text: &str) -> Result<String, Memory> {
    let copy = Text::of(alloc, text)?.copy(alloc)?;
    Ok(Text::from_string(copy.into_string()).into_string())
}

fn bytes_again(alloc: Global, bytes: &[u8]) -> Result<Bytes, Memory> {
    let bytes = Bytes::of(alloc, bytes)?;
    Ok(Bytes::from_vec(bytes.into_vec()))
}

/// These numbers in a list.
pub fn of_rows(alloc: Global, line: &str) -> Result<String, AllocError> {
    let mut rows = Rows::new(alloc);
    for word in line.split_whitespace() {
        let Ok(item) = word.parse::<u32>() else {
            return said(alloc, "no number");
        };
        if rows.push(item).is_err() {
            return Err(AllocError);
        }
    }
    shown_rows(alloc, rows)
}

fn shown_item(alloc: Global, item: Option<&u32>) -> Result<String, AllocError> {
    match item {
        Some(item) => {
            let item = *item;
            format!(in alloc; "{item}")
        }
        None => said(alloc, "none"),
    }
}

// How many there are, the items at 0 and at 3, and all of them.
fn shown_rows(alloc: Global, rows: Rows<u32>) -> Result<String, AllocError> {
    let first = shown_item(alloc, rows.get(0))?;
    let fourth = shown_item(alloc, rows.get(3))?;
    let emptiness = if rows.is_empty() { "empty" } else { "some" };
    let again = Rows::of(rows.into_vec());
    let len = again.len();
    let mut text = format!(in alloc; "{len} {emptiness} {first} {fourth}:")?;
    for item in again.as_slice() {
        let item = *item;
        text.push_str(format!(in alloc; " {item}")?.as_str())?;
    }
    Ok(text)
}

/// The one form of a text.
pub fn of_form(alloc: Global, text: &[u8]) -> Result<String, AllocError> {
    bracketed(alloc, form_of(alloc, text)?.as_slice())
}

/// What a text was made of.
pub fn of_text(alloc: Global, text: &str) -> Result<String, AllocError> {
    match text_again(alloc, text) {
        Ok(text) => bracketed(alloc, text.as_bytes()),
        Err(Memory) => Err(AllocError),
    }
}

/// What bytes were made of.
pub fn of_bytes(alloc: Global, bytes: &[u8]) -> Result<String, AllocError> {
    match bytes_again(alloc, bytes) {
        Ok(bytes) => bracketed(alloc, bytes.as_slice()),
        Err(Memory) => Err(AllocError),
    }
}
