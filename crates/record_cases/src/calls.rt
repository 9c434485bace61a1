//! Names, texts, lists, copies, fields and packs: each call of the base crates that wants memory,
//! made with enough of it.
//!
//! A line of a case is a call in the words of the files below, and is answered on a line.

mod field_calls;
mod list_calls;
mod pack_calls;
mod plan_calls;
mod rows_of_pairs;
mod words;

use crate::calls::field_calls::of_fields;
use crate::calls::list_calls::{of_bytes, of_form, of_name, of_rows, of_text};
use crate::calls::pack_calls::of_pack;
use crate::calls::plan_calls::of_plan;
use crate::calls::words::first_of;
use std::alloc::{AllocError, Global};
use std::str;

fn answer(alloc: Global, line: &[u8]) -> Result<String, AllocError> {
    let (subject, rest) = first_of(line);
    let text = str::from_utf8(rest).unwrap_or("");
    match str::from_utf8(subject) {
        Ok("field") => of_fields(alloc, text),
        Ok("pack") => of_pack(alloc, text),
        Ok("plan") => of_plan(alloc, text),
        Ok("name") => of_name(alloc, rest),
        Ok("form") => of_form(alloc, rest),
        Ok("bytes") => of_bytes(alloc, rest),
        Ok("text") => of_text(alloc, text),
        Ok("rows") => of_rows(alloc, text),
        _ => String::from_str(alloc, "no call"),
    }
}

/// The answer of each line that isn't empty, a line each.
pub(crate) fn answers(alloc: Global, text: &[u8]) -> Result<String, AllocError> {
    let mut shown = String::new(alloc);
    for line in text.split(|byte| *byte == b'\n') {
        if !line.is_empty() {
            let answer = answer(alloc, line)?;
            shown.push_str(&answer)?;
            shown.push_str("\n")?;
        }
    }
    Ok(shown)
}
