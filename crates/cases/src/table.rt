//! A table of cases: a line `== TITLE` or `=~ TITLE` begins a case, the lines below are its body.
use crate::escapes::add_spelled;
use std::alloc::{AllocError, AllocFailed, Global};
use std::io::Read;
use std::{io, str};
use thiserror::Error;

/// Why a text is no table of cases. Lines are counted from 1.
#[derive(Debug, Drop, Error)]
pub enum CaseFault {
    /// A line before the first case, a case without a title, or an escape out of form.
    #[error("bad case at line {0}")]
    Bad(usize),
    /// Want of memory.
    #[error("out of memory")]
    Memory,
}

impl From<AllocError> for CaseFault {
    fn from(_: AllocError) -> CaseFault {
        CaseFault::Memory
    }
}

impl<T: Drop> From<AllocFailed<T>> for CaseFault {
    fn from(_: AllocFailed<T>) -> CaseFault {
        CaseFault::Memory
    }
}

/// A case: its title, and the lines of its body as they stand in the table.
#[derive(Drop)]
pub struct Case<'a> {
    pub title: String,
    line: usize,
    is_spelled: bool,
    lines: Vec<&'a [u8]>,
}

impl<'a> Case<'a> {
    /// The bytes of the body. Below `== TITLE` they are its lines, each with its newline; below
    /// `=~ TITLE` the lines joined without newlines, where `\n`, `\t`, `\r`, `\0`, `\\`, `\}` and
    /// `\xHH` stand for a byte, and `\{N:TEXT}` for N times what TEXT spells.
    pub fn body(&self, alloc: Global) -> Result<Vec<u8>, CaseFault> {
        let mut body = Vec::new(alloc);
        for (place, line) in self.lines.iter().enumerate() {
            if !self.is_spelled {
                body.extend_from_slice(line)?;
                body.push(b'\n')?;
            } else if !add_spelled(alloc, &mut body, line)? {
                return Err(CaseFault::Bad(self.line.saturating_add(place).saturating_add(1)));
            }
        }
        Ok(body)
    }
}

/// The cases of a table, in order. Before the first one stand only empty lines and lines that
/// begin with `#!`.
pub fn read_cases<'a>(alloc: Global, text: &'a [u8]) -> Result<Vec<Case<'a>>, CaseFault> {
    let text = text.strip_suffix(b"\n").unwrap_or(text);
    let mut cases: Vec<Case<'a>> = Vec::new(alloc);
    for (place, line) in text.split(|byte| *byte == b'\n').enumerate() {
        let number = place.saturating_add(1);
        if line.starts_with(b"==") || line.starts_with(b"=~") {
            cases.push(begun(alloc, number, line)?)?;
        } else if let Some(case) = cases.last_mut() {
            case.lines.push(line)?;
        } else if !line.is_empty() && !line.starts_with(b"#!") {
            return Err(CaseFault::Bad(number));
        }
    }
    Ok(cases)
}

// The case that this line begins.
fn begun<'a>(alloc: Global, line: usize, text: &[u8]) -> Result<Case<'a>, CaseFault> {
    let Some((mark, title)) = text.split_at_checked(3) else {
        return Err(CaseFault::Bad(line));
    };
    let Ok(title) = str::from_utf8(title) else {
        return Err(CaseFault::Bad(line));
    };
    if title.is_empty() || !mark.ends_with(b" ") {
        return Err(CaseFault::Bad(line));
    }
    Ok(Case {
        title: String::from_str(alloc, title)?,
        line,
        is_spelled: mark.starts_with(b"=~"),
        lines: Vec::new(alloc),
    })
}

/// All that a program is given on its standard input.
pub fn read_input<R: Input + AllocGlobal>(rt: &R) -> io::Result<Vec<u8>> {
    let mut text = Vec::new(rt.alloc());
    let mut input = rt.reader();
    input.read_to_end(&mut text)?;
    Ok(text)
}
