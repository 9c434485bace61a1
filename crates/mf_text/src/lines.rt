//! The logical lines of a text: physical lines, which a backslash joins.
ghost use Rattle.std.specs.Prelude.{◌≡◌, IfOk, IfErr, List, string_bytes, ◌≤◌, Ok, length};
ghost use Rattle.std.specs.Str.Lines.{lines};
ghost use Rattle.mf_text.specs.Answers.{Gives};
ghost use Rattle.mf_text.specs.Lines.{continued, finished, joined, lines_of, goes_on, body};
ghost use Rattle.mf_text.specs.declared.lines.Line.{Line};

use crate::fault::MakeFault;
use flow_types::{Rows, Text};
use std::alloc::Global;
use std::str;

/// The most bytes of a flow's text, and of one of its lines after expansion.
pub const MAX_TEXT: u64 = 16_777_216;

/// A logical line, with the number of its first physical line, counted from 1.
#[derive(Drop)]
pub struct Line {
    pub number: u32,
    pub text: Text,
}

/// The logical lines of a text. Physical lines end at a newline, and a carriage return right
/// before it is dropped. A line that ends in a backslash goes on in the next one, the backslash
/// and the newline becoming one space; at the text's end that backslash is dropped.
pub fn logical_lines(alloc: Global, text: &[u8]) -> Result<Rows<Line>, MakeFault>
    ensures { Gives (λ lines. lines) result (lines_of text.now) }
{
    if text.len() as u64 > MAX_TEXT {
        return Err(MakeFault::TooLarge(MAX_TEXT));
    }
    match str::from_utf8(text) {
        Ok(text) => Ok(Rows::of(joined_lines(alloc, text)?)),
        Err(error) => Err(MakeFault::NotUtf8(error.valid_up_to())),
    }
}

// A logical line that goes on in the next physical line.
#[derive(Drop)]
struct Open {
    number: u32,
    text: String,
}

fn joined_lines(alloc: Global, source: &str) -> Result<Vec<Line>, MakeFault>
    requires { length source.now ≤ 16777216 }
    ensures { Gives (λ done. done.items) result (Ok (joined 1 (lines source.now))) }
{
    let mut done = Vec::new(alloc);
    let mut number = 1;
    let mut pending = None;
    for line in source.lines() {
        let (body, goes_on) = split_mark(line);
        let current = extended(alloc, pending.take(), number, body)?;
        if goes_on {
            pending = Some(current);
        } else {
            done.push(closed(alloc, current)?)?;
        }
        number += 1;
    }
    if let Some(last) = pending {
        done.push(closed(alloc, last)?)?;
    }
    Ok(done)
}

// The line without its joining backslash, and whether it has one.
fn split_mark(line: &str) -> (&str, bool)
    ensures body { result.0.now ≡ body line.now }
    ensures mark { result.1 ≡ goes_on line.now }
{
    match line.strip_suffix('\\') {
        Some(body) => (body, true),
        None => (line, false),
    }
}

// What was open, and then a line's body.
fn extended(
    alloc: Global,
    pending: Option<Open>,
    number: u32,
    body: &str,
) -> Result<Open, MakeFault>
    ensures joined { IfOk result (λ now. (rest : List Line) →
        continued now.number (string_bytes now.text) rest
        ≡ finished pending (continued number body.now rest)) }
    ensures memory { IfErr result (λ e. e ≡ MakeFault.Memory) }
{
    let mut now = match pending {
        None => Open {
            number,
            text: String::new(alloc),
        },
        Some(mut earlier) => {
            earlier.text.push(' ')?;
            earlier
        }
    };
    now.text.push_str(body)?;
    Ok(now)
}

fn closed(alloc: Global, last: Open) -> Result<Line, MakeFault>
    ensures line { IfOk result
        (λ line. line ≡ record { number = last.number; text = string_bytes last.text }) }
    ensures memory { IfErr result (λ e. e ≡ MakeFault.Memory) }
{
    let text = Text::of(alloc, last.text.as_str())?;
    Ok(Line {
        number: last.number,
        text,
    })
}
