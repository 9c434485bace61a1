//! `COMMAND => OUTCOME`: what the runner answers a job of this command.
//!
//! OUTCOME is `makes CONTENT`, with a `|` between the contents of two outputs, `status STATUS`,
//! `missing OUTPUT` or `long OUTPUT SIZE`.
use crate::words::{first, spelled};
use flow_types::{Bytes, Failure, Memory, Outcome, Rows};
use mem_outside::{Blank, TableRunner};
use std::alloc::{AllocError, Global};

fn failure_of(kind: &str, line: &str) -> Option<Failure> {
    let (word, rest) = first(line);
    match kind {
        "status" => Some(Failure::Status(word.parse::<i32>().ok()?)),
        "missing" => Some(Failure::MissingOutput(word.parse::<u32>().ok()?)),
        "long" => Some(Failure::TooLong {
            index: word.parse::<u32>().ok()?,
            size: rest.parse::<u64>().ok()?,
        }),
        _ => None,
    }
}

fn contents_of(alloc: Global, line: &str) -> Result<Option<Rows<Bytes>>, AllocError> {
    let mut contents = Vec::new(alloc);
    for text in line.split('|') {
        let Some(content) = spelled(alloc, text)? else {
            return Ok(None);
        };
        contents.push(Bytes::from_vec(content))?;
    }
    Ok(Some(Rows::of(contents)))
}

fn is_noted(answer: Result<(), Memory>) -> Result<bool, AllocError> {
    match answer {
        Ok(()) => Ok(true),
        Err(Memory) => Err(AllocError),
    }
}

/// Puts an outcome into the table, and tells whether the line is in form.
pub fn put_job(
    alloc: Global,
    runner: &mut TableRunner<Blank>,
    line: &str,
) -> Result<bool, AllocError> {
    let Some((command, outcome)) = line.split_once(" => ") else {
        return Ok(false);
    };
    let (kind, rest) = first(outcome);
    if kind == "makes" {
        return match contents_of(alloc, rest)? {
            Some(contents) => is_noted(runner.put(command, Outcome::Success(contents))),
            None => Ok(false),
        };
    }
    match failure_of(kind, rest) {
        Some(why) => is_noted(runner.put(command, Outcome::Failed(why))),
        None => Ok(false),
    }
}
