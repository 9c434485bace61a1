//! Faults of logs, and of files that aren't what was logged, by their words.
use crate::ends::words::{first, name, number, whole};
use flow_types::{Content, Digest, FileNo};
use report::Cause;
use run_history::Found;
use std::alloc::Global;

// The digest whose bytes are all this one.
fn digest(word: &str) -> Option<Digest> {
    Some(Digest([word.parse::<u8>().ok()?; 32]))
}

fn content(size: &str, byte: &str) -> Option<Content> {
    Some(Content {
        size: whole(size)?,
        digest: digest(byte)?,
    })
}

fn other_flow(line: &str) -> Option<Cause> {
    let (logged, found) = first(line);
    Some(Cause::OtherFlow {
        logged: digest(logged)?,
        found: digest(found)?,
    })
}

/// Behind `log`: `name FILE`, `damaged AT`, `flow BYTE BYTE`, `record AT` or `full RECORDS`, where a
/// digest has 32 times its BYTE.
pub fn log_fault(alloc: Global, line: &str) -> Option<Cause> {
    let (word, rest) = first(line);
    match word {
        "name" => Some(Cause::LogNameTaken {
            file: name(alloc, rest)?,
        }),
        "damaged" => Some(Cause::LogDamaged { at: whole(rest)? }),
        "flow" => other_flow(rest),
        "record" => Some(Cause::NotLegal { at: number(rest)? }),
        "full" => Some(Cause::LogFull {
            records: number(rest)?,
        }),
        _ => None,
    }
}

// `absent`, `size SIZE` or `whole SIZE BYTE`.
fn found_as(line: &str) -> Option<Found> {
    let (word, rest) = first(line);
    let (size, byte) = first(rest);
    match word {
        "absent" => Some(Found::Absent),
        "size" => Some(Found::Size(whole(size)?)),
        "whole" => Some(Found::Whole(content(size, byte)?)),
        _ => None,
    }
}

/// `changed FILE SIZE BYTE FOUND` of a file that no rule makes, and `damaged ..` of a made one: what
/// was logged, and what was found, which is `absent`, `size SIZE` or `whole SIZE BYTE`.
pub fn unlike(kind: &str, line: &str) -> Option<Cause> {
    let (file, rest) = first(line);
    let (size, rest) = first(rest);
    let (byte, rest) = first(rest);
    let file = FileNo(number(file)?);
    let logged = content(size, byte)?;
    let found = found_as(rest)?;
    match kind {
        "changed" => Some(Cause::SourceChanged {
            file,
            logged,
            found,
        }),
        "damaged" => Some(Cause::FileDamaged {
            file,
            logged,
            found,
        }),
        _ => None,
    }
}
