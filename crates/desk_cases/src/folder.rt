//! The folder, while no desk has it.
//!
//! `file NAME` puts a file that holds its name, and `file NAME CONTENT` one that holds this. `get
//! NAME` shows a file. `fails CALL` says that a call of the folder is to fail; they are numbered
//! from 0. `crash CALL CHOICE` goes on with what a crash after that call may leave, where CALL may
//! be `-` for the last one. `log ..` appends a record, by `logs.rt`.
use crate::logs::record_of;
use crate::words::{first, number, said};
use cases::shown;
use desk_bench::append;
use flow_types::{Memory, Name};
use mem_outside::MemSite;
use std::alloc::{AllocError, Global};

fn put(alloc: Global, site: &mut MemSite, line: &str) -> Result<String, AllocError> {
    let (word, rest) = first(line);
    let content = if rest.is_empty() { word } else { rest };
    let Ok(name) = Name::of(alloc, word.as_bytes()) else {
        return said(alloc, "no name");
    };
    match site.put(&name, content.as_bytes()) {
        Ok(()) => said(alloc, "put"),
        Err(Memory) => Err(AllocError),
    }
}

fn get(alloc: Global, site: &MemSite, name: &str) -> Result<String, AllocError> {
    match site.get(name.as_bytes()) {
        Some(content) => {
            let content = shown(alloc, content)?;
            format!(in alloc; "[{content}]")
        }
        None => said(alloc, "none"),
    }
}

fn fail_at(alloc: Global, site: &mut MemSite, word: &str) -> Result<String, AllocError> {
    let Some(call) = number(word) else {
        return said(alloc, "no number");
    };
    match site.fail_at(call) {
        Ok(()) => said(alloc, "noted"),
        Err(Memory) => Err(AllocError),
    }
}

fn call_of(word: &str) -> Option<u64> {
    if word == "-" {
        return Some(u64::MAX);
    }
    number(word)
}

fn crash(alloc: Global, site: &mut MemSite, line: &str) -> Result<String, AllocError> {
    let (call, choice) = first(line);
    let (Some(call), Some(choice)) = (call_of(call), number(choice)) else {
        return said(alloc, "no number");
    };
    match site.image(alloc, call, choice) {
        Ok(left) => {
            *site = left;
            said(alloc, "crashed")
        }
        Err(Memory) => Err(AllocError),
    }
}

fn log(alloc: Global, site: &mut MemSite, line: &str) -> Result<String, AllocError> {
    let Some(entry) = record_of(alloc, line) else {
        return said(alloc, "no record");
    };
    match append(alloc, site, &entry) {
        Ok(()) => said(alloc, "logged"),
        Err(_) => said(alloc, "not logged"),
    }
}

/// Does what a line of this kind says to the folder.
pub fn of_folder(
    alloc: Global,
    site: &mut MemSite,
    kind: &str,
    line: &str,
) -> Result<String, AllocError> {
    match kind {
        "file" => put(alloc, site, line),
        "get" => get(alloc, site, line),
        "fails" => fail_at(alloc, site, line),
        "crash" => crash(alloc, site, line),
        _ => log(alloc, site, line),
    }
}
