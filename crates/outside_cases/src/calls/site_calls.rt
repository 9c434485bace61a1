//! `site ..`: `put NAME TEXT`, `fails CALL`, `size NAME`, `read NAME AT ROOM`, `write NAME AT
//! TEXT`, `cut NAME LEN`, `sync NAME`, `remove NAME` and `faults`; `get NAME` shows a file without
//! a call; `crash CALL CHOICE` goes on with what a crash may leave after the call of that number,
//! and `image CALL CHOICE NAME` shows a file of it. A write behind the file's end, and a cut of no
//! file or to more than it has, is out of range and not made.
ghost use Rattle.std.specs.Prelude.{◌≡◌, ◌≤◌, true, length, IsSome};
ghost use Rattle.outside.specs.Files.{content};
ghost use Rattle.mem_outside.specs.MemSite.{files_of};

use crate::calls::words::{bytes_of, done, first, name_of, noted, number, said};
use cases::shown;
use flow_types::Name;
use mem_outside::MemSite;
use outside::{Fault, Site};
use std::alloc::{AllocError, Global};

const MOST_READ: usize = 16;

fn shown_file(alloc: Global, content: Option<&[u8]>) -> Result<String, AllocError> {
    match content {
        Some(bytes) => {
            let bytes = shown(alloc, bytes)?;
            format!(in alloc; "[{bytes}]")
        }
        None => said(alloc, "none"),
    }
}

fn sized(alloc: Global, site: &mut MemSite, name: &Name) -> Result<String, AllocError> {
    match site.size(name) {
        Ok(Some(size)) => format!(in alloc; "{size}"),
        Ok(None) => said(alloc, "none"),
        Err(Fault::Failed) => said(alloc, "failed"),
        Err(Fault::Memory) => Err(AllocError),
    }
}

// The count, and the room that was filled.
fn read(alloc: Global, site: &mut MemSite, name: &Name, rest: &str) -> Result<String, AllocError> {
    let (at, room) = first(rest);
    let (Some(at), Ok(room)) = (number(at), room.parse::<usize>()) else {
        return said(alloc, "no number");
    };
    if room > MOST_READ {
        return said(alloc, "too much");
    }
    let mut into = [b'.'; MOST_READ];
    match site.read(name, at, &mut into[..room]) {
        Ok(count) => {
            let bytes = shown(alloc, &into[..room])?;
            format!(in alloc; "{count} [{bytes}]")
        }
        Err(Fault::Failed) => said(alloc, "failed"),
        Err(Fault::Memory) => Err(AllocError),
    }
}

// Whether the place is within the file, its end too; of no file that is 0.
fn is_within(site: &MemSite, name: &Name, at: u64) -> bool
    ensures { result ≡ true → at ≤ length (content (files_of site.now name.now)) }
{
    match site.get(name.as_bytes()) {
        Some(content) => at <= content.len() as u64,
        None => at == 0,
    }
}

// Whether there is a file of at least so many bytes.
fn has_bytes(site: &MemSite, name: &Name, len: u64) -> bool
    ensures there { result ≡ true → IsSome (files_of site.now name.now) }
    ensures within { result ≡ true → len ≤ length (content (files_of site.now name.now)) }
{
    match site.get(name.as_bytes()) {
        Some(content) => len <= content.len() as u64,
        None => false,
    }
}

fn write(alloc: Global, site: &mut MemSite, name: &Name, rest: &str) -> Result<String, AllocError> {
    let (at, text) = first(rest);
    let Some(at) = number(at) else {
        return said(alloc, "no number");
    };
    if !is_within(site, name, at) {
        return said(alloc, "out of range");
    }
    done(alloc, site.write(name, at, bytes_of(text)))
}

fn cut(alloc: Global, site: &mut MemSite, name: &Name, len: &str) -> Result<String, AllocError> {
    let Some(len) = number(len) else {
        return said(alloc, "no number");
    };
    if !has_bytes(site, name, len) {
        return said(alloc, "out of range");
    }
    done(alloc, site.cut(name, len))
}

fn image(alloc: Global, site: &MemSite, rest: &str) -> Result<Option<MemSite>, AllocError> {
    let (call, choice) = first(rest);
    let (Some(call), Some(choice)) = (number(call), number(choice)) else {
        return Ok(None);
    };
    match site.image(alloc, call, choice) {
        Ok(image) => Ok(Some(image)),
        Err(_) => Err(AllocError),
    }
}

fn crash(alloc: Global, site: &mut MemSite, rest: &str) -> Result<String, AllocError> {
    match image(alloc, site, rest)? {
        Some(left) => {
            *site = left;
            said(alloc, "crashed")
        }
        None => said(alloc, "no number"),
    }
}

fn shown_image(alloc: Global, site: &MemSite, rest: &str) -> Result<String, AllocError> {
    let (name, rest) = first(rest);
    match image(alloc, site, rest)? {
        Some(left) => shown_file(alloc, left.get(name.as_bytes())),
        None => said(alloc, "no number"),
    }
}

// A call of the trait over the file of this name.
fn of_file(
    alloc: Global,
    site: &mut MemSite,
    call: &str,
    rest: &str,
) -> Result<String, AllocError> {
    let (word, rest) = first(rest);
    let name = name_of(alloc, word)?;
    match call {
        "put" => noted(alloc, site.put(&name, bytes_of(rest))),
        "size" => sized(alloc, site, &name),
        "read" => read(alloc, site, &name, rest),
        "write" => write(alloc, site, &name, rest),
        "cut" => cut(alloc, site, &name, rest),
        "sync" => done(alloc, site.sync(&name)),
        "remove" => done(alloc, site.remove(&name)),
        _ => said(alloc, "no call"),
    }
}

/// Makes a call of the site, and says its answer.
pub fn of_site(alloc: Global, site: &mut MemSite, line: &str) -> Result<String, AllocError> {
    let (call, rest) = first(line);
    match call {
        "fails" => match number(rest) {
            Some(call) => noted(alloc, site.fail_at(call)),
            None => said(alloc, "no number"),
        },
        "faults" => {
            let faults = site.faults();
            format!(in alloc; "{faults}")
        }
        "get" => shown_file(alloc, site.get(rest.as_bytes())),
        "crash" => crash(alloc, site, rest),
        "image" => shown_image(alloc, site, rest),
        _ => of_file(alloc, site, call, rest),
    }
}
