//! One call of `makeflow_top` in memory, over commands that make something of their inputs, all of
//! whose promises on contents apply; and jobs of such commands, one that succeeds and two that
//! fail.
#![tactic(auto)]

mod call;
mod jobs;
mod laws;
mod scene;

use crate::call::call;
use crate::jobs::{answer, job};
use crate::scene::{site_of, words_of};
use mem_commands::JoinedRunner;
use mem_outside::{MemSink, MemSite};
use std::alloc::AllocError;
use std::str;

fn main(rt: HostRuntime) -> anyhow::Result<()> {
    let alloc = rt.alloc();
    let words = words_of(alloc)?;
    let Ok(site) = site_of(alloc) else {
        return Err(AllocError.into());
    };
    let mut runners = [JoinedRunner::sure()];
    let mut out = MemSink::new(alloc);
    let ended = call(&rt, alloc, words.as_slice(), site, &mut runners, &mut out);
    let status = ended.status;
    let printed = str::from_utf8(out.bytes())?;
    print!(rt; "{printed}")?;
    println!(rt; "status {status}")?;
    for name in ["b", "c"] {
        let content = content_of(&ended.site, name);
        println!(rt; "{name}: {content}")?;
    }
    for command in ["de", "false", "defg"] {
        let said = answer(alloc, &job(alloc, command)?);
        println!(rt; "{command}: {said}")?;
    }
    Ok(())
}

// The content of a file, as text.
fn content_of<'a>(site: &'a MemSite, name: &str) -> &'a str {
    match site.get(name.as_bytes()) {
        Some(bytes) => str::from_utf8(bytes).unwrap_or("no text"),
        None => "no file",
    }
}
