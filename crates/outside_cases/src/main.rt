//! The outside in memory, and an archive of results over it.
//!
//! The title of a case begins with `outside` or `archive`, and a colon. Each case begins with new
//! objects, and its lines are calls: `calls.rt` and `archive.rt` tell which, and which are answered.
#![tactic(auto)]

mod archive;
mod calls;

use anyhow::{Result, bail};
use cases::{Case, read_cases, read_input};
use std::alloc::Global;
use std::str;
use std::sync::Wait;

fn answer<W: Wait + Sync>(rt: &W, alloc: Global, case: &Case) -> Result<String> {
    let body = case.body(alloc)?;
    let text = str::from_utf8(&body)?;
    match case.title.split_once(':') {
        Some(("outside", _)) => Ok(calls::answers(alloc, text)?),
        Some(("archive", _)) => Ok(archive::answers(rt, alloc, text)?),
        _ => bail!("bad case: {}", case.title),
    }
}

fn main(rt: HostRuntime) -> Result<()> {
    let alloc = rt.alloc();
    let text = read_input(&rt)?;
    for case in read_cases(alloc, &text)?.iter() {
        let title = case.title.as_str();
        let shown = answer(&rt, alloc, case)?;
        print!(rt; "== {title}\n{shown}")?;
    }
    Ok(())
}
