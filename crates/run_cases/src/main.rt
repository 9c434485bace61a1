//! Whole calls of `makeflow_top` in memory, of `archive_top` and of `worker_top`.
//!
//! Where the title of a case begins with `archive` or `worker` and a colon, its lines are those of
//! `archived.rt` or `worker.rt`. Any other case is a script over a site, a runner or several, who comes, and a sink, which begin empty.
//! Its lines are those of `scene.rt`, `jobs.rt` and `comers.rt`, and `run WORD..`, which makes a call
//! with these words. The lines below it go on with the files that it left, so a case may have
//! several runs.
//!
//! A run is answered by the status, the cause and all that was printed; then by the number of
//! records and how often the site, the runners and the sink failed in all; then by the links that it
//! handed back, by `backs.rt`; then by each file that the case names, as the run left it. A crash is
//! answered by these files alone. Calls over each crash or fault are answered by a line for each
//! whose outcome isn't that of the one before it: the number of the crash or fault, the status, the
//! cause, the number of records, and the files that stand otherwise than they were shown last.
#![tactic(auto)]

mod answers;
mod archived;
mod backs;
mod comers;
mod files;
mod hex_words;
mod jobs;
mod scene;
mod steps;
mod words;
mod worker;

use crate::scene::Scene;
use anyhow::Result;
use cases::{Case, read_cases, read_input};
use std::alloc::{AllocError, Global};
use std::str;
use std::sync::Wait;
use std::thread::Threads;

// What the lines of a script are answered by.
fn played<W>(rt: &W, alloc: Global, text: &str) -> Result<String, AllocError>
where
    W: Threads + Wait + Sync,
{
    let mut scene = Scene::new(alloc)?;
    let mut shown = String::new(alloc);
    for line in text.lines() {
        let answer = scene.answer(rt, alloc, line)?;
        shown.push_str(&answer)?;
    }
    Ok(shown)
}

fn answer<W: Threads + Wait + Sync>(rt: &W, alloc: Global, case: &Case) -> Result<String> {
    let body = case.body(alloc)?;
    let text = str::from_utf8(&body)?;
    match case.title.split_once(':') {
        Some(("archive", _)) => Ok(archived::answers(rt, alloc, text)?),
        Some(("worker", _)) => Ok(worker::told(rt, alloc, text)?),
        _ => Ok(played(rt, alloc, text)?),
    }
}

fn main(rt: HostRuntime) -> Result<()> {
    let alloc = rt.alloc();
    let text = read_input(&rt)?;
    for case in read_cases(alloc, &text)?.iter() {
        let title = case.title.as_str();
        let shown = answer(&rt, alloc, case)?;
        print!(rt; "== {title}\n{shown}")?;
    }
    Ok(())
}
