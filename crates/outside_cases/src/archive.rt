//! Scripts of calls over an archive in memory.
//!
//! A case begins with a job without anything, an archive without entries in the folder `kept`, and
//! a runner that knows no job. The lines that tell the job are in `jobs.rt`, those that change the
//! archive's files in `files.rt`. `knows CONTENT`, with a `|` between the contents of two outputs,
//! and `ends` say that the runner answers a job of this command with these outputs, or that the
//! command ended with status 3; `strange` puts a runner in its place that knows no job, and
//! `refuses CALL` says that its job of that number is to fail. What asks is in `asks.rt` and
//! `trials.rt`, and is answered.

mod asks;
mod files;
mod jobs;
mod scene;
mod trials;
mod words;

use crate::archive::scene::Scene;
use std::alloc::{AllocError, Global};
use std::sync::Wait;

/// What the lines of a script are answered by.
pub(crate) fn answers<W: Wait + Sync>(
    rt: &W,
    alloc: Global,
    text: &str,
) -> Result<String, AllocError> {
    let mut scene = Scene::new(alloc)?;
    let mut shown = String::new(alloc);
    for line in text.lines() {
        let answer = scene.answer(rt, alloc, line)?;
        shown.push_str(&answer)?;
    }
    Ok(shown)
}
