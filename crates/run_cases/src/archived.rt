//! Whole calls of `archive_top` in memory.
//!
//! A case begins with the file `in` of `abc`, an empty archive, and a runner that knows no job.
//! `flow TEXT` adds a line to the file `flow`; `knows COMMAND` says that the runner answers a job
//! of this command with the output `abc`, and `strange` puts one in its place that knows none.
//! `makeflow_archive WORD..` makes a call with these words, over the files and the archive that the
//! one before it left. It is answered by the status, what was printed, how often the runner failed
//! in all, and the file `out`.

mod scene;

use crate::archived::scene::Scene;
use std::alloc::{AllocError, Global};
use std::sync::Wait;
use std::thread::Threads;

/// What the lines of a script are answered by.
pub(crate) fn answers<W>(rt: &W, alloc: Global, text: &str) -> Result<String, AllocError>
where
    W: Threads + Wait + Sync,
{
    let mut scene = Scene::new(alloc)?;
    let mut shown = String::new(alloc);
    for line in text.lines() {
        let answer = scene.answer(rt, alloc, line)?;
        shown.push_str(&answer)?;
    }
    Ok(shown)
}
