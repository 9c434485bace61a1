//! Whole calls of `worker_top` over a link in memory.
//!
//! A case is a script. `COMMAND => makes CONTENT`, `=> status N` or `=> fails` say what the runner
//! answers; `give HEX`, `idle`, `close`, `fail`, `failsend`, `behind` and `failflush` are what the
//! link does next, and `nolink` is a dial that fails; `sinkfails` is a sink whose write fails.
//! `work WORD..` makes a call with these words. It is answered by the status, the cause and all that
//! was printed, and by what was sent, a frame a line.

mod answers;
mod scene;

use crate::worker::scene::Scene;
use std::alloc::{AllocError, Global};
use std::sync::Wait;
use std::thread::Threads;

/// What the lines of a script are answered by.
pub(crate) fn told<W>(rt: &W, alloc: Global, text: &str) -> Result<String, AllocError>
where
    W: Threads + Wait + Sync,
{
    let mut scene = Scene::new(alloc)?;
    let mut shown = String::new(alloc);
    for line in text.lines() {
        let answer = scene.answer(rt, alloc, line)?;
        shown.push_str(&answer)?;
    }
    Ok(shown)
}
