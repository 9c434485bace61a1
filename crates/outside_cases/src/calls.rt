//! Scripts of calls over the outside in memory: a site, a sink and two runners.
//!
//! Each case begins with new ones. Its lines are calls, in the words of `site_calls.rt`,
//! `sink_calls.rt` and `runner_calls.rt`, and each is answered on a line. `''` stands for a text
//! without bytes.

mod runner_calls;
mod sink_calls;
mod site_calls;
mod words;

use crate::calls::runner_calls::of_runner;
use crate::calls::sink_calls::of_sink;
use crate::calls::site_calls::of_site;
use crate::calls::words::first;
use mem_outside::{Blank, MemSink, MemSite, TableRunner};
use std::alloc::{AllocError, Global};

// What a script calls.
#[derive(Drop)]
struct Scene {
    site: MemSite,
    sink: MemSink,
    runner: TableRunner<Blank>,
}

impl Scene {
    fn new(alloc: Global) -> Scene {
        Scene {
            site: MemSite::new(alloc),
            sink: MemSink::new(alloc),
            runner: TableRunner::new(alloc),
        }
    }

    fn answer(&mut self, alloc: Global, line: &str) -> Result<String, AllocError> {
        let (object, call) = first(line);
        match object {
            "site" => of_site(alloc, &mut self.site, call),
            "sink" => of_sink(alloc, &mut self.sink, call),
            "runner" => of_runner(alloc, &mut self.runner, call),
            _ => String::from_str(alloc, "no object"),
        }
    }
}

/// The answer of each line, a line each.
pub(crate) fn answers(alloc: Global, text: &str) -> Result<String, AllocError> {
    let mut shown = String::new(alloc);
    let mut scene = Scene::new(alloc);
    for line in text.lines() {
        let answer = scene.answer(alloc, line)?;
        shown.push_str(&answer)?;
        shown.push_str("\n")?;
    }
    Ok(shown)
}
