//! What a script works on, and its lines.
//!
//! Lines of the kinds `rule`, `command`, `env`, `local`, `bound` and `keep` are a flow, by
//! `flow.rt`. Those of `folder.rt` are about the folder, while no desk has it. `start ..` starts a
//! desk over the flow and the folder, with the options of `options.rt`; where there is a desk, it
//! and its folder are given up. `parts` gives the folder back and answers the records. The other
//! lines are calls of the desk, by `attempts.rt`, `links.rt` and `runs.rt`.
use crate::answers::{shown_records, shown_unready};
use crate::attempts::of_attempt;
use crate::flow::plan_of;
use crate::folder::of_folder;
use crate::links::of_link;
use crate::options::options_of;
use crate::runs::of_run;
use crate::slots::Slots;
use crate::words::{first, said};
use desk_bench::{Bench, begin};
use mem_outside::MemSite;
use std::alloc::{AllocError, Global};
use std::mem;

/// A flow, a folder, and a desk where one is started.
#[derive(Drop)]
pub struct Scene {
    flow: Vec<String>,
    site: MemSite,
    bench: Option<Bench>,
}

impl Scene {
    /// No rules, an empty folder and no desk.
    pub fn new(alloc: Global) -> Scene {
        Scene {
            flow: Vec::new(alloc),
            site: MemSite::new(alloc),
            bench: None,
        }
    }

    /// Does what a line says, and answers it.
    pub fn answer(
        &mut self,
        alloc: Global,
        slots: &mut Slots,
        line: &str,
    ) -> Result<String, AllocError> {
        let (kind, rest) = first(line);
        match kind {
            "rule" | "command" | "env" | "local" | "bound" | "keep" => self.note(alloc, line),
            "file" | "get" | "fails" | "crash" | "log" => {
                of_folder(alloc, &mut self.site, kind, rest)
            }
            "start" => self.start(alloc, rest),
            "parts" => self.parts(alloc),
            _ => self.call(alloc, slots, kind, rest),
        }
    }

    // One more line of the flow.
    fn note(&mut self, alloc: Global, line: &str) -> Result<String, AllocError> {
        let line = String::from_str(alloc, line)?;
        self.flow.push(line)?;
        said(alloc, "noted")
    }

    fn start(&mut self, alloc: Global, line: &str) -> Result<String, AllocError> {
        let Some(options) = options_of(line) else {
            return said(alloc, "no options");
        };
        let Some(plan) = plan_of(alloc, &self.flow) else {
            return said(alloc, "no plan");
        };
        let site = mem::replace(&mut self.site, MemSite::new(alloc));
        match begin(alloc, plan, site, options) {
            Ok(bench) => {
                self.bench = Some(bench);
                said(alloc, "started")
            }
            Err((why, site)) => {
                self.site = site;
                shown_unready(alloc, why)
            }
        }
    }

    fn parts(&mut self, alloc: Global) -> Result<String, AllocError> {
        let Some(bench) = mem::replace(&mut self.bench, None) else {
            return said(alloc, "no desk");
        };
        match bench.parts() {
            Ok((site, records)) => {
                self.site = site;
                shown_records(alloc, records.as_slice())
            }
            Err(bench) => {
                self.bench = Some(bench);
                said(alloc, "an attempt runs")
            }
        }
    }

    // A call of the desk.
    fn call(
        &mut self,
        alloc: Global,
        slots: &mut Slots,
        kind: &str,
        line: &str,
    ) -> Result<String, AllocError> {
        let Some(bench) = &mut self.bench else {
            return said(alloc, "no desk");
        };
        match kind {
            "claim" | "finish" | "fail" | "lose" | "task" => {
                of_attempt(alloc, bench, slots, kind, line)
            }
            "join" | "totals" | "leave" | "lives" | "busy" => of_link(alloc, bench, kind, line),
            _ => of_run(alloc, bench, kind, line),
        }
    }
}
