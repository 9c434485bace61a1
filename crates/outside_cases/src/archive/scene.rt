//! What a script works on.
use crate::archive::asks::{Table, kept, looked, ran, shown_answer, shown_look};
use crate::archive::files::{change_entry, key_of};
use crate::archive::jobs::{job_of, tell_job};
use crate::archive::trials::{damages, faults, stops};
use crate::archive::words::{first, noted, number};
use flow_types::{Bytes, Failure, Job, Outcome, Rows};
use mem_outside::{MemSite, TableRunner};
use std::alloc::{AllocError, Global};
use std::sync::Wait;

/// A job, the files of an archive, and a runner.
#[derive(Drop)]
pub struct Scene {
    job: Job,
    store: MemSite,
    runner: Table,
}

impl Scene {
    /// A job without anything, no files, and a runner that knows no job.
    pub fn new(alloc: Global) -> Result<Scene, AllocError> {
        Ok(Scene {
            job: job_of(alloc, "")?,
            store: MemSite::new(alloc),
            runner: TableRunner::new(alloc),
        })
    }

    /// Does what a line says. What asks is answered, and a line out of form.
    pub fn answer<W: Wait + Sync>(
        &mut self,
        rt: &W,
        alloc: Global,
        line: &str,
    ) -> Result<String, AllocError> {
        let (kind, rest) = first(line);
        if self.set(alloc, kind, rest)? {
            return Ok(String::new(alloc));
        }
        let (job, store, runner) = (&self.job, &mut self.store, &mut self.runner);
        let mut text = asked(rt, alloc, job, store, runner, kind, rest)?;
        text.push_str("\n")?;
        Ok(text)
    }

    // Sets what a line of this kind says, and tells whether there is such a kind.
    fn set(&mut self, alloc: Global, kind: &str, rest: &str) -> Result<bool, AllocError> {
        match kind {
            "job" => {
                self.job = job_of(alloc, rest)?;
                Ok(true)
            }
            "store" => {
                let (_, call) = first(rest);
                noted(self.store.fail_at(number(call)))?;
                Ok(true)
            }
            "strange" => {
                self.runner = TableRunner::new(alloc);
                Ok(true)
            }
            "knows" | "ends" | "refuses" => {
                tell_runner(alloc, &mut self.runner, &self.job, kind, rest)?;
                Ok(true)
            }
            _ => {
                if tell_job(alloc, &mut self.job, kind, rest)? {
                    return Ok(true);
                }
                change_entry(alloc, &mut self.store, &self.job, kind, rest)
            }
        }
    }
}

// What is asked of a job by a line of this kind.
fn asked<W: Wait + Sync>(
    rt: &W,
    alloc: Global,
    job: &Job,
    store: &mut MemSite,
    runner: &mut Table,
    kind: &str,
    rest: &str,
) -> Result<String, AllocError> {
    match kind {
        "key" => key_of(alloc, job),
        "look" => shown_look(alloc, looked(alloc, store, job)?),
        "keep" => String::from_str(alloc, kept(alloc, store, job, rest)?),
        "run" => shown_answer(alloc, &ran(rt, alloc, store, runner, job)?),
        "damages" => damages(alloc, store, job),
        "stops" => stops(alloc, store, job, number(rest)),
        "faults" => faults(rt, alloc, store, runner, job, number(rest)),
        _ => String::from_str(alloc, "no such line"),
    }
}

// The outputs that a text has between its strokes.
fn contents_of(alloc: Global, text: &str) -> Result<Rows<Bytes>, AllocError> {
    let mut outs = Rows::new(alloc);
    for content in text.split('|') {
        let Ok(output) = Bytes::of(alloc, content.as_bytes()) else {
            return Err(AllocError);
        };
        if outs.push(output).is_err() {
            return Err(AllocError);
        }
    }
    Ok(outs)
}

// What the runner answers the job, or which of its jobs is to fail.
fn tell_runner(
    alloc: Global,
    runner: &mut Table,
    job: &Job,
    kind: &str,
    word: &str,
) -> Result<(), AllocError> {
    let command = job.command.as_str();
    match kind {
        "knows" => noted(runner.put(command, Outcome::Success(contents_of(alloc, word)?))),
        "refuses" => noted(runner.fail_at(number(word))),
        _ => noted(runner.put(command, Outcome::Failed(Failure::Status(3)))),
    }
}
