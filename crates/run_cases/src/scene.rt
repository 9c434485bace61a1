//! What a script works on, and its lines.
//!
//! `file NAME CONTENT` puts a file, `show NAME` names one that no line puts, and `env NAME VALUE`
//! adds a variable of the environment. `runners COUNT` puts so many new runners in the place of the
//! one that there is before. `job COMMAND => OUTCOME` is a row of the table that each runner has, by
//! `jobs.rt`. `clock MOMENT` sets the clock, which stands at 7 before. `site fails CALL`, `runner
//! fails CALL` and `sink fails CALL` say that a call of the site, of the first runner or of the sink
//! is to fail; they are numbered from 0, and go on over the runs of a case. CONTENT is spelled with
//! the escapes of a `=~` case.
//!
//! `hall ..` and `link ..` say who comes to the next run, by `comers.rt`.
//!
//! `crash CALL CHOICE` puts in the site's place what a crash behind that call of it leaves, or one
//! now where there was none: at choice 0 each file as it was when it was last synced, at 1 all that
//! was written. The calls of that site are numbered from 0 again, and none of them is to fail.
//!
//! `each-crash CHOICE CALLS WORD..` makes a call with these words over what each crash behind the
//! first so many calls leaves, and `each-fault CALLS WORD..` makes one over the files of now for
//! each of its first so many calls, which is to fail. The site stays as it was.
mod trials;

use crate::answers::{shown_counts, shown_end};
use crate::backs::shown_links;
use crate::comers::Comers;
use crate::files::Files;
use crate::jobs::put_job;
use crate::words::{first, number_of, spelled, words_of};
use flow_types::{Memory, Name};
use master_run::{Ended, makeflow_top};
use mem_links::MemHall;
use mem_outside::{Blank, FixedClock, MemSink, MemSite, TableRunner};
use std::alloc::{AllocError, Global};
use std::mem;
use std::sync::Wait;
use std::thread::Threads;
use worker_pool::OpenGate;

/// A site, runners, a clock, a sink, an environment and who comes, and the files that are shown
/// after each run.
#[derive(Drop)]
pub struct Scene {
    site: MemSite,
    runners: Vec<TableRunner<Blank>>,
    clock: FixedClock,
    sink: MemSink,
    env: Vec<(String, String)>,
    comers: Comers,
    files: Files,
}

impl Scene {
    /// A scene of one runner, without files, outcomes or variables.
    pub fn new(alloc: Global) -> Result<Scene, AllocError> {
        Ok(Scene {
            site: MemSite::new(alloc),
            runners: runners_of(alloc, 1)?,
            clock: FixedClock(7),
            sink: MemSink::new(alloc),
            env: Vec::new(alloc),
            comers: Comers::new(alloc),
            files: Files::new(alloc),
        })
    }

    /// Does what a line says. Only a run and a crash have an answer, and a line out of form.
    pub fn answer<W: Threads + Wait + Sync>(
        &mut self,
        rt: &W,
        alloc: Global,
        line: &str,
    ) -> Result<String, AllocError> {
        let (kind, rest) = first(line);
        let answer = match kind {
            "run" => Some(self.run(rt, alloc, rest)?),
            "crash" => self.crash(alloc, rest)?,
            "each-crash" => self.each_crash(rt, alloc, rest)?,
            "each-fault" => self.each_fault(rt, alloc, rest)?,
            _ => self.set_silently(alloc, kind, rest)?,
        };
        match answer {
            Some(text) => Ok(text),
            None => format!(in alloc; "no such line: {line}\n"),
        }
    }

    // No answer, where the line is in form.
    fn set_silently(
        &mut self,
        alloc: Global,
        kind: &str,
        line: &str,
    ) -> Result<Option<String>, AllocError> {
        if self.set(alloc, kind, line)? {
            return Ok(Some(String::new(alloc)));
        }
        Ok(None)
    }

    // Sets what a line of this kind says, and tells whether it is in form.
    fn set(&mut self, alloc: Global, kind: &str, line: &str) -> Result<bool, AllocError> {
        match kind {
            "file" => self.put_file(alloc, line),
            "show" => self.show(alloc, line),
            "env" => self.add_variable(alloc, line),
            "runners" => self.set_runners(alloc, line),
            "job" => self.put_job(alloc, line),
            "clock" => Ok(self.set_clock(line)),
            "hall" => self.comers.note_hall(alloc, line),
            "link" => self.comers.note_link(alloc, line),
            _ => self.fail(kind, line),
        }
    }

    fn put_file(&mut self, alloc: Global, line: &str) -> Result<bool, AllocError> {
        let (name, text) = first(line);
        let Some(content) = spelled(alloc, text)? else {
            return Ok(false);
        };
        let Ok(name) = Name::of(alloc, name.as_bytes()) else {
            return Ok(false);
        };
        if self.site.put(&name, &content).is_err() {
            return Err(AllocError);
        }
        self.files.note(name, Some(content))?;
        Ok(true)
    }

    fn show(&mut self, alloc: Global, name: &str) -> Result<bool, AllocError> {
        match Name::of(alloc, name.as_bytes()) {
            Ok(name) => {
                self.files.note(name, None)?;
                Ok(true)
            }
            Err(_) => Ok(false),
        }
    }

    fn add_variable(&mut self, alloc: Global, line: &str) -> Result<bool, AllocError> {
        let (name, value) = first(line);
        let name = String::from_str(alloc, name)?;
        let value = String::from_str(alloc, value)?;
        self.env.push((name, value))?;
        Ok(true)
    }

    // So many runners, without outcomes.
    fn set_runners(&mut self, alloc: Global, line: &str) -> Result<bool, AllocError> {
        match number_of(line) {
            Some(count) => {
                self.runners = runners_of(alloc, count)?;
                Ok(true)
            }
            None => Ok(false),
        }
    }

    fn put_job(&mut self, alloc: Global, line: &str) -> Result<bool, AllocError> {
        for runner in self.runners.iter_mut() {
            if !put_job(alloc, runner, line)? {
                return Ok(false);
            }
        }
        Ok(true)
    }

    fn set_clock(&mut self, line: &str) -> bool {
        match number_of(line) {
            Some(moment) => {
                self.clock = FixedClock(moment);
                true
            }
            None => false,
        }
    }

    // A call of this object is to fail.
    fn fail(&mut self, object: &str, line: &str) -> Result<bool, AllocError> {
        let ("fails", word) = first(line) else {
            return Ok(false);
        };
        let Some(call) = number_of(word) else {
            return Ok(false);
        };
        let noted = match object {
            "site" => self.site.fail_at(call),
            "runner" => match self.runners.first_mut() {
                Some(runner) => runner.fail_at(call),
                None => return Ok(false),
            },
            "sink" => self.sink.fail_at(call),
            _ => return Ok(false),
        };
        match noted {
            Ok(()) => Ok(true),
            Err(Memory) => Err(AllocError),
        }
    }

    // Makes a call with these words over the site, which it takes. There has to be a runner.
    fn call<W: Threads + Wait + Sync>(
        &mut self,
        rt: &W,
        alloc: Global,
        words: &[String],
        hall: &mut MemHall,
    ) -> Option<Ended<MemSite>> {
        let site = mem::replace(&mut self.site, MemSite::new(alloc));
        call(
            rt,
            alloc,
            words,
            &self.env,
            site,
            hall,
            &mut self.runners,
            &self.clock,
            &mut self.sink,
        )
    }

    // What is told of a call before which so many bytes had been printed.
    fn told(
        &mut self,
        alloc: Global,
        ended: &Ended<MemSite>,
        hall: &MemHall,
        before: usize,
    ) -> Result<String, AllocError> {
        let printed = self.sink.bytes().get(before..).unwrap_or(&[]);
        let mut text = shown_end(alloc, ended, printed)?;
        let counts = shown_counts(alloc, ended, &self.runners, &self.sink)?;
        text.push_str(&counts)?;
        let links = shown_links(alloc, hall)?;
        text.push_str(&links)?;
        let files = self.files.shown(alloc, &ended.site)?;
        text.push_str(&files)?;
        Ok(text)
    }

    // Makes a call with these words, and goes on with the files that it left.
    fn run<W: Threads + Wait + Sync>(
        &mut self,
        rt: &W,
        alloc: Global,
        line: &str,
    ) -> Result<String, AllocError> {
        let words = words_of(alloc, line)?;
        let before = self.sink.bytes().len();
        let mut hall = self.comers.hall(alloc)?;
        let Some(ended) = self.call(rt, alloc, &words, &mut hall) else {
            return String::from_str(alloc, NO_RUNNER);
        };
        let text = self.told(alloc, &ended, &hall, before)?;
        self.site = ended.site;
        Ok(text)
    }

    // What a crash behind a call leaves, at this choice.
    fn image(&self, alloc: Global, call: u64, choice: u64) -> Result<MemSite, AllocError> {
        match self.site.image(alloc, call, choice) {
            Ok(site) => Ok(site),
            Err(Memory) => Err(AllocError),
        }
    }

    // Goes on with what a crash leaves.
    fn crash(&mut self, alloc: Global, line: &str) -> Result<Option<String>, AllocError> {
        let (call, choice) = first(line);
        let (Some(call), Some(choice)) = (number_of(call), number_of(choice)) else {
            return Ok(None);
        };
        self.site = self.image(alloc, call, choice)?;
        Ok(Some(self.files.shown(alloc, &self.site)?))
    }
}

const NO_RUNNER: &str = "no runner\n";

// So many runners, without outcomes.
fn runners_of(alloc: Global, count: u64) -> Result<Vec<TableRunner<Blank>>, AllocError> {
    let mut runners = Vec::new(alloc);
    for _ in 0..count {
        runners.push(TableRunner::new(alloc))?;
    }
    Ok(runners)
}

// The one call of what the table is about. There has to be a runner.
fn call<W: Threads + Wait + Sync>(
    rt: &W,
    alloc: Global,
    words: &[String],
    env: &[(String, String)],
    site: MemSite,
    hall: &mut MemHall,
    runners: &mut [TableRunner<Blank>],
    clock: &FixedClock,
    sink: &mut MemSink,
) -> Option<Ended<MemSite>> {
    if runners.is_empty() {
        return None;
    }
    Some(makeflow_top(
        rt, alloc, words, env, site, hall, runners, &OpenGate, clock, sink,
    ))
}
