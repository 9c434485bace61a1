//! What a worker is called with.
use crate::hex_words::bytes_of;
use crate::worker::answers::shown_end;
use flow_types::{Bytes, Failure, Outcome, Rows};
use mem_links::{DialStep, LinkStep, MemDial, MemLink};
use mem_outside::{Blank, MemSink, TableRunner};
use peer_run::worker_top;
use std::alloc::{AllocError, Global};
use std::mem;
use std::sync::Wait;
use std::thread::Threads;
use worker_pool::OpenGate;

/// The steps of the link, the runner and the sink.
#[derive(Drop)]
pub struct Scene {
    steps: Rows<LinkStep>,
    has_link: bool,
    runners: Vec<TableRunner<Blank>>,
    sink: MemSink,
}

// What stands before the first blank of a line, and what behind it.
fn first(line: &str) -> (&str, &str) {
    match line.split_once(' ') {
        Some(words) => words,
        None => (line, ""),
    }
}

fn outcome_of(alloc: Global, text: &str) -> Result<Option<Outcome>, AllocError> {
    let (kind, rest) = first(text);
    if kind == "makes" {
        let mut contents = Vec::new(alloc);
        contents.push(Bytes::from_vec(Vec::from_slice(alloc, rest.as_bytes())?))?;
        return Ok(Some(Outcome::Success(Rows::of(contents))));
    }
    match rest.parse::<i32>() {
        Ok(status) => Ok(Some(Outcome::Failed(Failure::Status(status)))),
        Err(_) => Ok(None),
    }
}

impl Scene {
    /// A link that is idle, a runner that knows no command, and a sink that takes all.
    pub fn new(alloc: Global) -> Result<Scene, AllocError> {
        let mut runners = Vec::new(alloc);
        runners.push(TableRunner::new(alloc))?;
        Ok(Scene {
            steps: Rows::new(alloc),
            has_link: true,
            runners,
            sink: MemSink::new(alloc),
        })
    }

    fn step_of(alloc: Global, word: &str, rest: &str) -> Result<Option<LinkStep>, AllocError> {
        match word {
            "give" => Ok(Some(LinkStep::Give(Bytes::from_vec(bytes_of(alloc, rest)?)))),
            "idle" => Ok(Some(LinkStep::Idle)),
            "close" => Ok(Some(LinkStep::Close)),
            "fail" => Ok(Some(LinkStep::Fail)),
            "failsend" => Ok(Some(LinkStep::FailSend)),
            "behind" => Ok(Some(LinkStep::Behind)),
            "failflush" => Ok(Some(LinkStep::FailFlush)),
            _ => Ok(None),
        }
    }

    // What the runner answers to a command.
    fn put(&mut self, command: &str, outcome: Outcome) -> Result<bool, AllocError> {
        let Some(runner) = self.runners.first_mut() else {
            return Ok(false);
        };
        let noted = match outcome {
            Outcome::Success(contents) => runner.put(command, Outcome::Success(contents)),
            Outcome::Failed(why) => runner.put(command, Outcome::Failed(why)),
            Outcome::NotRun => return Ok(false),
        };
        match noted {
            Ok(()) => Ok(true),
            Err(_) => Err(AllocError),
        }
    }

    // Notes one line, and tells whether it is in form.
    fn note(&mut self, alloc: Global, line: &str) -> Result<bool, AllocError> {
        if let Some((command, text)) = line.split_once(" => ") {
            let Some(outcome) = outcome_of(alloc, text)? else {
                return Ok(false);
            };
            return self.put(command, outcome);
        }
        let (word, rest) = first(line);
        match word {
            "nolink" => {
                self.has_link = false;
                return Ok(true);
            }
            "sinkfails" => {
                return match self.sink.fail_at(0) {
                    Ok(()) => Ok(true),
                    Err(_) => Err(AllocError),
                };
            }
            _ => {}
        }
        let Some(step) = Scene::step_of(alloc, word, rest)? else {
            return Ok(false);
        };
        match self.steps.push(step) {
            Ok(()) => Ok(true),
            Err(_) => Err(AllocError),
        }
    }

    // A call with these words, over a link that takes the steps noted so far.
    fn work<W: Threads + Wait + Sync>(
        &mut self,
        rt: &W,
        alloc: Global,
        text: &str,
    ) -> Result<String, AllocError> {
        let mut words = Vec::new(alloc);
        words.push(String::from_str(alloc, "work_queue_worker")?)?;
        for word in text.split_whitespace() {
            words.push(String::from_str(alloc, word)?)?;
        }
        let steps = mem::replace(&mut self.steps, Rows::new(alloc));
        let mut dial = dial_of(alloc, steps, self.has_link)?;
        if self.runners.is_empty() {
            return Ok(String::new(alloc));
        }
        let ended = worker_top::<Blank, W, MemDial, TableRunner<Blank>, MemSink, OpenGate>(
            rt,
            alloc,
            words.as_slice(),
            &mut dial,
            self.runners.as_mut_slice(),
            &OpenGate,
            &mut self.sink,
        );
        shown_end(alloc, &ended, self.sink.bytes())
    }

    /// Does what a line says. Only a call has an answer, and a line out of form.
    pub fn answer<W: Threads + Wait + Sync>(
        &mut self,
        rt: &W,
        alloc: Global,
        line: &str,
    ) -> Result<String, AllocError> {
        let (word, rest) = first(line);
        if word == "work" {
            return self.work(rt, alloc, rest);
        }
        if self.note(alloc, line)? {
            return Ok(String::new(alloc));
        }
        format!(in alloc; "bad line {line}\n")
    }
}

// A dial over a link with these steps, if there is one, and else one that fails.
fn dial_of(alloc: Global, steps: Rows<LinkStep>, has_link: bool) -> Result<MemDial, AllocError> {
    let mut dials = Rows::new(alloc);
    let step = if has_link {
        DialStep::Link(MemLink::new(alloc, steps))
    } else {
        DialStep::Fail
    };
    match dials.push(step) {
        Ok(()) => Ok(MemDial::new(alloc, dials)),
        Err(_) => Err(AllocError),
    }
}
