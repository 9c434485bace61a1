//! A script, line by line.
//!
//! `source CONTENT` is the content of the next source, in the order of their numbers. `mode never`,
//! `mode refcount`, `mode ondemand`, `limit BYTES`, `retries COUNT` and `wq` are the options. `job
//! COMMAND => CONTENT` says what a command makes, with a `|` between two outputs, and `fail COMMAND
//! => STATUS` with which status it ends. `random SEED WORLDS EVENTS` asks for so many worlds of so
//! many random events, by `random.rt`, with foremen where `foremen` stands behind it, and `expect FILE
//! CONTENT` says what a made file holds there wherever it is present. Every other line is an event, by
//! `events.rt`.
use crate::events::event_of;
use crate::random::{Random, random_of};
use anyhow::{Result, bail};
use flow_types::{Amounts, Bytes, Failure, Outcome, Rows};
use mem_outside::{Blank, TableRunner};
use net_world::WorldEvent;
use run_history::{Mode, Options};
use std::alloc::Global;

/// The content that a made file has wherever it is present.
#[derive(Drop)]
pub struct Expected {
    pub name: String,
    pub content: Vec<u8>,
}

/// What a case is played with.
#[derive(Drop)]
pub struct Script {
    pub sources: Rows<Bytes>,
    pub options: Options,
    pub runner: TableRunner<Blank>,
    pub events: Rows<WorldEvent>,
    pub random: Option<Random>,
    pub expected: Vec<Expected>,
}

/// What stands before the first blank of a line, and what behind it.
pub fn first(line: &str) -> (&str, &str) {
    match line.split_once(' ') {
        Some(words) => words,
        None => (line, ""),
    }
}

/// The script of these lines.
pub fn read_script(alloc: Global, lines: &str) -> Result<Script> {
    let mut sources = Vec::new(alloc);
    let mut events = Vec::new(alloc);
    let mut options = FIRST_OPTIONS;
    let mut runner = TableRunner::new(alloc);
    let mut random = None;
    let mut expected = Vec::new(alloc);
    for line in lines.lines() {
        let (word, rest) = first(line);
        if word == "source" {
            sources.push(bytes_of(alloc, rest)?)?;
        } else if word == "expect" {
            expected.push(expected_of(alloc, rest)?)?;
        } else if word == "random" {
            random = random_of(rest);
        } else if let Some(event) = event_of(line) {
            events.push(event)?;
        } else if let Some(changed) = option_of(options, line) {
            options = changed;
        } else if !put_job(alloc, &mut runner, line)? {
            bail!("bad case: `{line}`");
        }
    }
    Ok(Script {
        sources: Rows::of(sources),
        options,
        runner,
        events: Rows::of(events),
        random,
        expected,
    })
}

const FIRST_OPTIONS: Options = Options {
    mode: Mode::Never,
    limit: None,
    retries: 0,
    wq: false,
    local: Amounts {
        cores: 64,
        memory: 1_000_000,
        disk: 1_000_000,
    },
};

fn expected_of(alloc: Global, line: &str) -> Result<Expected> {
    let (name, content) = first(line);
    Ok(Expected {
        name: String::from_str(alloc, name)?,
        content: Vec::from_slice(alloc, content.as_bytes())?,
    })
}

fn bytes_of(alloc: Global, text: &str) -> Result<Bytes> {
    Ok(Bytes::from_vec(Vec::from_slice(alloc, text.as_bytes())?))
}

// The options with what the line says.
fn option_of(options: Options, line: &str) -> Option<Options> {
    let (word, rest) = first(line);
    match word {
        "mode" => Some(Options {
            mode: mode_of(rest)?,
            ..options
        }),
        "limit" => Some(Options {
            limit: Some(rest.parse::<u64>().ok()?),
            ..options
        }),
        "retries" => Some(Options {
            retries: rest.parse::<u32>().ok()?,
            ..options
        }),
        "wq" => Some(Options {
            wq: true,
            ..options
        }),
        _ => None,
    }
}

fn mode_of(word: &str) -> Option<Mode> {
    match word {
        "never" => Some(Mode::Never),
        "refcount" => Some(Mode::RefCount),
        "ondemand" => Some(Mode::OnDemand),
        _ => None,
    }
}

// Puts an outcome into the table, and tells whether the line is in form.
fn put_job(alloc: Global, runner: &mut TableRunner<Blank>, line: &str) -> Result<bool> {
    let (word, rest) = first(line);
    let Some((command, answer)) = rest.split_once(" => ") else {
        return Ok(false);
    };
    match word {
        "job" => {
            let mut outs = Vec::new(alloc);
            for content in answer.split('|') {
                outs.push(bytes_of(alloc, content)?)?;
            }
            Ok(
                runner
                    .put(command, Outcome::Success(Rows::of(outs)))
                    .is_ok(),
            )
        }
        "fail" => match answer.parse::<i32>() {
            Ok(status) => {
                let outcome = Outcome::Failed(Failure::Status(status));
                Ok(runner.put(command, outcome).is_ok())
            }
            Err(_) => Ok(false),
        },
        _ => Ok(false),
    }
}
