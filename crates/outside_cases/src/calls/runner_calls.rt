//! `runner ..`: `fails CALL`; `succeeds COMMAND CONTENT..`, `status COMMAND STATUS`, `missing
//! COMMAND OUTPUT` and `long COMMAND OUTPUT SIZE` put an outcome under a command; `run COMMAND
//! BOUND..` runs a job with outputs of these bounds, and `blank COMMAND BOUND..` does it with the
//! runner whose outputs are empty; `faults`.
use crate::calls::words::{bytes_of, first, noted, number, said};
use cases::shown;
use flow_types::{Bytes, Failure, Job, Memory, Name, Outcome, Rows, Text, Want};
use mem_outside::{Blank, BlankRunner, TableRunner};
use outside::{Fault, Runner};
use std::alloc::{AllocError, Global};

// A job with outputs of these bounds.
fn job_of(alloc: Global, command: &str, bounds: &str) -> Result<Job, AllocError> {
    let mut outputs = Rows::new(alloc);
    for bound in bounds.split_whitespace() {
        let Ok(remote) = Name::of(alloc, b"out") else {
            return Err(AllocError);
        };
        let bound = number(bound).unwrap_or(0);
        if outputs.push(Want { remote, bound }).is_err() {
            return Err(AllocError);
        }
    }
    let Ok(command) = Text::of(alloc, command) else {
        return Err(AllocError);
    };
    Ok(Job {
        command,
        env: Rows::new(alloc),
        inputs: Rows::new(alloc),
        outputs,
    })
}

fn contents_of(alloc: Global, words: &str) -> Result<Rows<Bytes>, Memory> {
    let mut rows = Rows::new(alloc);
    for word in words.split_whitespace() {
        if rows.push(Bytes::of(alloc, bytes_of(word))?).is_err() {
            return Err(Memory);
        }
    }
    Ok(rows)
}

fn failure_of(kind: &str, line: &str) -> Option<Failure> {
    let (word, rest) = first(line);
    match kind {
        "status" => Some(Failure::Status(word.parse::<i32>().ok()?)),
        "missing" => Some(Failure::MissingOutput(word.parse::<u32>().ok()?)),
        "long" => Some(Failure::TooLong {
            index: word.parse::<u32>().ok()?,
            size: number(rest)?,
        }),
        _ => None,
    }
}

fn shown_failure(alloc: Global, why: Failure) -> Result<String, AllocError> {
    match why {
        Failure::Status(status) => format!(in alloc; "status {status}"),
        Failure::MissingOutput(index) => format!(in alloc; "output {index} missing"),
        Failure::TooLong { index, size } => format!(in alloc; "output {index} too long, {size}"),
    }
}

fn shown_contents(alloc: Global, contents: &[Bytes]) -> Result<String, AllocError> {
    let mut text = said(alloc, "success")?;
    for content in contents {
        let bytes = shown(alloc, content.as_slice())?;
        text.push_str(format!(in alloc; " [{bytes}]")?.as_str())?;
    }
    Ok(text)
}

fn shown_outcome(alloc: Global, outcome: Result<Outcome, Fault>) -> Result<String, AllocError> {
    match outcome {
        Ok(Outcome::Success(contents)) => shown_contents(alloc, contents.as_slice()),
        Ok(Outcome::Failed(why)) => shown_failure(alloc, why),
        Ok(Outcome::NotRun) => said(alloc, "not run"),
        Err(Fault::Failed) => said(alloc, "failed"),
        Err(Fault::Memory) => Err(AllocError),
    }
}

// Runs a job by its trait.
fn ran<R: Runner<Blank>>(
    alloc: Global,
    runner: &mut R,
    command: &str,
    bounds: &str,
) -> Result<String, AllocError> {
    let job = job_of(alloc, command, bounds)?;
    shown_outcome(alloc, runner.run(alloc, &job))
}

fn succeeds(
    alloc: Global,
    runner: &mut TableRunner<Blank>,
    command: &str,
    contents: &str,
) -> Result<String, AllocError> {
    let Ok(contents) = contents_of(alloc, contents) else {
        return Err(AllocError);
    };
    noted(alloc, runner.put(command, Outcome::Success(contents)))
}

// Makes a call over this command.
fn of_command(
    alloc: Global,
    runner: &mut TableRunner<Blank>,
    call: &str,
    line: &str,
) -> Result<String, AllocError> {
    let (command, rest) = first(line);
    match call {
        "succeeds" => succeeds(alloc, runner, command, rest),
        "run" => ran(alloc, runner, command, rest),
        "blank" => ran(alloc, &mut BlankRunner, command, rest),
        _ => match failure_of(call, rest) {
            Some(why) => noted(alloc, runner.put(command, Outcome::Failed(why))),
            None => said(alloc, "no call"),
        },
    }
}

/// Makes a call of a runner, and says its answer.
pub fn of_runner(
    alloc: Global,
    runner: &mut TableRunner<Blank>,
    line: &str,
) -> Result<String, AllocError> {
    let (call, rest) = first(line);
    match call {
        "fails" => match number(rest) {
            Some(call) => noted(alloc, runner.fail_at(call)),
            None => said(alloc, "no number"),
        },
        "faults" => {
            let faults = runner.faults();
            format!(in alloc; "{faults}")
        }
        _ => of_command(alloc, runner, call, rest),
    }
}
