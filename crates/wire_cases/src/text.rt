//! Messages in words.
use flow_types::{
    Amounts, AttemptNo, Bytes, Failure, FileNo, Key, Message, Needs, Outcome, Pair, Start, Task,
    Want,
};
use std::alloc::{AllocError, Global};
use wq_messages::MessageFault;

/// Adds a piece that was made.
pub fn add(text: &mut String, piece: Result<String, AllocError>) -> Result<(), AllocError> {
    text.push_str(piece?.as_str())
}

fn shown_amounts(alloc: Global, amounts: Amounts) -> Result<String, AllocError> {
    let Amounts {
        cores,
        memory,
        disk,
    } = amounts;
    format!(in alloc; "{cores}/{memory}/{disk}")
}

/// What a peer offers, behind a word.
pub fn shown_offer(
    alloc: Global,
    word: &str,
    total: Amounts,
    largest: Amounts,
    cache: u64,
) -> Result<String, AllocError> {
    let total = shown_amounts(alloc, total)?;
    let largest = shown_amounts(alloc, largest)?;
    format!(in alloc; "{word} {total} {largest} {cache}")
}

/// Bytes in hex, none as `-`.
pub fn shown_content(alloc: Global, content: &[u8]) -> Result<String, AllocError> {
    if content.is_empty() {
        return String::from_str(alloc, "-");
    }
    hex::encode(alloc, content)
}

fn shown_needs(alloc: Global, needs: Needs) -> Result<String, AllocError> {
    match needs {
        Needs::Whole => String::from_str(alloc, "whole"),
        Needs::Stated(amounts) => shown_amounts(alloc, amounts),
    }
}

fn add_env(alloc: Global, text: &mut String, env: &[Pair]) -> Result<(), AllocError> {
    text.push_str(" env")?;
    for pair in env {
        let name = shown_content(alloc, pair.name.as_str().as_bytes())?;
        let value = shown_content(alloc, pair.value.as_str().as_bytes())?;
        add(text, format!(in alloc; " {name}={value}"))?;
    }
    Ok(())
}

fn add_wants(alloc: Global, text: &mut String, wants: &[Want]) -> Result<(), AllocError> {
    text.push_str(" out")?;
    for want in wants {
        let bound = want.bound;
        let remote = shown_content(alloc, want.remote.as_bytes())?;
        add(text, format!(in alloc; " {remote}:{bound}"))?;
    }
    Ok(())
}

fn shown_task(alloc: Global, task: &Task) -> Result<String, AllocError> {
    let (attempt, run) = (task.attempt.0, task.run);
    let command = shown_content(alloc, task.command.as_str().as_bytes())?;
    let needs = shown_needs(alloc, task.needs)?;
    let mut text = format!(in alloc; "task {attempt} run {run} command {command} needs {needs}")?;
    add_env(alloc, &mut text, task.env.as_slice())?;
    text.push_str(" in")?;
    for port in task.inputs.as_slice() {
        let file = port.file.0;
        let remote = shown_content(alloc, port.remote.as_bytes())?;
        add(&mut text, format!(in alloc; " {file}:{remote}"))?;
    }
    add_wants(alloc, &mut text, task.outputs.as_slice())?;
    Ok(text)
}

/// A job that starts, with the contents that it takes in.
pub fn shown_start(alloc: Global, start: &Start) -> Result<String, AllocError> {
    let attempt = start.attempt.0;
    let command = shown_content(alloc, start.job.command.as_str().as_bytes())?;
    let mut text = format!(in alloc; "starts {attempt} command {command}")?;
    add_env(alloc, &mut text, start.job.env.as_slice())?;
    text.push_str(" in")?;
    for given in start.job.inputs.as_slice() {
        let remote = shown_content(alloc, given.remote.as_bytes())?;
        let content = shown_content(alloc, given.content.as_slice())?;
        add(&mut text, format!(in alloc; " {remote}={content}"))?;
    }
    add_wants(alloc, &mut text, start.job.outputs.as_slice())?;
    Ok(text)
}

/// Why an attempt failed.
pub fn shown_failure(alloc: Global, why: Failure) -> Result<String, AllocError> {
    match why {
        Failure::Status(status) => format!(in alloc; "status {status}"),
        Failure::MissingOutput(index) => format!(in alloc; "missing output {index}"),
        Failure::TooLong { index, size } => format!(in alloc; "too long {index} {size}"),
    }
}

/// A success with its contents.
pub fn shown_contents(alloc: Global, contents: &[Bytes]) -> Result<String, AllocError> {
    let mut text = String::from_str(alloc, "success")?;
    for content in contents {
        let content = shown_content(alloc, content.as_slice())?;
        add(&mut text, format!(in alloc; " {content}"))?;
    }
    Ok(text)
}

fn shown_outcome(alloc: Global, outcome: &Outcome) -> Result<String, AllocError> {
    match outcome {
        Outcome::Success(contents) => shown_contents(alloc, contents.as_slice()),
        Outcome::Failed(why) => shown_failure(alloc, *why),
        Outcome::NotRun => String::from_str(alloc, "not run"),
    }
}

fn shown_put(alloc: Global, key: Key, content: &[u8]) -> Result<String, AllocError> {
    let (run, file) = (key.run, key.file.0);
    let content = shown_content(alloc, content)?;
    format!(in alloc; "put {run}:{file} {content}")
}

fn shown_done(alloc: Global, attempt: AttemptNo, outcome: &Outcome) -> Result<String, AllocError> {
    let attempt = attempt.0;
    let outcome = shown_outcome(alloc, outcome)?;
    format!(in alloc; "done {attempt} {outcome}")
}

fn shown_missing(
    alloc: Global,
    attempt: AttemptNo,
    files: &[FileNo],
) -> Result<String, AllocError> {
    let attempt = attempt.0;
    let mut text = format!(in alloc; "missing {attempt}")?;
    for file in files {
        let file = file.0;
        add(&mut text, format!(in alloc; " {file}"))?;
    }
    Ok(text)
}

fn shown_cancel(alloc: Global, attempt: AttemptNo) -> Result<String, AllocError> {
    let attempt = attempt.0;
    format!(in alloc; "cancel {attempt}")
}

fn shown_unlink(alloc: Global, key: Key) -> Result<String, AllocError> {
    let (run, file) = (key.run, key.file.0);
    format!(in alloc; "unlink {run}:{file}")
}

/// All that a message says. Bytes and texts are in hex, an empty one is `-`.
pub fn shown_message(alloc: Global, message: &Message) -> Result<String, AllocError> {
    match message {
        Message::Hello {
            total,
            largest,
            cache,
        } => shown_offer(alloc, "hello", *total, *largest, *cache),
        Message::Put { key, content } => shown_put(alloc, *key, content.as_slice()),
        Message::Task(task) => shown_task(alloc, task),
        Message::Done { attempt, outcome } => shown_done(alloc, *attempt, outcome),
        Message::Missing { attempt, files } => shown_missing(alloc, *attempt, files.as_slice()),
        Message::Cancel { attempt } => shown_cancel(alloc, *attempt),
        Message::Unlink { key } => shown_unlink(alloc, *key),
        Message::Totals {
            total,
            largest,
            cache,
        } => shown_offer(alloc, "totals", *total, *largest, *cache),
        Message::Bye => String::from_str(alloc, "bye"),
    }
}

/// A fault with its place.
pub fn shown_fault(alloc: Global, fault: MessageFault) -> Result<String, AllocError> {
    match fault {
        MessageFault::Kind(at) => format!(in alloc; "kind at {at}"),
        MessageFault::Short(at) => format!(in alloc; "short at {at}"),
        MessageFault::Long(at) => format!(in alloc; "long at {at}"),
        MessageFault::BadText(at) => format!(in alloc; "bad text at {at}"),
    }
}
