//! A session, step by step.
use crate::hex_words::bytes_of;
use crate::text::{add, shown_failure, shown_offer};
use flow_types::{AttemptNo, FileNo, Memory, Message, Task};
use link_session::{Session, SessionFault, Word};
use std::alloc::{AllocError, Global};
use wq_messages::read_message;

/// A word alone.
pub fn said(alloc: Global, word: &str) -> Result<String, AllocError> {
    String::from_str(alloc, word)
}

/// The numbers of files, behind a word.
pub fn shown_files(alloc: Global, before: &str, files: &[FileNo]) -> Result<String, AllocError> {
    let mut text = said(alloc, before)?;
    for file in files {
        let file = file.0;
        add(&mut text, format!(in alloc; " {file}"))?;
    }
    Ok(text)
}

fn shown_start(alloc: Global, session: &mut Session, task: &Task) -> Result<String, AllocError> {
    if session.has(task.attempt) {
        return said(alloc, "open already");
    }
    match session.start(task) {
        Ok(files) if files.is_empty() => said(alloc, "puts nothing"),
        Ok(files) => shown_files(alloc, "puts", files.as_slice()),
        Err(Memory) => Err(AllocError),
    }
}

/// The files that are put before the task that a body in hex spells.
pub fn starts(alloc: Global, session: &mut Session, digits: &str) -> Result<String, AllocError> {
    let body = bytes_of(alloc, digits)?;
    let Ok(view) = read_message(body.as_slice()) else {
        return said(alloc, "no message");
    };
    match view.to_message(alloc) {
        Ok(Message::Task(task)) => shown_start(alloc, session, &task),
        Ok(_) => said(alloc, "no task"),
        Err(Memory) => Err(AllocError),
    }
}

/// A word and the number of an attempt.
pub fn about(alloc: Global, word: &str, attempt: AttemptNo) -> Result<String, AllocError> {
    let attempt = attempt.0;
    format!(in alloc; "{word} {attempt}")
}

fn shown_word(alloc: Global, word: &Word) -> Result<String, AllocError> {
    match word {
        Word::Joined {
            total,
            largest,
            cache,
        } => shown_offer(alloc, "joined", *total, *largest, *cache),
        Word::Changed {
            total,
            largest,
            cache,
        } => shown_offer(alloc, "changed", *total, *largest, *cache),
        Word::Finish(attempt) => about(alloc, "finish", *attempt),
        Word::Fail(attempt, why) => {
            let mut text = about(alloc, "fail", *attempt)?;
            text.push_str(" ")?;
            add(&mut text, shown_failure(alloc, *why))?;
            Ok(text)
        }
        Word::Lose(attempt) => about(alloc, "lose", *attempt),
        Word::PutAgain { attempt, files } => {
            let before = about(alloc, "put again for", *attempt)?;
            shown_files(alloc, before.as_str(), files.as_slice())
        }
        Word::Stale(attempt) => about(alloc, "stale", *attempt),
    }
}

/// What the message that a body in hex spells means to the session.
pub fn told(alloc: Global, session: &mut Session, digits: &str) -> Result<String, AllocError> {
    let body = bytes_of(alloc, digits)?;
    let Ok(view) = read_message(body.as_slice()) else {
        return said(alloc, "no message");
    };
    match session.on_message(&view) {
        Ok(word) => shown_word(alloc, &word),
        Err(SessionFault::Unexpected) => said(alloc, "unexpected"),
        Err(SessionFault::Memory) => Err(AllocError),
    }
}

/// Whether the end of an attempt by the upper side is to be sent.
pub fn cancels(alloc: Global, session: &mut Session, attempt: &str) -> Result<String, AllocError> {
    let attempt = AttemptNo(attempt.parse::<u64>().unwrap_or(0));
    said(
        alloc,
        if session.cancel(attempt) {
            "sends cancel"
        } else {
            "not open"
        },
    )
}

/// Whether the end of a file is to be sent.
pub fn drops(alloc: Global, session: &mut Session, file: &str) -> Result<String, AllocError> {
    let file = FileNo(file.parse::<u32>().unwrap_or(0));
    said(
        alloc,
        if session.dropped(file) {
            "sends unlink"
        } else {
            "not known"
        },
    )
}
