//! Worlds as text.
use anyhow::Result;
use cases::shown;
use flow_types::{EndKind, FileNo, Message, Plan, Record};
use net_world::{Party, Sent, World};
use std::alloc::{AllocError, Global};

/// The records, a line each; the made files that are present; and the messages, each with its two
/// ends.
pub fn shown_world(alloc: Global, plan: &Plan, world: &World) -> Result<String> {
    let mut text = String::new(alloc);
    for record in world.records.as_slice() {
        text.push_str(&record_line(alloc, plan, record)?)?;
    }
    for holding in world.files.as_slice() {
        let name = file_name(alloc, plan, holding.file)?;
        let content = shown(alloc, holding.content.as_slice())?;
        text.push_str(&format!(in alloc; "file {name} [{content}]\n")?)?;
    }
    for sent in world.sent.as_slice() {
        text.push_str(&sent_line(alloc, plan, sent)?)?;
    }
    Ok(text)
}

/// The name of a file.
pub fn file_name(alloc: Global, plan: &Plan, file: FileNo) -> Result<String, AllocError> {
    match plan.files.get(file.0 as usize) {
        Some(row) => shown(alloc, row.name.as_bytes()),
        None => String::from_str(alloc, "?"),
    }
}

fn record_line(alloc: Global, plan: &Plan, record: &Record) -> Result<String, AllocError> {
    match record {
        Record::Opened { run, .. } => format!(in alloc; "opened {run}\n"),
        Record::Resumed { run, .. } => format!(in alloc; "resumed {run}\n"),
        Record::Started {
            rule,
            attempt,
            link,
            ..
        } => {
            let rule = rule.0;
            let attempt = attempt.0;
            let link = link.0;
            format!(in alloc; "started {attempt}: rule {rule} on link {link}\n")
        }
        Record::Done { attempt, .. } => {
            let attempt = attempt.0;
            format!(in alloc; "done {attempt}\n")
        }
        Record::Failed { attempt, .. } => {
            let attempt = attempt.0;
            format!(in alloc; "failed {attempt}\n")
        }
        Record::Lost { attempt, .. } => {
            let attempt = attempt.0;
            format!(in alloc; "lost {attempt}\n")
        }
        Record::Dropped { file, .. } => {
            let name = file_name(alloc, plan, *file)?;
            format!(in alloc; "dropped {name}\n")
        }
        Record::Ended { kind, .. } => {
            let kind = kind_word(*kind);
            format!(in alloc; "ended {kind}\n")
        }
    }
}

fn kind_word(kind: EndKind) -> &'static str {
    match kind {
        EndKind::Complete => "complete",
        EndKind::CommandFailed => "command failed",
        EndKind::InputsTooLarge => "inputs too large",
        EndKind::NoRoom => "no room",
        EndKind::Waited => "waited",
        EndKind::Cleaned => "cleaned",
    }
}

fn party_word(alloc: Global, party: Party) -> Result<String, AllocError> {
    match party {
        Party::Master => String::from_str(alloc, "master"),
        Party::Peer(peer) => format!(in alloc; "peer {peer}"),
    }
}

fn sent_line(alloc: Global, plan: &Plan, sent: &Sent) -> Result<String, AllocError> {
    let from = party_word(alloc, sent.from)?;
    let to = party_word(alloc, sent.to)?;
    let message = message_word(alloc, plan, &sent.message)?;
    format!(in alloc; "{from} to {to}: {message}\n")
}

fn message_word(alloc: Global, plan: &Plan, message: &Message) -> Result<String, AllocError> {
    match message {
        Message::Put { key, .. } => {
            let name = file_name(alloc, plan, key.file)?;
            let run = key.run;
            format!(in alloc; "put {name} of run {run}")
        }
        Message::Unlink { key } => {
            let name = file_name(alloc, plan, key.file)?;
            let run = key.run;
            format!(in alloc; "unlink {name} of run {run}")
        }
        Message::Task(task) => {
            let attempt = task.attempt.0;
            format!(in alloc; "task {attempt}")
        }
        Message::Done { attempt, .. } => {
            let attempt = attempt.0;
            format!(in alloc; "done {attempt}")
        }
        Message::Missing { attempt, files } => {
            let attempt = attempt.0;
            let count = files.len();
            format!(in alloc; "missing {count} files of {attempt}")
        }
        Message::Totals { total, cache, .. } => {
            let cores = total.cores;
            format!(in alloc; "totals of {cores} cores and {cache} bytes")
        }
        Message::Cancel { attempt } => {
            let attempt = attempt.0;
            format!(in alloc; "cancel {attempt}")
        }
        Message::Hello { .. } | Message::Bye => String::from_str(alloc, "another"),
    }
}
