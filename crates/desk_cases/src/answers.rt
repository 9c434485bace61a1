//! What is said of records, of tasks, and of a desk that isn't started.
use crate::words::{said, told};
use desk::StartFault;
use desk_bench::Unready;
use flow_types::{Content, Digest, FileNo, Needs, Pair, Port, Record, Task, Want};
use run_history::Found;
use std::alloc::{AllocError, Global};
use std::str;

fn shown_digest(alloc: Global, digest: Digest) -> Result<String, AllocError> {
    hex::encode(alloc, digest.0.as_slice())
}

fn shown_content(alloc: Global, content: Content) -> Result<String, AllocError> {
    let size = content.size;
    let digest = shown_digest(alloc, content.digest)?;
    format!(in alloc; "{size}:{digest}")
}

fn shown_found(alloc: Global, found: Found) -> Result<String, AllocError> {
    match found {
        Found::Absent => said(alloc, "nothing"),
        Found::Size(size) => format!(in alloc; "{size} bytes"),
        Found::Whole(content) => shown_content(alloc, content),
    }
}

fn shown_difference(
    alloc: Global,
    what: &str,
    logged: Content,
    found: Found,
) -> Result<String, AllocError> {
    let logged = shown_content(alloc, logged)?;
    let found = shown_found(alloc, found)?;
    format!(in alloc; "{what}, logged {logged}, found {found}")
}

fn shown_flows(alloc: Global, logged: Digest, found: Digest) -> Result<String, AllocError> {
    let logged = shown_digest(alloc, logged)?;
    let found = shown_digest(alloc, found)?;
    format!(in alloc; "other flow, logged {logged}, found {found}")
}

/// What stands in place of a file that was logged.
pub fn shown_damage(
    alloc: Global,
    file: FileNo,
    logged: Content,
    found: Found,
) -> Result<String, AllocError> {
    let what = format!(in alloc; "file {} damaged", file.0)?;
    shown_difference(alloc, what.as_str(), logged, found)
}

fn shown_fault(alloc: Global, why: StartFault) -> Result<String, AllocError> {
    match why {
        StartFault::OtherFlow { logged, found } => shown_flows(alloc, logged, found),
        StartFault::SourceChanged {
            file,
            logged,
            found,
        } => {
            let what = format!(in alloc; "source {} changed", file.0)?;
            shown_difference(alloc, what.as_str(), logged, found)
        }
        StartFault::FileDamaged {
            file,
            logged,
            found,
        } => shown_damage(alloc, file, logged, found),
        _ => told(alloc, &why),
    }
}

/// Why no desk is started.
pub fn shown_unready(alloc: Global, why: Unready) -> Result<String, AllocError> {
    match why {
        Unready::Log(why) => format!(in alloc; "log {why:?}"),
        Unready::Desk(why) => shown_fault(alloc, why),
        Unready::Setting => said(alloc, "not set"),
    }
}

// Its kind, with the run, the file, or the rule and the attempt.
fn shown_record(alloc: Global, record: &Record) -> Result<String, AllocError> {
    match record {
        Record::Opened { run, .. } => format!(in alloc; "opened {run}"),
        Record::Resumed { run, .. } => format!(in alloc; "resumed {run}"),
        Record::Started { rule, attempt, .. } => {
            format!(in alloc; "started {} {}", rule.0, attempt.0)
        }
        Record::Done { rule, attempt, .. } => format!(in alloc; "done {} {}", rule.0, attempt.0),
        Record::Failed { rule, attempt, .. } => {
            format!(in alloc; "failed {} {}", rule.0, attempt.0)
        }
        Record::Lost { rule, attempt, .. } => format!(in alloc; "lost {} {}", rule.0, attempt.0),
        Record::Dropped { file, .. } => format!(in alloc; "dropped {}", file.0),
        Record::Ended { kind, .. } => format!(in alloc; "ended {kind:?}"),
    }
}

/// The records in order.
pub fn shown_records(alloc: Global, records: &[Record]) -> Result<String, AllocError> {
    let mut text = String::new(alloc);
    for record in records {
        if !text.is_empty() {
            text.push_str(", ")?;
        }
        let one = shown_record(alloc, record)?;
        text.push_str(&one)?;
    }
    Ok(text)
}

fn name_shown(alloc: Global, bytes: &[u8]) -> Result<String, AllocError> {
    match str::from_utf8(bytes) {
        Ok(name) => said(alloc, name),
        Err(_) => said(alloc, "?"),
    }
}

fn shown_needs(alloc: Global, needs: Needs) -> Result<String, AllocError> {
    match needs {
        Needs::Whole => said(alloc, "-"),
        Needs::Stated(amounts) => {
            let (cores, memory, disk) = (amounts.cores, amounts.memory, amounts.disk);
            format!(in alloc; "{cores}/{memory}/{disk}")
        }
    }
}

fn add_variables(alloc: Global, text: &mut String, env: &[Pair]) -> Result<(), AllocError> {
    for pair in env {
        let (name, value) = (pair.name.as_str(), pair.value.as_str());
        let piece = format!(in alloc; ", {name}={value}")?;
        text.push_str(&piece)?;
    }
    Ok(())
}

fn add_inputs(alloc: Global, text: &mut String, ports: &[Port]) -> Result<(), AllocError> {
    for port in ports {
        let name = name_shown(alloc, port.remote.as_bytes())?;
        let piece = format!(in alloc; ", file {} as {name}", port.file.0)?;
        text.push_str(&piece)?;
    }
    Ok(())
}

fn add_outputs(alloc: Global, text: &mut String, wants: &[Want]) -> Result<(), AllocError> {
    for want in wants {
        let name = name_shown(alloc, want.remote.as_bytes())?;
        let piece = format!(in alloc; ", {name} of up to {}", want.bound)?;
        text.push_str(&piece)?;
    }
    Ok(())
}

/// All that a task says.
pub fn shown_task(alloc: Global, task: &Task) -> Result<String, AllocError> {
    let (attempt, run, command) = (task.attempt.0, task.run, task.command.as_str());
    let needs = shown_needs(alloc, task.needs)?;
    let mut text = format!(in alloc; "attempt {attempt} of run {run}: [{command}] {needs}")?;
    add_variables(alloc, &mut text, task.env.as_slice())?;
    add_inputs(alloc, &mut text, task.inputs.as_slice())?;
    add_outputs(alloc, &mut text, task.outputs.as_slice())?;
    Ok(text)
}
