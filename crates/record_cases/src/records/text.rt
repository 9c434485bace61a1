//! A record in words.
use flow_types::{Content, EndKind, Failure, Record};
use std::alloc::{AllocError, Global};

fn shown_limit(alloc: Global, limit: Option<u64>) -> Result<String, AllocError> {
    match limit {
        Some(limit) => format!(in alloc; "{limit}"),
        None => String::from_str(alloc, "none"),
    }
}

fn shown_contents(alloc: Global, contents: &[Content]) -> Result<String, AllocError> {
    let mut text = String::new(alloc);
    for content in contents {
        let size = content.size;
        let digest = hex::encode(alloc, content.digest.0.as_slice())?;
        text.push_str(format!(in alloc; " {size}:{digest}")?.as_str())?;
    }
    Ok(text)
}

fn shown_failure(alloc: Global, why: Failure) -> Result<String, AllocError> {
    match why {
        Failure::Status(status) => format!(in alloc; "status {status}"),
        Failure::MissingOutput(index) => format!(in alloc; "missing output {index}"),
        Failure::TooLong { index, size } => format!(in alloc;
            "too long output {index} size {size}"
        ),
    }
}

fn end_word(kind: EndKind) -> &'static str {
    match kind {
        EndKind::Complete => "complete",
        EndKind::CommandFailed => "command failed",
        EndKind::InputsTooLarge => "inputs too large",
        EndKind::NoRoom => "no room",
        EndKind::Waited => "waited",
        EndKind::Cleaned => "cleaned",
    }
}

fn shown_run(
    alloc: Global,
    moment: u64,
    run: u64,
    retries: u32,
    limit: Option<u64>,
) -> Result<String, AllocError> {
    let limit = shown_limit(alloc, limit)?;
    format!(in alloc; "moment {moment} run {run} retries {retries} limit {limit}")
}

/// All that a record holds.
pub fn shown_record(alloc: Global, record: &Record) -> Result<String, AllocError> {
    match record {
        Record::Opened {
            moment,
            run,
            retries,
            limit,
            plan,
            sources,
        } => {
            let run = shown_run(alloc, *moment, *run, *retries, *limit)?;
            let plan = hex::encode(alloc, plan.0.as_slice())?;
            let sources = shown_contents(alloc, sources.as_slice())?;
            format!(in alloc; "opened {run} plan {plan} sources{sources}")
        }
        Record::Resumed {
            moment,
            run,
            retries,
            limit,
        } => {
            let run = shown_run(alloc, *moment, *run, *retries, *limit)?;
            format!(in alloc; "resumed {run}")
        }
        Record::Started {
            moment,
            rule,
            attempt,
            link,
        } => {
            let (rule, attempt, link) = (rule.0, attempt.0, link.0);
            format!(in alloc; "started moment {moment} rule {rule} attempt {attempt} link {link}")
        }
        Record::Done {
            moment,
            rule,
            attempt,
            outs,
        } => {
            let (rule, attempt) = (rule.0, attempt.0);
            let outs = shown_contents(alloc, outs.as_slice())?;
            format!(in alloc; "done moment {moment} rule {rule} attempt {attempt} outs{outs}")
        }
        Record::Failed {
            moment,
            rule,
            attempt,
            why,
        } => {
            let (rule, attempt) = (rule.0, attempt.0);
            let why = shown_failure(alloc, *why)?;
            format!(in alloc; "failed moment {moment} rule {rule} attempt {attempt} {why}")
        }
        Record::Lost {
            moment,
            rule,
            attempt,
        } => {
            let (rule, attempt) = (rule.0, attempt.0);
            format!(in alloc; "lost moment {moment} rule {rule} attempt {attempt}")
        }
        Record::Dropped { moment, file } => {
            let file = file.0;
            format!(in alloc; "dropped moment {moment} file {file}")
        }
        Record::Ended { moment, kind } => {
            let kind = end_word(*kind);
            format!(in alloc; "ended moment {moment} {kind}")
        }
    }
}
