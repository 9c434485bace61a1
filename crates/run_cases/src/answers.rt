//! What is said of a run.
use cases::shown;
use master_run::Ended;
use mem_outside::{Blank, MemSink, MemSite, TableRunner};
use outside::{Runner, Sink, Site};
use report::{Cause, Kind};
use std::alloc::{AllocError, Global};

fn shown_kind(kind: Kind) -> &'static str {
    match kind {
        Kind::Completed => "complete",
        Kind::Told => "cleaned",
        Kind::LogPrinted => "printed",
        Kind::RuleFailed => "rule failed",
        Kind::WrongWords => "wrong words",
        Kind::WrongFlow => "wrong flow",
        Kind::WrongLog => "wrong log",
        Kind::WrongFile => "wrong file",
        Kind::PastLimit => "past a limit",
        Kind::LogFilled => "log full",
        Kind::SiteBroke => "site fault",
        Kind::RunnerBroke => "runner fault",
        Kind::HallBroke => "hall fault",
        Kind::SinkBroke => "sink fault",
        Kind::WaitedOut => "waited",
        Kind::NoMemory => "no memory",
    }
}

// The kind of a cause, with the numbers and names that it has.
fn shown_cause(alloc: Global, cause: &Cause) -> Result<String, AllocError> {
    let kind = shown_kind(cause.kind());
    match cause {
        Cause::Complete { rules, collected } => format!(in alloc; "{kind} {rules} {collected}"),
        Cause::Cleaned { removed: count } | Cause::Printed { lines: count } => {
            format!(in alloc; "{kind} {count}")
        }
        Cause::LogNameTaken { file } => {
            let file = shown(alloc, file.as_bytes())?;
            format!(in alloc; "{kind} {file}")
        }
        Cause::SourceChanged { file, logged, .. } | Cause::FileDamaged { file, logged, .. } => {
            let (file, size) = (file.0, logged.size);
            format!(in alloc; "{kind} {file} {size}")
        }
        Cause::SiteFault { before, after }
        | Cause::RunnerFault { before, after }
        | Cause::HallFault { before, after }
        | Cause::SinkFault { before, after } => format!(in alloc; "{kind} {before} {after}"),
        Cause::Waited(wait) => {
            let (idles, rule) = (wait.idles, wait.rule.0);
            format!(in alloc; "{kind} {idles} {rule}")
        }
        _ => String::from_str(alloc, kind),
    }
}

/// The line of an end: the status, the cause, and what was printed.
pub fn shown_end(
    alloc: Global,
    ended: &Ended<MemSite>,
    printed: &[u8],
) -> Result<String, AllocError> {
    let status = ended.status;
    let cause = shown_cause(alloc, &ended.cause)?;
    let printed = shown(alloc, printed)?;
    format!(in alloc; "{status} {cause} [{printed}]\n")
}

/// The status, the cause and the number of records.
pub fn shown_outcome(alloc: Global, ended: &Ended<MemSite>) -> Result<String, AllocError> {
    let status = ended.status;
    let cause = shown_cause(alloc, &ended.cause)?;
    let records = ended.records.len();
    format!(in alloc; "{status} {cause}, records {records}")
}

/// The line of the records, and of how often the site, the runners and the sink have failed.
pub fn shown_counts(
    alloc: Global,
    ended: &Ended<MemSite>,
    runners: &[TableRunner<Blank>],
    sink: &MemSink,
) -> Result<String, AllocError> {
    let records = ended.records.len();
    let (site, runners, sink) = (ended.site.faults(), faults_of(runners), sink.faults());
    format!(in alloc; "records {records}, faults {site} {runners} {sink}\n")
}

// How often the runners have failed in all.
fn faults_of(runners: &[TableRunner<Blank>]) -> u64 {
    let mut faults = 0_u64;
    for runner in runners {
        faults = faults.saturating_add(runner.faults());
    }
    faults
}

/// The bytes in brackets, or that there are none.
pub fn shown_content(alloc: Global, content: Option<&[u8]>) -> Result<String, AllocError> {
    match content {
        Some(bytes) => {
            let bytes = shown(alloc, bytes)?;
            format!(in alloc; "[{bytes}]")
        }
        None => String::from_str(alloc, "none"),
    }
}
