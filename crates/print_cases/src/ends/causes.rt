//! Causes by their words: `complete RULES COLLECTED`, `cleaned REMOVED` and `printed LINES`; `failed
//! RULE status STATUS`, `failed RULE missing OUTPUT` and `failed RULE long OUTPUT SIZE`; `usage`;
//! `missing FLOW`; `source FILE` and `large FILE SIZE`; `needs RULE NEED TOTAL`; `inputs RULE
//! TOTAL`; `waited IDLES RULE`; `stored STORED LIMIT`; `room RULE NEED STORED LIMIT`; `site BEFORE
//! AFTER`, `runner ..`, `hall ..` and `sink ..`; `memory`; for a log, and for a file that isn't
//! what was logged, the words of `log_faults.rt`; and, for a flow that is refused, those of
//! `flow_faults.rt`.
use crate::ends::flow_faults::{graph_fault, jx_fault, make_fault};
use crate::ends::log_faults::{log_fault, unlike};
use crate::ends::words::{first, name, number, rule, two, whole};
use flow_types::{Failure, FileNo};
use report::{Cause, FlowFault};
use run_history::Wait;
use std::alloc::Global;

fn failure_of(line: &str) -> Option<Failure> {
    let (word, rest) = first(line);
    match word {
        "status" => Some(Failure::Status(rest.parse::<i32>().ok()?)),
        "missing" => Some(Failure::MissingOutput(number(rest)?)),
        "long" => {
            let (index, size) = first(rest);
            Some(Failure::TooLong {
                index: number(index)?,
                size: whole(size)?,
            })
        }
        _ => None,
    }
}

fn failed(line: &str) -> Option<Cause> {
    let (word, rest) = first(line);
    let why = failure_of(rest)?;
    Some(Cause::CommandFailed {
        rule: rule(word)?,
        why,
    })
}

fn complete(line: &str) -> Option<Cause> {
    let (rules, collected) = first(line);
    Some(Cause::Complete {
        rules: number(rules)?,
        collected: number(collected)?,
    })
}

fn large_source(line: &str) -> Option<Cause> {
    let (file, size) = first(line);
    Some(Cause::SourceTooLarge {
        file: FileNo(number(file)?),
        size: whole(size)?,
    })
}

fn stored(line: &str) -> Option<Cause> {
    let (stored, limit) = two(line)?;
    Some(Cause::StoredAboveLimit { stored, limit })
}

fn room(line: &str) -> Option<Cause> {
    let (word, rest) = first(line);
    let (need, rest) = first(rest);
    let (stored, limit) = two(rest)?;
    Some(Cause::NoRoom {
        rule: rule(word)?,
        need: whole(need)?,
        stored,
        limit,
    })
}

fn needs(line: &str) -> Option<Cause> {
    let (word, rest) = first(line);
    let (need, total) = two(rest)?;
    Some(Cause::NeedsTooMuch {
        rule: rule(word)?,
        need,
        total,
    })
}

fn inputs(line: &str) -> Option<Cause> {
    let (word, total) = first(line);
    Some(Cause::InputsTooLarge {
        rule: rule(word)?,
        total: whole(total)?,
    })
}

fn waited(line: &str) -> Option<Cause> {
    let (idles, word) = first(line);
    Some(Cause::Waited(Wait {
        idles: whole(idles)?,
        rule: rule(word)?,
    }))
}

// A fault of this part, with its counts.
fn broken(part: &str, line: &str) -> Option<Cause> {
    let (before, after) = two(line)?;
    match part {
        "site" => Some(Cause::SiteFault { before, after }),
        "runner" => Some(Cause::RunnerFault { before, after }),
        "hall" => Some(Cause::HallFault { before, after }),
        "sink" => Some(Cause::SinkFault { before, after }),
        _ => None,
    }
}

// A flow that is refused, by the kind of its fault.
fn refused(alloc: Global, kind: &str, line: &str) -> Option<Cause> {
    let (flow, rest) = first(line);
    let flow = name(alloc, flow)?;
    let fault = match kind {
        "make" => FlowFault::Make(make_fault(alloc, rest)?),
        "jx" => FlowFault::Jx(jx_fault(alloc, rest)?),
        _ => FlowFault::Graph(graph_fault(alloc, rest)?),
    };
    Some(Cause::FlowRefused { flow, fault })
}

/// The cause that a line names.
pub fn cause_of(alloc: Global, line: &str) -> Option<Cause> {
    let (word, rest) = first(line);
    match word {
        "complete" => complete(rest),
        "cleaned" => Some(Cause::Cleaned {
            removed: number(rest)?,
        }),
        "printed" => Some(Cause::Printed {
            lines: number(rest)?,
        }),
        "failed" => failed(rest),
        "usage" => Some(Cause::Usage),
        "missing" => Some(Cause::FlowMissing {
            name: name(alloc, rest)?,
        }),
        "source" => Some(Cause::SourceMissing {
            file: FileNo(number(rest)?),
        }),
        "large" => large_source(rest),
        "stored" => stored(rest),
        "room" => room(rest),
        "needs" => needs(rest),
        "inputs" => inputs(rest),
        "waited" => waited(rest),
        "memory" => Some(Cause::Memory),
        "log" => log_fault(alloc, rest),
        "changed" | "damaged" => unlike(word, rest),
        "make" | "jx" | "graph" => refused(alloc, word, rest),
        _ => broken(word, rest),
    }
}
