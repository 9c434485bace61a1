//! What is printed when a call ends, and its exit status.
//!
//! A line of a case names a cause in the words of `causes.rt`. It is answered by the status and by
//! the bytes that are printed, with escapes. Files and rules are those of the plan that `FLOW`
//! makes.

mod causes;
mod flow_faults;
mod log_faults;
mod words;

use crate::ends::causes::cause_of;
use cases::shown;
use flow_types::Plan;
use mf_rules::read_make;
use rule_graph::plan_of;
use std::alloc::{AllocError, Global};

// File 0 is `a/größe`, file 1 `b`, file 2 `in`, file 3 `more of it` and file 4 `out`.
const FLOW: &str = "out->made: in\n\tcat in > made\na/größe b: out 'more of it'\n\ttrue\n";

fn plan(alloc: Global) -> Option<Plan> {
    match read_make(alloc, FLOW.as_bytes(), &[]) {
        Ok(flow) => plan_of(alloc, flow).ok(),
        Err(_) => None,
    }
}

fn answer(alloc: Global, plan: &Plan, line: &str) -> Result<String, AllocError> {
    let Some(cause) = cause_of(alloc, line) else {
        return String::from_str(alloc, "no cause");
    };
    let status = cause.status();
    let Ok(printed) = cause.line(alloc, plan) else {
        return Err(AllocError);
    };
    if printed.as_slice().is_empty() {
        return format!(in alloc; "{status} nothing");
    }
    let printed = shown(alloc, printed.as_slice())?;
    format!(in alloc; "{status} {printed}")
}

/// The answer of each line, a line each.
pub(crate) fn answers(alloc: Global, text: &str) -> Result<String, AllocError> {
    let Some(plan) = plan(alloc) else {
        return Err(AllocError);
    };
    let mut shown = String::new(alloc);
    for line in text.lines() {
        let answer = answer(alloc, &plan, line)?;
        shown.push_str(&answer)?;
        shown.push_str("\n")?;
    }
    Ok(shown)
}
