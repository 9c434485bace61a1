//! Printed logs.
//!
//! A case is a log, whose lines are its records in the words of `script.rt`. It is answered by the
//! number of the printed lines and by these, or by the number of the first record that may not
//! stand where it does.

mod plan;
mod printed;
mod script;

use crate::logs::plan::flow_plan;
use crate::logs::printed::printed;
use crate::logs::script::records_of;
use flow_types::Record;
use log_text::part_of;
use rule_graph::plan_digest;
use std::alloc::{AllocError, Global};
use std::str;
use task_core::TableFault;

fn shown(alloc: Global, history: &[Record], text: &[u8]) -> Result<String, AllocError> {
    let lines = part_of(history).len();
    match str::from_utf8(text) {
        Ok(text) => format!(in alloc; "{lines} lines\n{text}"),
        Err(_) => String::from_str(alloc, "no text\n"),
    }
}

/// The answer to a log.
pub(crate) fn answer(alloc: Global, script: &str) -> Result<String, AllocError> {
    let Some(plan) = flow_plan(alloc) else {
        return Err(AllocError);
    };
    let digest = plan_digest(&plan);
    let Some(history) = records_of(alloc, &plan, digest, script) else {
        return String::from_str(alloc, "no records\n");
    };
    match printed(alloc, plan, &digest, &history) {
        Ok(text) => shown(alloc, &history, text.as_slice()),
        Err(TableFault::NotLegal { at }) => format!(in alloc; "not legal at {at}\n"),
        Err(TableFault::Memory) => Err(AllocError),
    }
}
