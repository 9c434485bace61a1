//! Flows in JX.
use cases::flow_shown;
use jx_flow::{JxFlowFault, read_jx};
use std::alloc::{AllocError, Global};

// The rule that a fault names beside its field.
fn rule_of(fault: &JxFlowFault) -> Option<u32> {
    match fault {
        JxFlowFault::MissingField { rule, .. } => *rule,
        JxFlowFault::FieldKind { rule, .. } => *rule,
        _ => None,
    }
}

fn fault_shown(alloc: Global, fault: &JxFlowFault) -> Result<String, AllocError> {
    match rule_of(fault) {
        Some(rule) => format!(in alloc; "! {fault} of rule {rule}\n"),
        None => format!(in alloc; "! {fault}\n"),
    }
}

/// The flow of a JX text, a line for each rule, or its fault.
pub(crate) fn jx_shown(alloc: Global, text: &[u8]) -> Result<String, AllocError> {
    match read_jx(alloc, text) {
        Ok(flow) => flow_shown(alloc, &flow),
        Err(fault) => fault_shown(alloc, &fault),
    }
}
