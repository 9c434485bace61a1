//! `plan FLOW`: what a copy of the plan has that a Makeflow text makes, whose lines stand between
//! bars: its digest, and of each rule, copied once more, where it runs and what it needs.
ghost use Rattle.std.specs.Prelude.{IfSome};
ghost use Rattle.flow_types.specs.Plans.{IsValid};

use crate::calls::words::said;
use flow_types::{Memory, Needs, Plan, Rule};
use mf_rules::read_make;
use rule_graph::{plan_digest, plan_of};
use std::alloc::{AllocError, Global};

// The text with newlines in the place of bars.
fn lines_of(alloc: Global, text: &str) -> Result<Vec<u8>, AllocError> {
    let mut lines = Vec::new(alloc);
    for byte in text.as_bytes() {
        lines.push(if *byte == b'|' { b'\n' } else { *byte })?;
    }
    Ok(lines)
}

fn plan(alloc: Global, flow: &[u8]) -> Option<Plan>
    ensures { IfSome result IsValid }
{
    match read_make(alloc, flow, &[]) {
        Ok(flow) => plan_of(alloc, flow).ok(),
        Err(_) => None,
    }
}

fn shown_rule(alloc: Global, rule: &Rule) -> Result<String, AllocError> {
    let Ok(copy) = rule.copy(alloc) else {
        return Err(AllocError);
    };
    let place = if copy.local { "local" } else { "anywhere" };
    match copy.needs {
        Needs::Whole => format!(in alloc; "{place} whole"),
        Needs::Stated(amounts) => {
            let (cores, memory, disk) = (amounts.cores, amounts.memory, amounts.disk);
            format!(in alloc; "{place} {cores}/{memory}/{disk}")
        }
    }
}

/// What a copy of a plan has.
pub fn of_plan(alloc: Global, text: &str) -> Result<String, AllocError> {
    let flow = lines_of(alloc, text)?;
    let Some(plan) = plan(alloc, &flow) else {
        return said(alloc, "no plan");
    };
    let plan = match plan.copy(alloc) {
        Ok(copy) => copy,
        Err(Memory) => return Err(AllocError),
    };
    let digest = plan_digest(&plan);
    let mut shown = hex::encode(alloc, digest.0.as_slice())?;
    for rule in plan.rules.as_slice() {
        let rule = shown_rule(alloc, rule)?;
        shown.push_str(format!(in alloc; "; {rule}")?.as_str())?;
    }
    Ok(shown)
}
