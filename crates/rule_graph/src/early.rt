//! The faults of a flow that show before its files are numbered.
ghost use Rattle.std.specs.Prelude.{◌≡◌, ◌<◌, ◌^◌, All, IfOk, length};
ghost use Rattle.rule_graph.specs.Flows.{names_of};
ghost use Rattle.rule_graph.specs.Faults.{named_fault, early_fault};
ghost use Rattle.rule_graph.specs.Checked.{HasNames};

use crate::checks::{BadNames, NoOutput, SameNames, over_rules, too_many};
use crate::faults::GraphFault;
use crate::nesting::nested_name;
use flow_types::{Bytes, RawFlow};
use std::alloc::{AllocError, Global};

// The first fault that a flow without bad names shows before its files are numbered.
fn named_fault(
    alloc: Global,
    flow: &RawFlow,
    names: &[Bytes],
) -> Result<Option<GraphFault>, AllocError>
    requires of_flow { names.now ≡ names_of flow.now }
    requires count { length flow.now.rules < 2 ^ 32 }
    requires names { All HasNames flow.now.rules }
    ensures { IfOk result (λ fault. fault ≡ named_fault flow.now) }
{
    let fault = over_rules::<NoOutput>(alloc, flow)?;
    if fault.is_some() {
        return Ok(fault);
    }
    let fault = over_rules::<SameNames>(alloc, flow)?;
    if fault.is_some() {
        return Ok(fault);
    }
    nested_name(alloc, flow, names)
}

// The first fault that a flow, the names of whose files these are, shows before its files are
// numbered.
pub(crate) fn early_fault(
    alloc: Global,
    flow: &RawFlow,
    names: &[Bytes],
) -> Result<Option<GraphFault>, AllocError>
    requires { names.now ≡ names_of flow.now }
    ensures { IfOk result (λ fault. fault ≡ early_fault flow.now) }
{
    let fault = too_many(alloc, flow, names)?;
    if fault.is_some() {
        return Ok(fault);
    }
    let fault = over_rules::<BadNames>(alloc, flow)?;
    if fault.is_some() {
        return Ok(fault);
    }
    named_fault(alloc, flow, names)
}
