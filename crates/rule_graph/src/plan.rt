//! The plan of a flow.
ghost use Rattle.std.specs.Prelude.{◌≡◌, IfOk};
ghost use Rattle.flow_types.specs.Flows.{FitsLimits};
ghost use Rattle.flow_types.specs.Plans.{IsValid};
ghost use Rattle.rule_graph.specs.Answers.{Gives};
ghost use Rattle.rule_graph.specs.Faults.{cycle, plan_of};
ghost use Rattle.rule_graph.specs.Loops.{IsNumbered};

use crate::cycle::loop_of;
use crate::early::early_fault;
use crate::faults::GraphFault;
use crate::raw::names_of;
use crate::rows::numbered;
use flow_types::{Plan, RawFlow, Rows};
use std::alloc::{AllocError, Global};

/// The plan of a flow, or why it has none: the first fault in the order of `GraphFault`, of one
/// kind that of the least rule. Rules keep the order of the flow, and files are numbered by the
/// byte order of their names. Commands, variables and needs are moved into the plan. It costs n log
/// n in the names and goes once over the ports for each kind of fault.
pub fn plan_of(alloc: Global, flow: RawFlow) -> Result<Plan, GraphFault>
    requires { FitsLimits flow }
    ensures plan { Gives result (plan_of flow) }
    ensures valid { IfOk result IsValid }
{
    match planned(alloc, flow) {
        Ok(answer) => answer,
        Err(AllocError) => Err(GraphFault::Memory),
    }
}

// The plan of a flow, or its first fault.
pub(crate) fn planned(alloc: Global, flow: RawFlow) -> Result<Result<Plan, GraphFault>, AllocError>
    ensures { IfOk result (λ answer. answer ≡ plan_of flow) }
{
    let names = names_of(alloc, &flow)?;
    match early_fault(alloc, &flow, &names)? {
        None => {}
        Some(fault) => return Ok(Err(fault)),
    }
    let plan = match numbered(alloc, flow, names)? {
        Ok(plan) => plan,
        Err(fault) => return Ok(Err(fault)),
    };
    match loop_fault(alloc, &plan)? {
        None => Ok(Ok(plan)),
        Some(fault) => Ok(Err(fault)),
    }
}

// The loop that is named among the rules that a serial run leaves over.
fn loop_fault(alloc: Global, plan: &Plan) -> Result<Option<GraphFault>, AllocError>
    requires { IsNumbered plan.now }
    ensures { IfOk result (λ fault. fault ≡ cycle plan.now) }
{
    match loop_of(alloc, plan)? {
        Some(rules) => Ok(Some(GraphFault::Cycle(Rows::of(rules)))),
        None => Ok(None),
    }
}
