//! From the text of a flow, or from a number of rules, to its plan.
ghost use Rattle.std.specs.Prelude.{◌≡◌, List, [], IfOk, IsErrOf};
ghost use Rattle.flow_types.specs.Flows.{FitsLimits};
ghost use Rattle.flow_types.specs.Plans.{IsValid};
ghost use Rattle.mf_rules.specs.Flow.{given_pairs};
ghost use Rattle.rule_graph.specs.Faults as graph;
ghost use Rattle.command_words.specs.declared.options.Language.TheVariants.{Make, Jx};
ghost use Rattle.master_run.specs.Asked.{flow_plan, generated_rules, read_rules};
ghost use Rattle.master_run.specs.Stages.{Stage, OfFlow, SaysRefusal};
ghost use Rattle.master_run.specs.Stages.{make_refusal, jx_refusal, graph_refusal};
ghost use Rattle.master_run.specs.Words.{generated_name};

use crate::asking::Refusal;
use command_words::Language;
use flow_gen::generate;
use flow_types::{Bytes, Memory, Name, Plan, RawFlow};
use jx_flow::{JxFlowFault, read_jx};
use mf_rules::read_make;
use mf_text::MakeFault;
use report::{Cause, FlowFault};
use rule_graph::{GraphFault, plan_of};
use std::alloc::Global;

fn make_refusal(name: Name, fault: MakeFault) -> Refusal
    ensures { result ≡ make_refusal name fault }
{
    match fault {
        MakeFault::Memory => Refusal::Memory,
        fault => Refusal::Said(Cause::FlowRefused {
            flow: name,
            fault: FlowFault::Make(fault),
        }),
    }
}

fn jx_refusal(name: Name, fault: JxFlowFault) -> Refusal
    ensures { result ≡ jx_refusal name fault }
{
    match fault {
        JxFlowFault::Memory => Refusal::Memory,
        fault => Refusal::Said(Cause::FlowRefused {
            flow: name,
            fault: FlowFault::Jx(fault),
        }),
    }
}

fn graph_refusal(name: Name, fault: GraphFault) -> Refusal
    ensures { result ≡ graph_refusal name fault }
{
    match fault {
        GraphFault::Memory => Refusal::Memory,
        fault => Refusal::Said(Cause::FlowRefused {
            flow: name,
            fault: FlowFault::Graph(fault),
        }),
    }
}

// The plan of the rules of the flow of this name.
fn rules_plan(alloc: Global, name: Name, flow: RawFlow) -> Result<Plan, Refusal>
    requires { FitsLimits flow }
    ensures stage { Stage (read_rules name (graph.plan_of flow)) result }
    ensures flow { OfFlow name result }
    ensures kind { SaysRefusal result }
    ensures valid { IfOk result IsValid }
    ensures no_site { IsErrOf result Refusal.Site → ⊥ }
{
    match plan_of(alloc, flow) {
        Ok(plan) => Ok(plan),
        Err(fault) => Err(graph_refusal(name, fault)),
    }
}

// The plan of the Makeflow text of the flow of this name. The text is let go before the plan is
// made.
fn make_plan(
    alloc: Global,
    name: Name,
    text: Bytes,
    env: &[(String, String)],
) -> Result<Plan, Refusal>
    ensures stage { Stage (flow_plan Make (given_pairs env.now) name text) result }
    ensures flow { OfFlow name result }
    ensures kind { SaysRefusal result }
    ensures valid { IfOk result IsValid }
    ensures no_site { IsErrOf result Refusal.Site → ⊥ }
{
    let flow = match read_make(alloc, text.as_slice(), env) {
        Ok(flow) => flow,
        Err(fault) => return Err(make_refusal(name, fault)),
    };
    drop(text);
    rules_plan(alloc, name, flow)
}

// The plan of the JX text of the flow of this name. The text is let go before the plan is made.
fn jx_plan(alloc: Global, name: Name, text: Bytes) -> Result<Plan, Refusal>
    ensures stage { Stage (flow_plan Jx [] name text) result }
    ensures flow { OfFlow name result }
    ensures kind { SaysRefusal result }
    ensures valid { IfOk result IsValid }
    ensures no_site { IsErrOf result Refusal.Site → ⊥ }
{
    let flow = match read_jx(alloc, text.as_slice()) {
        Ok(flow) => flow,
        Err(fault) => return Err(jx_refusal(name, fault)),
    };
    drop(text);
    rules_plan(alloc, name, flow)
}

/// The plan of the text of the flow of this name, in this language.
pub fn flow_plan(
    alloc: Global,
    language: Language,
    name: Name,
    text: Bytes,
    env: &[(String, String)],
) -> Result<Plan, Refusal>
    ensures stage { Stage (flow_plan language (given_pairs env.now) name text) result }
    ensures flow { OfFlow name result }
    ensures kind { SaysRefusal result }
    ensures valid { IfOk result IsValid }
    ensures no_site { IsErrOf result Refusal.Site → ⊥ }
{
    match language {
        Language::Make => make_plan(alloc, name, text, env),
        Language::Jx => jx_plan(alloc, name, text),
    }
}

// The name by which one speaks of a flow that is made up.
fn generated_name(alloc: Global) -> Result<Name, Memory>
    ensures { IfOk result (λ name. name ≡ generated_name) }
{
    match Name::of(alloc, b"generated") {
        Ok(name) => Ok(name),
        Err(_) => Err(Memory),
    }
}

/// The plan of the flow of so many rules that is made up.
pub fn generated_rules(alloc: Global, rules: u32) -> Result<Plan, Refusal>
    ensures stage { Stage (generated_rules rules) result }
    ensures flow { OfFlow generated_name result }
    ensures kind { SaysRefusal result }
    ensures valid { IfOk result IsValid }
    ensures no_site { IsErrOf result Refusal.Site → ⊥ }
{
    let Ok(name) = generated_name(alloc) else {
        return Err(Refusal::Memory);
    };
    match generate(alloc, rules) {
        Ok(flow) => rules_plan(alloc, name, flow),
        Err(Memory) => Err(Refusal::Memory),
    }
}
