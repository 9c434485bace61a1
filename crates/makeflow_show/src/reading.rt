//! From a flow file to its plan.
ghost use Rattle.std.specs.Prelude.{◌≡◌, IfOk, Ok};
ghost use Rattle.flow_types.specs.Flows.{FitsLimits};
ghost use Rattle.flow_types.specs.Plans.{IsValid};
ghost use Rattle.mf_rules.specs.Flow.{given_pairs};
ghost use Rattle.rule_graph.specs.Faults as graph;
ghost use Rattle.makeflow_show.specs.Reading.{IsPlanOf, IsPlanOfMake, IsPlanOfJx};

use command_words::Language;
use flow_types::{Name, Plan, RawFlow};
use jx_flow::{JxFlowFault, read_jx};
use mf_rules::read_make;
use mf_text::MakeFault;
use report::{Cause, FlowFault};
use rule_graph::{GraphFault, plan_of};
use std::alloc::Global;
use std::io::{ErrorKind, Read};
use std::rt::Files;
use std::{fs, io, str};

// The content of a regular file, None where nothing has the name.
fn content_of<R: Files>(rt: &R, alloc: Global, path: &str) -> io::Result<Option<Vec<u8>>> {
    match fs::metadata(rt, path) {
        Ok(data) if data.is_file() => {}
        Ok(_) => return Err(io::Error::from(ErrorKind::InvalidInput)),
        Err(e) if e.kind() == ErrorKind::NotFound || e.kind() == ErrorKind::NotADirectory => {
            return Ok(None);
        }
        Err(e) => return Err(e),
    }
    let mut bytes = Vec::new(alloc);
    let mut file = fs::open(rt, path)?;
    file.read_to_end(&mut bytes)?;
    Ok(Some(bytes))
}

fn read_path<R: Files>(rt: &R, alloc: Global, name: &Name) -> io::Result<Option<Vec<u8>>> {
    match str::from_utf8(name.as_bytes()) {
        Ok(path) => content_of(rt, alloc, path),
        Err(_) => Err(io::Error::from(ErrorKind::InvalidInput)),
    }
}

/// The text of the flow of this name.
pub fn read_text<R: Files>(rt: &R, alloc: Global, name: &Name) -> Result<Vec<u8>, Cause> {
    match read_path(rt, alloc, name) {
        Ok(Some(text)) => Ok(text),
        Ok(None) => match name.copy(alloc) {
            Ok(name) => Err(Cause::FlowMissing { name }),
            Err(_) => Err(Cause::Memory),
        },
        Err(e) if e.kind() == ErrorKind::OutOfMemory => Err(Cause::Memory),
        Err(_) => Err(Cause::SiteFault {
            before: 0,
            after: 1,
        }),
    }
}

fn rules_plan(alloc: Global, name: Name, flow: RawFlow) -> Result<Plan, Cause>
    requires { FitsLimits flow }
    ensures plan { IfOk result (λ plan. graph.plan_of flow ≡ Ok plan) }
    ensures valid { IfOk result IsValid }
{
    match plan_of(alloc, flow) {
        Ok(plan) => Ok(plan),
        Err(GraphFault::Memory) => Err(Cause::Memory),
        Err(fault) => Err(Cause::FlowRefused {
            flow: name,
            fault: FlowFault::Graph(fault),
        }),
    }
}

fn make_plan(
    alloc: Global,
    name: Name,
    text: &[u8],
    env: &[(String, String)],
) -> Result<Plan, Cause>
    ensures plan { IfOk result (IsPlanOfMake (given_pairs env.now) text.now) }
    ensures valid { IfOk result IsValid }
{
    match read_make(alloc, text, env) {
        Ok(flow) => rules_plan(alloc, name, flow),
        Err(MakeFault::Memory) => Err(Cause::Memory),
        Err(fault) => Err(Cause::FlowRefused {
            flow: name,
            fault: FlowFault::Make(fault),
        }),
    }
}

fn jx_plan(alloc: Global, name: Name, text: &[u8]) -> Result<Plan, Cause>
    ensures plan { IfOk result (IsPlanOfJx text.now) }
    ensures valid { IfOk result IsValid }
{
    match read_jx(alloc, text) {
        Ok(flow) => rules_plan(alloc, name, flow),
        Err(JxFlowFault::Memory) => Err(Cause::Memory),
        Err(fault) => Err(Cause::FlowRefused {
            flow: name,
            fault: FlowFault::Jx(fault),
        }),
    }
}

/// The plan of the text of the flow of this name.
pub fn plan_in(
    alloc: Global,
    language: Language,
    name: Name,
    text: &[u8],
    env: &[(String, String)],
) -> Result<Plan, Cause>
    ensures plan { IfOk result (IsPlanOf language (given_pairs env.now) text.now) }
    ensures valid { IfOk result IsValid }
{
    match language {
        Language::Make => make_plan(alloc, name, text, env),
        Language::Jx => jx_plan(alloc, name, text),
    }
}
