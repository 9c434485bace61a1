//! The flow of a Makeflow text.
ghost use Rattle.std.specs.Prelude.{map, IfOk};
ghost use Rattle.flow_types.specs.Flows.{FitsLimits};
ghost use Rattle.mf_text.specs.Answers.{Gives};
ghost use Rattle.mf_rules.specs.Flow.{given_pairs, formed, flow_in, flow_of};

use crate::reader::Reader;
use crate::steps::steps_of;
use flow_types::RawFlow;
use mf_text::{Line, MakeFault, logical_lines};
use std::alloc::Global;

/// The flow that a Makeflow text says, over these variables of the environment, of which the first
/// of a name counts; or the fault of its least line, by the order of `MakeFault` on one line.
pub fn read_make(alloc: Global, text: &[u8], env: &[(String, String)]) -> Result<RawFlow, MakeFault>
    ensures flow { Gives (λ flow. flow) result (flow_of (given_pairs env.now) text.now) }
    ensures limits { IfOk result FitsLimits }
{
    let lines = logical_lines(alloc, text)?;
    read_lines(alloc, lines.into_vec(), env)
}

fn read_lines(
    alloc: Global,
    lines: Vec<Line>,
    env: &[(String, String)],
) -> Result<RawFlow, MakeFault>
    ensures { Gives (λ flow. flow) result (flow_in (given_pairs env.now) (map formed lines.items)) }
{
    let mut steps = steps_of(alloc, lines)?;
    let mut reader = Reader::new(alloc, env)?;
    while let Some(step) = steps.pop() {
        match reader.read(alloc, step) {
            Ok(()) => {}
            Err(fault) => return Err(fault),
        }
    }
    drop(steps);
    Ok(reader.finish(alloc)?)
}
