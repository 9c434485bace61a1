//! How much a flow stores at most where its rules run one after the other.
ghost use Rattle.std.specs.Prelude.{◌≡◌, IfOk};
ghost use Rattle.flow_types.specs.Plans.{IsValid};
ghost use Rattle.safe_walks.specs.Walk.{peak};

use crate::counters::Counters;
use crate::passing::{Reach, pass_rest};
use crate::stand::Stand;
use flow_types::{Memory, Plan};
use rule_graph::serial_order;
use std::alloc::Global;

/// The most bytes that a run of the plan has stored and reserved, from an empty part on, where it
/// goes on alone in the serial order, each output is as large as it may be, and files are dropped
/// as soon as they may be: by the laws of `safe_walks` a limit of so many bytes is enough for a run
/// that collects files and starts only what the safe admission admits. Condition: the plan is
/// valid.
pub fn peak(alloc: Global, plan: &Plan) -> Result<u64, Memory>
    requires { IsValid plan.now }
    ensures { IfOk result (λ bytes. bytes ≡ peak plan.now) }
{
    let order = serial_order(alloc, plan)?;
    let stand = Stand::blank(alloc, plan)?;
    let mut counters = Counters::new(alloc, plan)?;
    counters.begin(plan, &stand);
    let start = Reach {
        at: 0,
        greatest: counters.load,
    };
    Ok(pass_rest(
        &mut counters,
        plan,
        &stand,
        order.as_slice(),
        start,
        u64::MAX,
    ))
}
