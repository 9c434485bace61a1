//! Records by themselves.
ghost use Rattle.std.specs.Prelude.{◌≡◌, ◌<◌, ◌^◌, None, length};
ghost use Rattle.std.specs.Option.{option_and_then};
ghost use Rattle.flow_types.specs.Plans.{IsValid};
ghost use Rattle.rule_graph.specs.Spelling.{plan_digest};
ghost use Rattle.desk.specs.Histories.{FindsHistory};
ghost use Rattle.desk.specs.Openings.{opened_plan, other_flow};

use crate::StartFault;
use crate::start::{fault_of, other_plan};
use crate::starts::part_start;
use flow_types::{Digest, Plan, Record};
use rule_graph::plan_digest;
use run_history::Options;
use std::alloc::Global;
use task_core::Table;

/// The table over records whose part isn't of another plan.
fn table_behind(
    alloc: Global,
    plan: Plan,
    options: Options,
    digest: Digest,
    history: &[Record],
) -> Result<Table, StartFault>
    requires valid { IsValid plan }
    requires digest { digest.0 ≡ plan_digest plan }
    requires few { length history.now < 2 ^ 32 }
    requires same { option_and_then (other_flow (plan_digest plan)) (opened_plan history.now)
        ≡ None }
    ensures { FindsHistory plan options history.now result }
{
    match Table::new(alloc, plan, options, &digest, history) {
        Ok(table) => Ok(table),
        Err(why) => Err(fault_of(why)),
    }
}

/// The table over the records of a log, where nothing is wrong with them, for what is no run: the
/// cleaning of a part, or the printing of a log.
///
/// OtherFlow comes where their part was opened for another plan, else NotLegal at the first record
/// that may not stand where it does. No file is looked at. Conditions: the plan is valid, and there
/// are fewer than 2^32 records.
pub fn check_history(
    alloc: Global,
    plan: Plan,
    options: Options,
    history: &[Record],
) -> Result<Table, StartFault>
    requires valid { IsValid plan }
    requires few { length history.now < 2 ^ 32 }
    ensures { FindsHistory plan options history.now result }
{
    let digest = plan_digest(&plan);
    let start = part_start(history);
    match other_plan(&history[start..], digest) {
        Some(logged) => Err(StartFault::OtherFlow {
            logged,
            found: digest,
        }),
        None => table_behind(alloc, plan, options, digest, history),
    }
}
