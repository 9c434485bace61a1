//! What is stored by the records of a log.
ghost use Rattle.std.specs.Prelude.{◌≡◌, ◌<◌, ◌^◌, IfOk, length};
ghost use Rattle.flow_types.specs.Plans.{IsValid};
ghost use Rattle.run_history.specs.Storage.{stored};

use desk::check_history;
use flow_types::{Amounts, Memory, Plan, Record};
use run_history::{Mode, Options};
use std::alloc::Global;

// What a table is asked for by which no run goes.
const NO_RUN: Options = Options {
    mode: Mode::Never,
    limit: None,
    retries: 0,
    wq: false,
    local: Amounts {
        cores: 0,
        memory: 0,
        disk: 0,
    },
};

// The same, of no more records than a log may have.
fn stored_behind(alloc: Global, plan: &Plan, records: &[Record]) -> Result<u64, Memory>
    requires valid { IsValid plan.now }
    requires few { length records.now < 2 ^ 32 }
    ensures { IfOk result (λ bytes. bytes ≡ stored plan.now records.now) }
{
    let copy = plan.copy(alloc)?;
    match check_history(alloc, copy, NO_RUN, records) {
        Ok(table) => Ok(table.stored()),
        Err(_) => Err(Memory),
    }
}

/// The bytes of the made files that are present by the records of a log. No file is looked at; the
/// plan is copied, and looked through for each record.
pub fn stored_bytes(alloc: Global, plan: &Plan, records: &[Record]) -> Result<u64, Memory>
    requires valid { IsValid plan.now }
    ensures { IfOk result (λ bytes. bytes ≡ stored plan.now records.now) }
{
    match u32::try_from(records.len()) {
        Ok(_) => stored_behind(alloc, plan, records),
        Err(_) => Err(Memory),
    }
}
