//! Records that are looked at for a plan.
ghost use Rattle.std.specs.Prelude.{◌≡◌, ◌<◌, ◌^◌, length};
ghost use Rattle.flow_types.specs.Plans.{IsValid};
ghost use Rattle.cleaning.specs.Looks.{Finds, IsOfRecords, look_fault};

use crate::LookFault;
use desk::{StartFault, check_history};
use flow_types::{Amounts, Plan, Record};
use run_history::{Mode, Options};
use std::alloc::Global;
use task_core::Table;

/// What a table is asked for by which no run goes.
const NO_RUN: Options = Options {
    mode: Mode::Never,
    limit: None,
    retries: 0,
    wq: false,
    local: Amounts {
        cores: 0,
        memory: 0,
        disk: 0,
    },
};

/// Why records can't be used, by why no table stands behind them.
fn look_fault(why: StartFault) -> LookFault
    requires { IsOfRecords why }
    ensures { result ≡ look_fault why }
{
    match why {
        StartFault::OtherFlow { logged, found } => LookFault::OtherFlow { logged, found },
        StartFault::NotLegal { at } => LookFault::NotLegal { at },
        StartFault::Memory => LookFault::Memory,
        _ => unreachable!(),
    }
}

/// The table behind the records of a log, where nothing is wrong with them. It copies the plan.
pub(crate) fn check_records(
    alloc: Global,
    plan: &Plan,
    records: &[Record],
) -> Result<Table, LookFault>
    requires valid { IsValid plan.now }
    requires few { length records.now < 2 ^ 32 }
    ensures { Finds plan.now records.now result }
{
    let Ok(copy) = plan.copy(alloc) else {
        return Err(LookFault::Memory);
    };
    match check_history(alloc, copy, NO_RUN, records) {
        Ok(table) => Ok(table),
        Err(why) => Err(look_fault(why)),
    }
}
