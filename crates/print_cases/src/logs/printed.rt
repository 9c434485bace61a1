//! The call that is tried.
ghost use Rattle.flow_types.specs.Plans.{IsValid};

use flow_types::{Amounts, Bytes, Digest, Memory, Plan, Record};
use log_text::print_log;
use run_history::{Mode, Options};
use std::alloc::Global;
use task_core::{Table, TableFault};

const OPTIONS: Options = Options {
    mode: Mode::Never,
    limit: None,
    retries: 0,
    wq: false,
    local: Amounts {
        cores: 1,
        memory: 0,
        disk: 0,
    },
};

/// What is printed of these records, where they are legal for the plan with this digest.
pub fn printed(
    alloc: Global,
    plan: Plan,
    digest: &Digest,
    history: &[Record],
) -> Result<Bytes, TableFault>
    requires { IsValid plan }
{
    let table = match Table::new(alloc, plan, OPTIONS, digest, history) {
        Ok(table) => table,
        Err(why) => return Err(why),
    };
    match print_log(alloc, table.plan(), history) {
        Ok(text) => Ok(text),
        Err(Memory) => Err(TableFault::Memory),
    }
}
