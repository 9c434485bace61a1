//! Worlds of a master, its foremen and all workers, played over the machines of the programs.
//!
//! A case is a Makeflow text, a line `--` and a script, by `script.rt`. It is answered by the
//! master's records, the made files that are present and the messages that were sent; and where the
//! script asks for random events, by what is so in each of their worlds, by `random.rt`.
#![tactic(auto)]

mod checks;
mod draws;
mod events;
mod play;
mod random;
mod script;
mod seen;
mod shown;

use crate::play::played;
use crate::script::read_script;
use anyhow::{Result, bail};
use cases::{read_cases, read_input};
use mf_rules::read_make;
use net_world::fit_sources;
use rule_graph::{fits_limits, plan_of};
use std::alloc::Global;
use std::str;

fn main(rt: HostRuntime) -> Result<()> {
    let alloc = rt.alloc();
    let text = read_input(&rt)?;
    for case in &read_cases(alloc, &text)? {
        let body = case.body(alloc)?;
        let text = answer(alloc, str::from_utf8(&body)?)?;
        print!(rt; "== {}\n{}", case.title, text)?;
    }
    Ok(())
}

// The answer to a case.
fn answer(alloc: Global, body: &str) -> Result<String> {
    let Some((flow, lines)) = body.split_once("--\n") else {
        bail!("bad case: no line `--`");
    };
    let flow = match read_make(alloc, flow.as_bytes(), &[]) {
        Ok(flow) => flow,
        Err(fault) => bail!("bad case: no flow, {fault}"),
    };
    if !fits_limits(&flow) {
        bail!("bad case: a flow that passes its limits");
    }
    let plan = match plan_of(alloc, flow) {
        Ok(plan) => plan,
        Err(_) => bail!("bad case: no plan"),
    };
    let mut script = read_script(alloc, lines)?;
    if !fit_sources(&plan, &script.sources) {
        bail!("bad case: sources that don't fit the flow");
    }
    played(alloc, &plan, &mut script)
}
