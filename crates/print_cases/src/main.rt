//! What is printed: at the end of a call, and of a log.
//!
//! The title of a case begins with `end` or `log`, and a colon. Below `end` each line names a cause
//! in the words of `ends/causes.rt`, and is answered by the status and by the bytes that are printed,
//! with escapes; files and rules are those of the plan that `FLOW` makes. Below `log` stands a log,
//! whose lines are its records in the words of `logs/script.rt`; it is answered by the number of the
//! printed lines and by these, or by the number of the first record that may not stand where it does.
#![tactic(auto)]

mod ends;
mod logs;

use anyhow::{Result, bail};
use cases::{Case, read_cases, read_input};
use std::alloc::Global;
use std::str;

fn answer(alloc: Global, case: &Case) -> Result<String> {
    let body = case.body(alloc)?;
    match case.title.split_once(':') {
        Some(("end", _)) => Ok(ends::answers(alloc, str::from_utf8(&body)?)?),
        Some(("log", _)) => Ok(logs::answer(alloc, str::from_utf8(&body)?)?),
        _ => bail!("bad case: {}", case.title),
    }
}

fn main(rt: HostRuntime) -> Result<()> {
    let alloc = rt.alloc();
    let text = read_input(&rt)?;
    for case in read_cases(alloc, &text)?.iter() {
        let title = case.title.as_str();
        let shown = answer(alloc, case)?;
        print!(rt; "== {title}\n{shown}")?;
    }
    Ok(())
}
