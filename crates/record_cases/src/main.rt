//! Records of the log, and the types that all crates share.
//!
//! The title of a case begins with `call` or `record`, and a colon. Below `call` each line is a call
//! of the base crates that wants memory, made with enough of it, in the words of the files of
//! `calls`, and is answered on a line. Below `record` a line has a kind byte and a body in hex, with
//! blanks where they help, and is answered by the record and by the bytes that are written of it, or
//! by the place at which it is refused; a line `cuts HEX` is answered by the places at which the
//! beginnings of those bytes are refused, the shortest first.
#![tactic(auto)]

mod calls;
mod records;

use anyhow::{Result, bail};
use cases::{Case, read_cases, read_input};
use std::alloc::Global;
use std::str;

fn answer(alloc: Global, case: &Case) -> Result<String> {
    let body = case.body(alloc)?;
    match case.title.split_once(':') {
        Some(("call", _)) => Ok(calls::answers(alloc, &body)?),
        Some(("record", _)) => Ok(records::answers(alloc, str::from_utf8(&body)?)?),
        _ => bail!("bad case: {}", case.title),
    }
}

fn main(rt: HostRuntime) -> Result<()> {
    let alloc = rt.alloc();
    let text = read_input(&rt)?;
    for case in read_cases(alloc, &text)?.iter() {
        let title = case.title.as_str();
        let shown = answer(alloc, case)?;
        print!(rt; "== {title}\n{shown}")?;
    }
    Ok(())
}
