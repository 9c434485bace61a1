//! Command lines, texts of flows and what is read of them.
//!
//! The title of a case begins with what is asked, and a colon. Of `words`, each line of the body is
//! a command line, and is answered by what it chooses. `make` and `jx` read the body as a flow,
//! `plan` as a Makeflow text whose plan is shown; `number` makes a flow up. Of `tokens`, `tree`,
//! `nodes`, `eval`, `back` and `from N` each line that isn't empty is a JX text, and is answered by
//! one line; `let NAME = TEXT` gives a name its value for the lines below, and where `whole` stands
//! before the colon, the body as a whole is the text. A fault is answered as `! FAULT`.
#![tactic(auto)]

mod jx_flows;
mod makes;
mod plans;
mod texts;
mod tokens;
mod tree;
mod words;
mod worth;

use crate::jx_flows::jx_shown;
use crate::makes::make_shown;
use crate::plans::{made_up_shown, plan_shown};
use crate::texts::{reads_shown, values_shown};
use crate::words::words_shown;
use anyhow::Result;
use cases::{Case, read_cases, read_input};
use std::alloc::Global;
use std::str;

// What is asked of a body that is text, answered.
fn answer_text(alloc: Global, ask: &str, text: &str) -> Result<String> {
    match ask {
        "words" => Ok(words_shown(alloc, text)?),
        "number" => made_up_shown(alloc, text),
        _ => Ok(values_shown(alloc, ask, text)?),
    }
}

fn answer(alloc: Global, case: &Case) -> Result<String> {
    let body = case.body(alloc)?;
    let ask = match case.title.split_once(':') {
        Some((ask, _)) => ask,
        None => "",
    };
    match ask {
        "make" => make_shown(alloc, &body),
        "plan" => plan_shown(alloc, &body),
        "jx" => Ok(jx_shown(alloc, &body)?),
        "tokens" | "tree" | "nodes" | "tokens whole" | "tree whole" | "nodes whole" => {
            Ok(reads_shown(alloc, ask, &body)?)
        }
        _ => answer_text(alloc, ask, str::from_utf8(&body)?),
    }
}

fn main(rt: HostRuntime) -> Result<()> {
    let alloc = rt.alloc();
    let text = read_input(&rt)?;
    for case in read_cases(alloc, &text)?.iter() {
        let title = case.title.as_str();
        let shown = answer(alloc, case)?;
        print!(rt; "== {title}\n{shown}\n")?;
    }
    Ok(())
}
