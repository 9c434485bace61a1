//! Runs of a desk over a folder in memory.
//!
//! A case is a script, whose lines are those of `scene.rt`, and each is answered on a line. Each
//! case begins with an empty folder, without rules and without a desk.
#![tactic(auto)]

mod answers;
mod attempts;
mod flow;
mod folder;
mod links;
mod logs;
mod options;
mod runs;
mod scene;
mod slots;
mod words;

use crate::flow::plan_of;
use crate::options::options_of;
use crate::scene::Scene;
use crate::slots::Slots;
use cases::{read_cases, read_input};
use desk_bench::{Drain, MOST_RULES, begin};
use mem_outside::MemSite;
use std::alloc::{AllocError, Global};
use std::str;

// As many rules as a bench may have, each without inputs.
fn many_rules(alloc: Global) -> Result<Vec<String>, AllocError> {
    let mut lines = Vec::new(alloc);
    for rule in 0..MOST_RULES {
        lines.push(format!(in alloc; "rule 1 f{rule} :")?)?;
    }
    Ok(lines)
}

// What closes the attempts that a case leaves.
fn drain(alloc: Global) -> Result<Drain, AllocError> {
    let rules = many_rules(alloc)?;
    let Some(plan) = plan_of(alloc, &rules) else {
        return Err(AllocError);
    };
    let Some(options) = options_of("never - 0 1") else {
        return Err(AllocError);
    };
    let Ok(bench) = begin(alloc, plan, MemSite::new(alloc), options) else {
        return Err(AllocError);
    };
    match bench.into_drain() {
        Some(drain) => Ok(drain),
        None => Err(AllocError),
    }
}

// The answers to a script.
fn answered(alloc: Global, slots: &mut Slots, script: &str) -> Result<String, AllocError> {
    let mut scene = Scene::new(alloc);
    let mut text = String::new(alloc);
    for line in script.lines() {
        let answer = scene.answer(alloc, slots, line)?;
        text.push_str(&answer)?;
        text.push_str("\n")?;
    }
    Ok(text)
}

fn run<R: Input + Print + AllocGlobal>(rt: &R, slots: &mut Slots) -> anyhow::Result<()> {
    let alloc = rt.alloc();
    let text = read_input(rt)?;
    for case in read_cases(alloc, &text)?.iter() {
        let title = case.title.as_str();
        println!(rt; "== {title}")?;
        let body = case.body(alloc)?;
        let text = answered(alloc, slots, str::from_utf8(&body)?)?;
        slots.clear();
        print!(rt; "{text}")?;
    }
    Ok(())
}

fn main(rt: HostRuntime) -> anyhow::Result<()> {
    let mut slots = Slots::new(drain(rt.alloc())?);
    let reply = run(&rt, &mut slots);
    slots.close();
    reply
}
