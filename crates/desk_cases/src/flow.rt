//! The lines of a flow.
//!
//! `rule NEEDS OUTPUTS : INPUTS` is a rule, where NEEDS are its cores, or CORES/MEMORY/DISK, or `-`
//! for a whole link, and `near=far` is a file with the name that it has elsewhere. `command TEXT`,
//! `env NAME VALUE` and `local` say more of the rule above. `bound NAME BYTES` bounds a file, and
//! `keep NAME` keeps one.
ghost use Rattle.std.specs.Prelude.{IfSome};
ghost use Rattle.flow_types.specs.Plans.{IsValid};

use crate::words::{first, number, small};
use desk_bench::{planned, raw_rule};
use flow_types::{Amounts, Needs, Pair, Plan, RawFlow, RawRule, Rows, SizeBound, Text};
use std::alloc::Global;

// A flow that is being read.
#[derive(Drop)]
struct Draft {
    rules: Vec<RawRule>,
    keep: Vec<Text>,
    bounds: Vec<SizeBound>,
}

fn needs_of(word: &str) -> Option<Needs> {
    if word == "-" {
        return Some(Needs::Whole);
    }
    let (cores, rest) = match word.split_once('/') {
        Some(words) => words,
        None => (word, "0/0"),
    };
    let (memory, disk) = rest.split_once('/')?;
    Some(Needs::Stated(Amounts {
        cores: small(cores)?,
        memory: small(memory)?,
        disk: small(disk)?,
    }))
}

fn rule_of(alloc: Global, line: &str) -> Option<RawRule> {
    let (needs, rest) = first(line);
    let needs = needs_of(needs)?;
    let (outputs, inputs) = rest.split_once(':')?;
    raw_rule(alloc, outputs, inputs, needs).ok()
}

fn pair_of(alloc: Global, line: &str) -> Option<Pair> {
    let (name, value) = first(line);
    Some(Pair {
        name: Text::of(alloc, name).ok()?,
        value: Text::of(alloc, value).ok()?,
    })
}

fn bound_of(alloc: Global, line: &str) -> Option<SizeBound> {
    let (name, bytes) = first(line);
    Some(SizeBound {
        name: Text::of(alloc, name).ok()?,
        bytes: number(bytes)?,
    })
}

// Says more of a rule, and tells whether the line is in form.
fn refine(alloc: Global, rule: &mut RawRule, kind: &str, line: &str) -> Option<()> {
    match kind {
        "command" => rule.command = Text::of(alloc, line).ok()?,
        "env" => rule.env.push(pair_of(alloc, line)?).ok()?,
        "local" => rule.local = true,
        _ => return None,
    }
    Some(())
}

impl Draft {
    fn new(alloc: Global) -> Draft {
        Draft {
            rules: Vec::new(alloc),
            keep: Vec::new(alloc),
            bounds: Vec::new(alloc),
        }
    }

    // Adds a line that is in form.
    fn add(&mut self, alloc: Global, line: &str) -> Option<()> {
        let (kind, rest) = first(line);
        match kind {
            "rule" => self.rules.push(rule_of(alloc, rest)?).ok(),
            "bound" => self.bounds.push(bound_of(alloc, rest)?).ok(),
            "keep" => self.keep.push(Text::of(alloc, rest).ok()?).ok(),
            _ => refine(alloc, self.rules.last_mut()?, kind, rest),
        }
    }

    fn into_flow(self) -> RawFlow {
        let Draft {
            rules,
            keep,
            bounds,
        } = self;
        RawFlow {
            rules: Rows::of(rules),
            keep: Rows::of(keep),
            bounds: Rows::of(bounds),
        }
    }
}

fn draft_of(alloc: Global, lines: &[String]) -> Option<Draft> {
    let mut draft = Draft::new(alloc);
    for line in lines {
        draft.add(alloc, line.as_str())?;
    }
    Some(draft)
}

/// The plan of a flow's lines. None comes where one is out of form, or the flow has no plan.
pub fn plan_of(alloc: Global, lines: &[String]) -> Option<Plan>
    ensures { IfSome result IsValid }
{
    let draft = draft_of(alloc, lines)?;
    planned(alloc, draft.into_flow()).ok()
}
