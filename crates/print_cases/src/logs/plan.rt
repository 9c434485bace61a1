//! The plan of each case: what rule 0 makes of three sources, rules 1 and 2 take in.
//!
//! File 0 is `a`, file 1 `c`, file 2 `d`, file 3 `e`, file 4 `größe/b c`, file 5 `x` and file 6 `y`.
ghost use Rattle.std.specs.Prelude.{IfSome};
ghost use Rattle.flow_types.specs.Plans.{IsValid};

use flow_types::{Needs, Plan, RawFile, RawFlow, RawRule, Rows, Text};
use rule_graph::{fits_limits, plan_of};
use std::alloc::Global;

const MADE: &str = "größe/b c";

fn files(alloc: Global, names: &[&str]) -> Option<Rows<RawFile>> {
    let mut rows = Vec::new(alloc);
    for name in names {
        rows.push(RawFile {
            local: Text::of(alloc, *name).ok()?,
            remote: None,
        })
        .ok()?;
    }
    Some(Rows::of(rows))
}

fn rule(alloc: Global, place: u32, outputs: &[&str], inputs: &[&str]) -> Option<RawRule> {
    Some(RawRule {
        place,
        outputs: files(alloc, outputs)?,
        inputs: files(alloc, inputs)?,
        command: Text::of(alloc, "true").ok()?,
        local: false,
        needs: Needs::Whole,
        env: Rows::new(alloc),
    })
}

fn flow(alloc: Global) -> Option<RawFlow> {
    let mut rules = Vec::new(alloc);
    rules.push(rule(alloc, 0, &[MADE], &["a", "x", "y"])?).ok()?;
    rules.push(rule(alloc, 1, &["c"], &[MADE])?).ok()?;
    rules.push(rule(alloc, 2, &["d", "e"], &[MADE])?).ok()?;
    Some(RawFlow {
        rules: Rows::of(rules),
        keep: Rows::new(alloc),
        bounds: Rows::new(alloc),
    })
}

/// The plan, none for want of memory.
pub fn flow_plan(alloc: Global) -> Option<Plan>
    ensures { IfSome result IsValid }
{
    let flow = flow(alloc)?;
    if !fits_limits(&flow) {
        return None;
    }
    plan_of(alloc, flow).ok()
}
