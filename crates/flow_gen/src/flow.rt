//! The rules, and the flow.
ghost use Rattle.std.specs.Prelude.{◌≡◌, IfOk, map};
ghost use Rattle.flow_types.specs.Flows.{FitsLimits};
ghost use Rattle.flow_types.specs.Plans.{numbers};
ghost use Rattle.flow_gen.specs.Generated.{generated, made_name, made_rule};

use crate::command::command;
use crate::makers::{made_files, makers};
use crate::name::made_name;
use flow_types::{Memory, Needs, RawFlow, RawRule, Rows, Text};
use std::alloc::Global;

// A rule that makes its file.
fn made_rule(alloc: Global, rule: u32) -> Result<RawRule, Memory>
    ensures { IfOk result (λ made. made ≡ made_rule rule) }
{
    let Ok(from) = makers(alloc, rule) else {
        return Err(Memory);
    };
    let command = command(alloc, rule, from.as_slice())?;
    let inputs = made_files(alloc, from.as_slice())?;
    let outputs = made_files(alloc, &[rule])?;
    Ok(RawRule {
        place: rule,
        outputs,
        inputs,
        command,
        local: false,
        needs: Needs::Whole,
        env: Rows::new(alloc),
    })
}

#[tactic(auto, using(crate::proofs::Counting::made_more))]
fn made_rules(alloc: Global, count: u32) -> Result<Rows<RawRule>, Memory>
    ensures { IfOk result (λ rules. rules ≡ map made_rule (numbers count)) }
{
    let mut rules = Rows::new(alloc);
    for rule in 0..count {
        let made = made_rule(alloc, rule)?;
        if rules.push(made).is_err() {
            return Err(Memory);
        }
    }
    Ok(rules)
}

#[tactic(auto, using(crate::proofs::Counting::made_more))]
fn made_names(alloc: Global, count: u32) -> Result<Rows<Text>, Memory>
    ensures { IfOk result (λ names. names ≡ map made_name (numbers count)) }
{
    let mut names = Rows::new(alloc);
    for rule in 0..count {
        let name = made_name(alloc, rule)?;
        if names.push(name).is_err() {
            return Err(Memory);
        }
    }
    Ok(names)
}

/// The flow of so many rules. Rule 0 makes `g0` of nothing. Rule i makes `g` and its number of the
/// files of the rules (i - 1) / 2 and i / 3, or of the one that both are. Every file is kept.
pub fn generate(alloc: Global, count: u32) -> Result<RawFlow, Memory>
    ensures flow { IfOk result (λ flow. flow ≡ generated count) }
    ensures limits { IfOk result FitsLimits }
{
    let rules = made_rules(alloc, count)?;
    let keep = made_names(alloc, count)?;
    Ok(RawFlow {
        rules,
        keep,
        bounds: Rows::new(alloc),
    })
}
