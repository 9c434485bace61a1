//! What the rules of a plan take.
ghost use Rattle.std.specs.Prelude.{◌≡◌, ◌<◌, ◌≤◌, ◌||◌, IfOk, length, map, not};
ghost use Rattle.flow_types.specs.Plans.{IsValid, most_bytes, most_inputs, rule_numbers, takes};
ghost use Rattle.run_history.specs.Links.{is_local_rule, needs_of};
ghost use Rattle.run_history.specs.Storage.{rule_bound};
ghost use Rattle.rule_progress.specs.Progress.{is_here, is_whole, need_of, stated_amounts};

use flow_types::{Amounts, Memory, Needs, Plan, Rule, RuleNo};
use ready_rules::Weight;
use run_history::Options;
use std::alloc::Global;

/// The most bytes of one rule's outputs together.
const MOST_BYTES: u64 = 67_108_864;

fn rule_of(plan: &Plan, rule: RuleNo) -> &Rule
    requires valid { IsValid plan.now }
    requires inside { rule.0 < length plan.now.rules }
    ensures local { result.now.local ≡ is_local_rule plan.now rule.0 }
    ensures needs { result.now.needs ≡ needs_of plan.now rule.0 }
    ensures bound { result.now.bound ≡ rule_bound plan.now rule.0 }
    ensures small { result.now.bound ≤ most_bytes }
    ensures inputs { length result.now.inputs ≡ length (takes plan.now rule.0) }
    ensures few { length result.now.inputs ≤ most_inputs }
{
    &plan.rules.as_slice()[rule.0 as usize]
}

fn is_whole(needs: Needs) -> bool
    ensures { result ≡ is_whole needs }
{
    matches!(needs, Needs::Whole)
}

fn stated_amounts(here: bool, needs: Needs) -> Amounts
    ensures { result ≡ stated_amounts here needs }
{
    match needs {
        Needs::Stated(amounts) => amounts,
        Needs::Whole => {
            Amounts {
                cores: u32::from(here),
                memory: 0,
                disk: 0,
            }
        }
    }
}

fn is_here(local: bool, options: Options) -> bool
    ensures { result ≡ (local || not options.wq) }
{
    local || !options.wq
}

// What a rule takes, but for the bytes of its inputs.
fn need_of(plan: &Plan, options: Options, rule: RuleNo) -> Weight
    requires valid { IsValid plan.now }
    requires inside { rule.0 < length plan.now.rules }
    ensures { result ≡ need_of plan.now options rule.0 }
{
    let row = rule_of(plan, rule);
    let here = is_here(row.local, options);
    let whole = is_whole(row.needs);
    let amounts = stated_amounts(here, row.needs);
    Weight {
        here,
        stated: !here && !whole,
        whole: !here && whole,
        cores: u64::from(amounts.cores),
        memory: u64::from(amounts.memory),
        disk: u64::from(amounts.disk),
        bytes: 0,
        bound: row.bound,
        bytes_left: 0,
        bound_left: MOST_BYTES - row.bound,
    }
}

// What each rule takes, but for the bytes of its inputs.
pub(crate) fn needs_of(alloc: Global, plan: &Plan, options: Options) -> Result<Vec<Weight>, Memory>
    requires { IsValid plan.now }
    ensures { IfOk result (λ needs.
        needs.items ≡ map (need_of plan.now options) (rule_numbers plan.now)) }
{
    let mut needs = Vec::new(alloc);
    for rule in 0..plan.rules.len() as u32 {
        if needs.push(need_of(plan, options, RuleNo(rule))).is_err() {
            return Err(Memory);
        }
    }
    Ok(needs)
}

// How many input ports each rule has.
pub(crate) fn ports_of(alloc: Global, plan: &Plan) -> Result<Vec<u32>, Memory>
    requires { IsValid plan.now }
    ensures { IfOk result (λ ports.
        ports.items ≡ map (λ r. length (takes plan.now r)) (rule_numbers plan.now)) }
{
    let mut ports = Vec::new(alloc);
    for rule in 0..plan.rules.len() as u32 {
        if ports.push(input_count(plan, RuleNo(rule))).is_err() {
            return Err(Memory);
        }
    }
    Ok(ports)
}

fn input_count(plan: &Plan, rule: RuleNo) -> u32
    requires valid { IsValid plan.now }
    requires inside { rule.0 < length plan.now.rules }
    ensures { result ≡ length (takes plan.now rule.0) }
{
    rule_of(plan, rule).inputs.len() as u32
}
