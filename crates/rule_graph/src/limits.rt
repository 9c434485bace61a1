//! Whether a flow keeps the limits that its plan requires.
ghost use Rattle.std.specs.Prelude.{◌≡◌, ◌≤◌, ◌↔◌, IsTrue};
ghost use Rattle.flow_types.specs.Flows.{FitsLimits};
ghost use Rattle.flow_types.specs.Plans.{env_bytes, fits_amounts, most_command_bytes};
ghost use Rattle.rule_graph.specs.Limits.{BoundsFit, RuleFits, RulesFit};

use crate::numbering::MOST_BYTES;
use flow_types::{Needs, Pair, RawFlow, RawRule, Rows};

const MOST_COMMAND_BYTES: usize = 1048576;

const MOST_AMOUNT: u32 = 1000000000;

// What a pair takes of an environment's bytes beside its name and its value.
const PAIR_BYTES: usize = 8;

/// Whether no command, environment, amount or stated bound of a flow passes its limit, as `plan_of`
/// requires. It goes once over the flow.
pub fn fits_limits(flow: &RawFlow) -> bool
    ensures { IsTrue result ↔ FitsLimits flow.now }
{
    rules_fit(flow) && bounds_fit(flow)
}

fn rules_fit(flow: &RawFlow) -> bool
    ensures { IsTrue result ↔ RulesFit flow.now }
{
    for rule in flow.rules.as_slice() {
        if !rule_fits(rule) {
            return false;
        }
    }
    true
}

fn bounds_fit(flow: &RawFlow) -> bool
    ensures { IsTrue result ↔ BoundsFit flow.now }
{
    for line in flow.bounds.as_slice() {
        if line.bytes > MOST_BYTES {
            return false;
        }
    }
    true
}

fn rule_fits(rule: &RawRule) -> bool
    ensures { IsTrue result ↔ RuleFits rule.now }
{
    rule.command.as_str().len() <= MOST_COMMAND_BYTES
        && env_fits(&rule.env)
        && amounts_fit(&rule.needs)
}

fn env_fits(env: &Rows<Pair>) -> bool
    ensures { IsTrue result ↔ (env_bytes env.now ≤ most_command_bytes) }
{
    let mut left = MOST_COMMAND_BYTES;
    for pair in env.as_slice() {
        let (name, value) = (pair.name.as_str().len(), pair.value.as_str().len());
        let bytes = name.saturating_add(value).saturating_add(PAIR_BYTES);
        if left < bytes {
            return false;
        }
        left -= bytes;
    }
    true
}

fn amounts_fit(needs: &Needs) -> bool
    ensures { result ≡ fits_amounts needs.now }
{
    match needs {
        Needs::Whole => true,
        Needs::Stated(amounts) => {
            amounts.cores <= MOST_AMOUNT
                && amounts.memory <= MOST_AMOUNT
                && amounts.disk <= MOST_AMOUNT
        }
    }
}
