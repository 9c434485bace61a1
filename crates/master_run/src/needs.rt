//! What rules need, against what there is on this machine and in its storage.
ghost use Rattle.std.specs.Prelude.{◌≡◌, ◌<◌, ◌^◌, length};
ghost use Rattle.master_run.specs.Needs.{bound_excess, excess_among, excess_of, rule_excess};
ghost use Rattle.master_run.specs.Needs.{here_excess, runs_here, taken_here};

use flow_types::{Amounts, Needs, Rule, RuleNo};
use run_history::Options;

/// A rule that needs more of a resource than there is.
#[derive(Clone, Copy, Debug, PartialEq, Eq)]
pub struct Excess {
    pub rule: RuleNo,
    pub need: u64,
    pub total: u64,
}

fn taken_here(needs: Needs) -> Amounts
    ensures { result ≡ taken_here needs }
{
    match needs {
        Needs::Whole => Amounts {
            cores: 1,
            memory: 0,
            disk: 0,
        },
        Needs::Stated(amounts) => amounts,
    }
}

fn rule_excess(rule: RuleNo, need: Amounts, total: Amounts) -> Option<Excess>
    ensures { result ≡ rule_excess rule.0 need total }
{
    let (need, total) = if need.cores > total.cores {
        (need.cores, total.cores)
    } else if need.memory > total.memory {
        (need.memory, total.memory)
    } else if need.disk > total.disk {
        (need.disk, total.disk)
    } else {
        return None;
    };
    Some(Excess {
        rule,
        need: u64::from(need),
        total: u64::from(total),
    })
}

fn bound_excess(rule: RuleNo, bound: u64, limit: Option<u64>) -> Option<Excess>
    ensures { result ≡ bound_excess rule.0 bound limit }
{
    let total = limit?;
    if bound > total {
        Some(Excess {
            rule,
            need: bound,
            total,
        })
    } else {
        None
    }
}

// Whether the rule runs on this machine.
fn runs_here(options: &Options, row: &Rule) -> bool
    ensures { result ≡ runs_here options.now row.now }
{
    row.local || !options.wq
}

fn here_excess(options: &Options, rule: RuleNo, row: &Rule) -> Option<Excess>
    ensures { result ≡ here_excess options.now rule.0 row.now }
{
    if runs_here(options, row) {
        rule_excess(rule, taken_here(row.needs), options.local)
    } else {
        None
    }
}

fn excess_of(options: &Options, rule: RuleNo, row: &Rule) -> Option<Excess>
    ensures { result ≡ excess_of options.now rule.0 row.now }
{
    match here_excess(options, rule, row) {
        Some(over) => Some(over),
        None => bound_excess(rule, row.bound, options.limit),
    }
}

/// The least rule that needs more than there is.
pub fn least_excess(options: &Options, rules: &[Rule]) -> Option<Excess>
    requires { length rules.now < 2 ^ 32 }
    ensures { result ≡ excess_among options.now 0 rules.now }
{
    for (i, rule) in rules.iter().enumerate() {
        if let Some(over) = excess_of(options, RuleNo(i as u32), rule) {
            return Some(over);
        }
    }
    None
}
