//! A walk: rule after rule of the serial order, and the greatest v on the way.
ghost use Rattle.std.specs.Prelude.{◌≡◌, ◌<◌, ◌≤◌, ◌+◌, ◌==◌, ◌||◌, ℕ, false, length, max};
ghost use Rattle.std.specs.Prelude.{if◌then◌else◌};
ghost use Rattle.flow_types.specs.Plans.{IsValid};
ghost use Rattle.flow_types.specs.Serial.{serial_order};
ghost use Rattle.run_history.specs.Storage.{rule_bound};
ghost use Rattle.safe_storage.specs.Counters.{HasPlaces, IsAt, IsStand, IsWalk, greatest_from};
ghost use Rattle.safe_storage.specs.Counters.{is_marked, numbers_of, told};
ghost use Rattle.safe_walks.specs.Passes.{walk_before};
ghost use Rattle.safe_walks.specs.Walk.{greatest, is_added, walk};

use crate::counters::Counters;
use crate::counting::rule_of;
use crate::stand::{Phase, Stand};
use flow_types::{Plan, RuleNo};

/// How far a walk has come: to which place of the order, and the greatest v up to there.
#[derive(Clone, Copy)]
pub(crate) struct Reach {
    pub(crate) at: usize,
    pub(crate) greatest: u64,
}

// Passes the rule, and answers the greatest v with what it adds.
fn step(counters: &mut Counters, plan: &Plan, stand: &Stand, rule: RuleNo, greatest: u64) -> u64
    requires valid { IsValid plan.now }
    requires stand { IsStand plan.now stand.now }
    requires inside { rule.0 < length plan.now.rules }
    requires walk { IsWalk plan.now (told stand.now) counters.old }
    requires fresh { (told stand.now).complete rule.0 ≡ false
        → is_marked counters.old.over.items rule.0 ≡ false }
    ensures walk { IsWalk plan.now (told stand.now) counters.new }
    ensures over { (r : ℕ) → is_marked counters.new.over.items r
        ≡ ((rule.0 == r) || is_marked counters.old.over.items r) }
    ensures greatest { result ≡ (if is_added (told stand.now) rule.0
        then max greatest (counters.old.load + rule_bound plan.now rule.0) else greatest) }
{
    match stand.phases[rule.0 as usize] {
        Phase::Complete => greatest,
        Phase::Claimed => {
            counters.pass(plan, stand, rule);
            greatest
        }
        Phase::Open => {
            let load = counters.load + rule_of(plan, rule).bound;
            counters.pass(plan, stand, rule);
            greatest.max(load)
        }
    }
}

/// Passes the rules before this one, and no further than to a v above the limit.
pub(crate) fn pass_before(
    counters: &mut Counters,
    plan: &Plan,
    stand: &Stand,
    order: &[RuleNo],
    rule: RuleNo,
    limit: u64,
) -> Reach
    requires valid { IsValid plan.now }
    requires stand { IsStand plan.now stand.now }
    requires order { numbers_of order.now ≡ serial_order plan.now }
    requires start { IsAt plan.now (told stand.now) (numbers_of order.now) 0 counters.old }
    ensures at { IsAt plan.now (told stand.now) (numbers_of order.now) result.at counters.new }
    ensures within { result.at ≤ length order.now }
    ensures whole { greatest_from plan.now (told stand.now) (numbers_of order.now) result.at
        result.greatest ≡ greatest (walk plan.now (told stand.now)) }
    ensures before { result.greatest ≤ limit
        → result.greatest ≡ greatest (walk_before plan.now (told stand.now) rule.0) }
{
    let mut greatest = counters.load;
    for at in 0..order.len() {
        let next = order[at];
        if next.0 == rule.0 {
            return Reach { at, greatest };
        }
        if greatest > limit {
            return Reach { at, greatest };
        }
        greatest = step(counters, plan, stand, next, greatest);
    }
    Reach {
        at: order.len(),
        greatest,
    }
}

/// Passes the rules from there on, and no further than to a v above the limit; answers the greatest
/// v of all.
pub(crate) fn pass_rest(
    counters: &mut Counters,
    plan: &Plan,
    stand: &Stand,
    order: &[RuleNo],
    from: Reach,
    limit: u64,
) -> u64
    requires valid { IsValid plan.now }
    requires stand { IsStand plan.now stand.now }
    requires order { numbers_of order.now ≡ serial_order plan.now }
    requires at { IsAt plan.now (told stand.now) (numbers_of order.now) from.at counters.old }
    requires within { from.at ≤ length order.now }
    ensures exact { result ≤ limit
        → result ≡ greatest_from plan.now (told stand.now) (numbers_of order.now) from.at
        from.greatest }
    ensures beyond { limit < result
        → limit < greatest_from plan.now (told stand.now) (numbers_of order.now) from.at
        from.greatest }
    ensures places { HasPlaces plan.now counters.new }
{
    let mut greatest = from.greatest;
    for at in from.at..order.len() {
        if greatest > limit {
            return greatest;
        }
        greatest = step(counters, plan, stand, order[at], greatest);
    }
    greatest
}
