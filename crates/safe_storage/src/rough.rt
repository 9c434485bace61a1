//! A look at bounds alone, which spares a walk.
ghost use Rattle.std.specs.Prelude.{◌≡◌, ◌<◌, ◌≤◌, List, length, true};
ghost use Rattle.flow_types.specs.Plans.{IsValid};
ghost use Rattle.flow_types.specs.Serial.{serial_order};
ghost use Rattle.run_history.specs.declared.moves.Move.{Move};
ghost use Rattle.run_history.specs.Links.{records_of};
ghost use Rattle.task_core.specs.Stands.{Stands};
ghost use Rattle.safe_walks.specs.Passes.{has_room_before};
ghost use Rattle.safe_walks.specs.Walk.{standing};
ghost use Rattle.safe_storage.specs.Counters.{numbers_of, told};
ghost use Rattle.safe_storage.specs.Pacing.{AreNoted, bounds_before};

use crate::counting::{addition, claims, rule_of};
use crate::stand::Stand;
use flow_types::{Plan, RuleNo};
use task_core::Table;

// The bounds of the open rules before this one are together within the room.
fn fit_before(plan: &Plan, stand: &Stand, order: &[RuleNo], rule: RuleNo, room: u64) -> bool
    requires valid { IsValid plan.now }
    requires rules { length stand.now.phases.items ≡ length plan.now.rules }
    requires order { numbers_of order.now ≡ serial_order plan.now }
    ensures { result ≡ true
        → bounds_before plan.now (told stand.now) rule.0 (numbers_of order.now) ≤ room }
{
    let mut left = room;
    for at in 0..order.len() {
        let next = order[at];
        if next.0 == rule.0 {
            return true;
        }
        let bound = addition(plan, stand, next);
        if bound > left {
            return false;
        }
        left -= bound;
    }
    true
}

/// What is stored and the bounds of the claimed rules, of the open ones before this rule and of
/// this rule are together within the limit: then each v up to its place leaves room for it. It
/// looks at rules alone, as they were noted.
pub(crate) fn is_roomy(
    table: &Table,
    stand: &Stand,
    order: &[RuleNo],
    rule: RuleNo,
    limit: u64,
) -> bool
    requires inside { rule.0 < length table.now.plan.rules }
    requires rules { length stand.now.phases.items ≡ length table.now.plan.rules }
    requires order { numbers_of order.now ≡ serial_order table.now.plan }
    ensures { (moves : List Move) → Stands table.now moves
        → AreNoted table.now.plan (records_of moves) stand.now → result ≡ true
        → has_room_before table.now.plan (standing table.now.plan (records_of moves)) rule.0 limit
        ≡ true }
{
    let plan = table.plan();
    let stored = table.stored();
    let claimed = claims(plan, stand);
    let need = stored + claimed + rule_of(plan, rule).bound;
    if need > limit {
        return false;
    }
    fit_before(plan, stand, order, rule, limit - need)
}
