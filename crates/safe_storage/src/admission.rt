//! An admission under which a run that goes on alone always stays within its limit.
ghost use Rattle.std.specs.Prelude.{◌≡◌, ◌<◌, ◌≤◌, IfOk, List, length};
ghost use Rattle.flow_types.specs.Plans.{IsValid};
ghost use Rattle.flow_types.specs.Serial.{serial_order};
ghost use Rattle.run_history.specs.declared.moves.Move.{Move};
ghost use Rattle.run_history.specs.Links.{records_of};
ghost use Rattle.task_core.specs.Stands.{Stands};
ghost use Rattle.safe_storage.specs.Counters.{HasPlaces, IsAt, IsStand, numbers_of, told};
ghost use Rattle.safe_storage.specs.Pacing.{IsSized, admits_one_walk};
ghost use Rattle.safe_walks.specs.Safe.{admits_under, safely_admitted};
ghost use Rattle.safe_walks.specs.Walk.{standing};

use crate::counters::Counters;
use crate::counting::rule_of;
use crate::notes::phase;
use crate::passing::{pass_before, pass_rest};
use crate::rough::is_roomy;
use crate::stand::{Phase, Stand};
use flow_types::{Memory, Plan, Rows, RuleNo};
use rule_graph::serial_order;
use run_history::Mode;
use std::alloc::Global;
use std::marker::Model;
use task_core::{Admission, Policy, Table};

/// Admits a rule where a run that goes on alone, one rule after the other in the serial order,
/// stays within the limit with this rule's bound reserved too; and every rule where there is no
/// limit, where nothing is collected, or where such a run doesn't stay within the limit anyway.
///
/// It keeps the serial order, and counters that are set back for each walk. Where the rule isn't
/// claimed and there is a limit, a question costs a look at each rule; where what is stored and the
/// bounds up to this rule aren't within the limit together, it costs a walk: each file, and twice
/// the ports of the rules that aren't complete. It ends at the rule's place where the answer is
/// yes.
#[derive(Drop)]
pub struct SafeAdmission {
    order: Rows<RuleNo>,
    stand: Stand,
    counters: Counters,
}

impl Model for SafeAdmission {
    ghost use Rattle.std.specs.Prelude.{length, map};
    ghost use Rattle.safe_storage.specs.Pacing.{IsSized, Pacing};

    ghost Value = { Pacing };

    ghost view = { λ a. record {
      order = map (λ rule. rule.0) a.order;
      rules = length a.stand.phases.items;
      files = length a.stand.bytes.items;
    } };

    ghost invariant = { λ a. IsSized (length a.stand.phases.items) (length a.stand.bytes.items)
        a.stand a.counters };
}

// What one walk says of a rule that is neither complete nor claimed.
fn walks_within(
    counters: &mut Counters,
    plan: &Plan,
    stand: &Stand,
    order: &[RuleNo],
    rule: RuleNo,
    limit: u64,
) -> bool
    requires valid { IsValid plan.now }
    requires stand { IsStand plan.now stand.now }
    requires inside { rule.0 < length plan.now.rules }
    requires order { numbers_of order.now ≡ serial_order plan.now }
    requires start { IsAt plan.now (told stand.now) (numbers_of order.now) 0 counters.old }
    ensures answer { result ≡ admits_one_walk plan.now (told stand.now) rule.0 limit }
    ensures places { HasPlaces plan.now counters.new }
{
    let reach = pass_before(counters, plan, stand, order, rule, limit);
    if reach.greatest > limit {
        return true;
    }
    if rule_of(plan, rule).bound <= limit - reach.greatest {
        return true;
    }
    pass_rest(counters, plan, stand, order, reach, limit) > limit
}

// Notes how the table stands, and walks.
fn walks(
    table: &Table,
    stand: &mut Stand,
    counters: &mut Counters,
    order: &[RuleNo],
    rule: RuleNo,
    limit: u64,
) -> bool
    requires inside { rule.0 < length table.now.plan.rules }
    requires order { numbers_of order.now ≡ serial_order table.now.plan }
    requires sized { IsSized (length table.now.plan.rules) (length table.now.plan.files)
        stand.old counters.old }
    ensures answer { (moves : List Move) → Stands table.now moves → result
        ≡ admits_one_walk table.now.plan (standing table.now.plan (records_of moves)) rule.0 limit }
    ensures sized { IsSized (length table.now.plan.rules) (length table.now.plan.files)
        stand.new counters.new }
{
    stand.note_rules(table);
    if is_roomy(table, stand, order, rule, limit) {
        return true;
    }
    stand.note_files(table);
    counters.begin(table.plan(), stand);
    walks_within(counters, table.plan(), stand, order, rule, limit)
}

// Whether the rule is admitted under a limit, where files are collected.
fn admits_under(
    table: &Table,
    stand: &mut Stand,
    counters: &mut Counters,
    order: &[RuleNo],
    rule: RuleNo,
    limit: u64,
) -> bool
    requires inside { rule.0 < length table.now.plan.rules }
    requires order { numbers_of order.now ≡ serial_order table.now.plan }
    requires sized { IsSized (length table.now.plan.rules) (length table.now.plan.files)
        stand.old counters.old }
    ensures answer { (moves : List Move) → Stands table.now moves
        → result ≡ admits_under table.now.plan (records_of moves) limit rule.0 }
    ensures sized { IsSized (length table.now.plan.rules) (length table.now.plan.files)
        stand.new counters.new }
{
    match phase(table, rule) {
        Phase::Complete => true,
        Phase::Claimed => true,
        Phase::Open => walks(table, stand, counters, order, rule, limit),
    }
}

// Whether the rule is admitted.
fn admits_by(
    table: &Table,
    stand: &mut Stand,
    counters: &mut Counters,
    order: &[RuleNo],
    rule: RuleNo,
) -> bool
    requires inside { rule.0 < length table.now.plan.rules }
    requires order { numbers_of order.now ≡ serial_order table.now.plan }
    requires sized { IsSized (length table.now.plan.rules) (length table.now.plan.files)
        stand.old counters.old }
    ensures answer { (moves : List Move) → Stands table.now moves → result
        ≡ safely_admitted table.now.plan table.now.options (records_of moves) rule.0 }
    ensures sized { IsSized (length table.now.plan.rules) (length table.now.plan.files)
        stand.new counters.new }
{
    if matches!(table.mode(), Mode::Never) {
        return true;
    }
    match table.limit() {
        Some(limit) => admits_under(table, stand, counters, order, rule, limit),
        None => true,
    }
}

impl Admission for SafeAdmission {
    ghost use Rattle.safe_storage.specs.Pacing.{IsFor};
    ghost use Rattle.safe_walks.specs.Safe.{safely_admitted};
    ghost use Rattle.safe_storage.specs.Keeping.{safe_one_is_admitted};

    ghost admitted = { safely_admitted };

    ghost stands_for = { λ admission plan. IsFor plan admission };

    ghost admits_one = { λ x. safe_one_is_admitted (λ P. IsFor P x) };

    fn admits(&mut self, table: &Table, rule: RuleNo) -> bool {
        admits_by(
            table,
            &mut self.stand,
            &mut self.counters,
            self.order.as_slice(),
            rule,
        )
    }
}

/// Makes a safe admission for a plan.
#[derive(Drop)]
pub struct SafePolicy;

impl Policy for SafePolicy {
    type Made = SafeAdmission;

    fn make(&self, alloc: Global, plan: &Plan) -> Result<SafeAdmission, Memory> {
        let order = serial_order(alloc, plan)?;
        let stand = Stand::blank(alloc, plan)?;
        let counters = Counters::new(alloc, plan)?;
        Ok(SafeAdmission {
            order,
            stand,
            counters,
        })
    }
}
