//! Who says which of the rules that fit may start.
ghost use Rattle.std.specs.Prelude.{◌≡◌, ◌<◌, ℕ, IfOk, List, length};
ghost use Rattle.flow_types.specs.Plans.{IsValid};
ghost use Rattle.flow_types.specs.declared.plan.Plan.{Plan as PlanValue};
ghost use Rattle.run_history.specs.declared.moves.Move.{Move};
ghost use Rattle.run_history.specs.Admissions.{AdmitsOne, Admitting, Claimable, ClaimsAdmitted};
ghost use Rattle.run_history.specs.Admissions.{EveryClaim, EveryStop};
ghost use Rattle.run_history.specs.Links.{records_of};
ghost use Rattle.task_core.specs.Stands.{Stands};

use crate::table::Table;
use flow_types::{Memory, Plan, RuleNo};
use std::alloc::Global;

/// Says which rules may start. It stands for one plan or for every plan, and answers exactly what
/// its type admits by the plan, the options and the records.
pub trait Admission: Send + Drop {
    /// Which rules are admitted.
    ghost admitted: { Admitting };

    /// For which plans this one stands.
    ghost stands_for: { Self → PlanValue → Type 0 };

    /// Whether a rule is admitted. Conditions: the admission stands for the table's plan, and the
    /// rule is of it.
    fn admits(&mut self, table: &Table, rule: RuleNo) -> bool
        requires stands { stands_for self.old table.now.plan }
        requires rule { rule.0 < length table.now.plan.rules }
        ensures answer { (moves : List Move) → Stands table.now moves
            → result ≡ admitted table.now.plan table.now.options (records_of moves) rule.0 }
        ensures stays { (P : PlanValue) → stands_for self.old P → stands_for self.new P };

    /// Where no rule runs or has failed, no file is wanted and some ready rule fits the storage, one
    /// that does is admitted.
    ghost admits_one: { (x : Self) → AdmitsOne admitted (stands_for x) };
}

/// Makes an admission for a plan.
pub trait Policy: Send + Sync + Drop {
    /// What it makes.
    type Made: Admission;

    /// The admission for this plan. Condition: the plan is valid.
    fn make(&self, alloc: Global, plan: &Plan) -> Result<Self::Made, Memory>
        requires { IsValid plan.now }
        ensures { IfOk result (λ made. Self.Made.stands_for made plan.now) };
}

/// Admits every rule.
#[derive(Drop)]
pub struct AdmitAll;

impl Admission for AdmitAll {
    ghost use Rattle.run_history.specs.Admissions.{all_admitted};

    ghost admitted = { all_admitted };

    ghost stands_for = { λ admission plan. Unit {0} };

    ghost admits_one = { λ x P O digest H stands valid legal idle lost unwanted some. some };

    fn admits(&mut self, table: &Table, rule: RuleNo) -> bool {
        true
    }
}

/// Admits every rule of every plan.
#[derive(Drop)]
pub struct EveryRule;

impl Policy for EveryRule {
    type Made = AdmitAll;

    fn make(&self, alloc: Global, plan: &Plan) -> Result<AdmitAll, Memory> {
        Ok(AdmitAll)
    }
}

/// Where every rule is admitted, a claim answers as without an admission.
pub fn every_claim()
    ensures { EveryClaim }
{}

/// Where every rule is admitted, a stop is set as without an admission.
pub fn every_stop()
    ensures { EveryStop }
{}

/// A rule that is claimed is admitted.
pub fn claims_admitted()
    ensures { ClaimsAdmitted }
{}

/// A rule that is claimed is one that a claim may take there.
pub fn claims_claimable()
    ensures { Claimable }
{}
