//! An admission that refuses.
ghost use Rattle.std.specs.Prelude.{◌≡◌, ◌<◌, List, length};
ghost use Rattle.run_history.specs.declared.moves.Move.{Move};
ghost use Rattle.run_history.specs.Links.{records_of};
ghost use Rattle.task_core.specs.Stands.{Stands};
ghost use Rattle.desk_bench.specs.OneByOne.{is_one_by_one};

use flow_types::RuleNo;
use task_core::{Admission, Table};

/// Admits a rule where no attempt runs and rule 0 hasn't failed.
#[derive(Drop)]
pub struct OneByOne;

fn is_admitted(table: &Table, rule: RuleNo) -> bool
    requires { rule.0 < length table.now.plan.rules }
    ensures { (moves : List Move) → Stands table.now moves
        → result ≡ is_one_by_one table.now.plan table.now.options (records_of moves) rule.0 }
{
    if !table.is_idle() {
        return false;
    }
    !table.has_failed(RuleNo(0))
}

impl Admission for OneByOne {
    ghost use Rattle.desk_bench.specs.OneByOne.{is_one_by_one, one_is_admitted};

    ghost admitted = { is_one_by_one };

    ghost stands_for = { λ admission plan. Unit {0} };

    ghost admits_one = { λ x. one_is_admitted };

    fn admits(&mut self, table: &Table, rule: RuleNo) -> bool {
        is_admitted(table, rule)
    }
}
