//! Worked examples of what bytes spell a log, each proved by computing. Nothing calls these
//! functions.
ghost use Rattle.std.specs.Prelude.{◌≡◌, ◌++◌, ◌∷◌, [], length, take};
ghost use Rattle.std.specs.Prelude.{drop, replicate, get_or, Some, None};
ghost use Rattle.txn_log.specs.Gates.{open_gate, closed_gate};
ghost use Rattle.txn_log.specs.Spells.{entries, front_of, header, Spells, IsUnbegun};
ghost use Rattle.txn_log.specs.Examples.{one_rule_run, one_lost};

/// A run of one rule takes four records. With its closed gate the log has 227 bytes, and the gates
/// stand where they are said to. A log that is short or absent has no records.
pub fn example_log_is_spelled()
    ensures size { length (front_of one_rule_run ++ closed_gate ∷ []) ≡ 227 }
    ensures first_gate { length header ≡ 8 }
    ensures second_gate { length (front_of (take 1 one_rule_run)) ≡ 111 }
    ensures third_gate { length (front_of (take 2 one_rule_run)) ≡ 141 }
    ensures fourth_gate { length (front_of (take 3 one_rule_run)) ≡ 211 }
    ensures closed { length (front_of one_rule_run) ≡ 226 }
    ensures lost { entries one_lost ≡ 1 ∷ 0 ∷ 0 ∷ 0 ∷ 21
        ∷ 6 ∷ (replicate 7 0 ++ 7 ∷ 0 ∷ 0 ∷ 0 ∷ 2 ∷ (replicate 7 0 ++ 5 ∷ [])) }
    ensures absent { Spells [] None }
    ensures spells { Spells one_lost (Some (header ++ entries one_lost ++ 9 ∷ 1 ∷ [])) }
{}
