//! Worked examples of the definitions, each proved by computing. Nothing calls these functions.
ghost use Rattle.std.specs.Prelude.{◌≡◌, [], ◌∷◌, codes, Ok, Err};
ghost use Rattle.flow_types.specs.Examples.{two_rules};
ghost use Rattle.rule_graph.specs.declared.faults.GraphFault.TheVariants as faults;
ghost use Rattle.rule_graph.specs.Spelling.{plan_bytes};
ghost use Rattle.rule_graph.specs.Flows.{rule_no};
ghost use Rattle.rule_graph.specs.Faults.{plan_of};
ghost use Rattle.rule_graph.specs.Examples.{raw, renamed, raw_rule, made_of, flow_of, one_copy};
ghost use Rattle.rule_graph.specs.Examples.{one_copy_bytes, takes_from_a_folder};

/// The bytes of a plan of one copy.
pub fn bytes_of_one_copy()
    ensures { plan_bytes one_copy ≡ one_copy_bytes }
{}

/// Files are numbered by their names, made files that nothing takes in are kept, and names have
/// their one form.
pub fn plans_of_small_flows()
    ensures two_rules { plan_of (flow_of (made_of "c" "b" "cp b c" ∷ made_of "b" "a" "cp a b" ∷ []))
        ≡ Ok two_rules }
    ensures one_copy { plan_of (flow_of (made_of "out" "in" "cat in > out" ∷ [])) ≡ Ok one_copy }
    ensures folder { plan_of (flow_of (made_of "a" "./b//c" "cat b/c > a" ∷ []))
        ≡ Ok takes_from_a_folder }
{}

/// The faults of small flows.
pub fn faults_of_small_flows()
    ensures two_makers { plan_of (flow_of (made_of "x" "a" "" ∷ made_of "x" "b" "" ∷ []))
        ≡ Err (faults.TwoMakers (codes "x") (rule_no 0) (rule_no 1)) }
    ensures cycle { plan_of (flow_of (made_of "a" "b" "" ∷ made_of "b" "a" "" ∷ []))
        ≡ Err (faults.Cycle (rule_no 0 ∷ rule_no 1 ∷ [])) }
    ensures least_first { plan_of (flow_of (made_of "p" "x" "" ∷ made_of "y" "x" ""
        ∷ made_of "x" "y" "" ∷ [])) ≡ Err (faults.Cycle (rule_no 1 ∷ rule_no 2 ∷ [])) }
    ensures own_input { plan_of (flow_of (raw_rule (renamed "a" "x" ∷ []) (raw "a" ∷ []) "" ∷ []))
        ≡ Err (faults.Cycle (rule_no 0 ∷ [])) }
    ensures same_name { plan_of (flow_of (made_of "a" "a" "" ∷ []))
        ≡ Err (faults.SameName (rule_no 0) (codes "a")) }
    ensures bad_name { plan_of (flow_of (made_of "a" "/etc/passwd" "" ∷ []))
        ≡ Err (faults.BadName (rule_no 0) (codes "/etc/passwd")) }
    ensures nested { plan_of (flow_of (made_of "a" "s" "" ∷ made_of "a/b" "s" "" ∷ []))
        ≡ Err (faults.NestedName (codes "a") (codes "a/b")) }
{}
