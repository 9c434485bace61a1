//! Worked examples of the definitions, each proved by computing. Nothing calls these functions.
ghost use Rattle.std.specs.Prelude.{◌≡◌, true, false, [], ◌∷◌, codes, ◌++◌, replicate, Some, None};
ghost use Rattle.flow_types.specs.Examples.{two_rules, chain, joins_inputs, sources_of_two_rules};
ghost use Rattle.flow_types.specs.Names.{name_of, are_nested};
ghost use Rattle.flow_types.specs.Plans.{IsValid};
ghost use Rattle.flow_types.specs.Serial.{serial, serial_order};

/// Empty parts and dots are dropped from a name.
pub fn texts_that_give_names()
    ensures short { name_of (codes "./b//c") ≡ Some (codes "b/c") }
    ensures folder { name_of (codes "b/./c/") ≡ Some (codes "b/c") }
    ensures dots { name_of (codes "..b/c..") ≡ Some (codes "..b/c..") }
    ensures accent { name_of (195 ∷ 169 ∷ []) ≡ Some (195 ∷ 169 ∷ []) }
    ensures full { name_of (codes "./" ++ replicate 1024 97) ≡ Some (replicate 1024 97) }
{}

/// Texts that are no names.
pub fn texts_that_give_no_name()
    ensures empty { name_of [] ≡ None }
    ensures nothing_kept { name_of (codes ".//.") ≡ None }
    ensures absolute { name_of (codes "/etc/passwd") ≡ None }
    ensures parent { name_of (codes "..") ≡ None }
    ensures parent_inside { name_of (codes "a/../b") ≡ None }
    ensures zero { name_of (97 ∷ 0 ∷ 98 ∷ []) ≡ None }
    ensures half_a_character { name_of (97 ∷ 195 ∷ []) ≡ None }
    ensures long { name_of (replicate 1025 97) ≡ None }
{}

/// A name is nested in another only at a slash.
pub fn names_that_are_nested()
    ensures inside { are_nested (codes "a") (codes "a/b") ≡ true }
    ensures outside { are_nested (codes "a/b/c") (codes "a/b") ≡ true }
    ensures same { are_nested (codes "a/b") (codes "a/b") ≡ false }
    ensures beside { are_nested (codes "a") (codes "ab") ≡ false }
{}

/// The plans of the examples are valid.
pub fn example_plans_are_valid()
    ensures two_rules { IsValid two_rules }
    ensures chain { IsValid chain }
{}

/// Rule 1 runs before rule 0, which takes in what rule 1 makes.
pub fn later_rule_runs_first()
    ensures { serial_order two_rules ≡ 1 ∷ 0 ∷ [] }
{}

/// Where each command writes its inputs one after the other, a source's content comes through both
/// rules.
pub fn serial_run_of_two_rules()
    ensures source { serial two_rules joins_inputs sources_of_two_rules 0 ≡ Some (codes "abc") }
    ensures first { serial two_rules joins_inputs sources_of_two_rules 1 ≡ Some (codes "abc") }
    ensures second { serial two_rules joins_inputs sources_of_two_rules 2 ≡ Some (codes "abc") }
    ensures beyond { serial two_rules joins_inputs sources_of_two_rules 3 ≡ None }
{}
