//! Worked examples of the meaning, each proved by computing. Nothing calls these functions.
ghost use Rattle.std.specs.Prelude.{◌≡◌, codes, true, false, [], ◌∷◌, Ok, Err, pos, negsuc};
ghost use Rattle.jx_meaning.specs.declared.fault.EvalFault.TheVariants.{Overflow, ZeroDivisor};
ghost use Rattle.jx_meaning.specs.declared.fault.EvalFault.TheVariants.{WrongKind, IndexRange};
ghost use Rattle.jx_meaning.specs.declared.fault.EvalFault.TheVariants.{NoSuchKey, UnknownName};
ghost use Rattle.jx_meaning.specs.declared.fault.EvalFault.TheVariants.{BadMark, ArgCount, TooMuch};
ghost use Rattle.jx_syntax.specs.declared.operator.Operator.TheVariants as op;
ghost use Rattle.jx_syntax.specs.declared.operator.Sign.TheVariants as sign;
ghost use Rattle.jx_syntax.specs.Tree as tree;
ghost use Rattle.jx_meaning.specs.Values as of;
ghost use Rattle.jx_meaning.specs.Meaning.{value_of, evaluate};
ghost use Rattle.jx_meaning.specs.Examples.{digit, minus, once, four, x, squared, accented};
ghost use Rattle.jx_meaning.specs.Examples.{letters, fields, fields_at, called, nested};
ghost use Rattle.jx_meaning.specs.Examples.{number_list, object_of};

/// `7 / -2`, `-7 % 2`, `1 % 0`, `9223372036854775807 + 1`, and the least number by -1.
pub fn numbers_are_worked_out()
    ensures truncates { value_of [] (tree.operation 2 op.Divide (digit 0 7) (minus 4 2))
        ≡ Ok (of.number (negsuc 2)) }
    ensures sign_of_dividend { value_of [] (tree.operation 3 op.Remainder (minus 0 7) (digit 5 2))
        ≡ Ok (of.number (negsuc 0)) }
    ensures by_zero { value_of [] (tree.operation 2 op.Remainder (digit 0 1) (digit 4 0))
        ≡ Err (ZeroDivisor 2) }
    ensures above { value_of [] (tree.operation 20 op.Add (digit 0 9223372036854775807)
        (digit 22 1)) ≡ Err (Overflow 20) }
    ensures least_divided { value_of [] (tree.operation 21 op.Divide
        (tree.number 0 (negsuc 9223372036854775807)) (minus 23 1)) ≡ Err (Overflow 21) }
    ensures least_remainder { value_of [] (tree.operation 21 op.Remainder
        (tree.number 0 (negsuc 9223372036854775807)) (minus 23 1)) ≡ Ok (of.number (pos 0)) }
{}

/// `true or 1/0`, `1 or true`, `false and 1/0`, `1 < "a"`, `"b" > "ab"`, `not 1`, and an object
/// compared with one whose keys stand in another order.
pub fn operators_are_worked_out()
    ensures or_decides { value_of [] (tree.operation 5 op.Or (tree.truth 0 true)
        (tree.operation 9 op.Divide (digit 8 1) (digit 10 0))) ≡ Ok (of.truth true) }
    ensures or_goes_on { value_of [] (tree.operation 6 op.Or (tree.truth 0 false)
        (tree.operation 10 op.Divide (digit 9 1) (digit 11 0))) ≡ Err (ZeroDivisor 10) }
    ensures or_of_number { value_of [] (tree.operation 2 op.Or (digit 0 1) (tree.truth 5 true))
        ≡ Err (WrongKind 2) }
    ensures and_decides { value_of [] (tree.operation 6 op.And (tree.truth 0 false)
        (tree.operation 11 op.Divide (digit 10 1) (digit 12 0))) ≡ Ok (of.truth false) }
    ensures mixed { value_of [] (tree.operation 2 op.Less (digit 0 1)
        (tree.text 4 (codes "a"))) ≡ Err (WrongKind 2) }
    ensures by_bytes { value_of [] (tree.operation 4 op.More (tree.text 0 (codes "b"))
        (tree.text 6 (codes "ab"))) ≡ Ok (of.truth true) }
    ensures not_number { value_of [] (tree.signed 0 sign.Not (digit 4 1)) ≡ Err (WrongKind 0) }
    ensures any_order { value_of [] (tree.operation 13 op.Equal
        (fields_at 0 (fields (codes "a") 1 (codes "b") 2)) (fields_at 15 (fields (codes "b") 2
        (codes "a") 1))) ≡ Ok (of.truth true) }
{}

/// `[1,2,3,4][1:-1]`, `[1,2,3,4][3:1]`, `[1,2,3,4][-1]`, `[1,2,3,4][4]`, `{"a":1,"b":2}["c"]`, and
/// the parts of a text of the letter e with an accent and an exclamation mark.
pub fn parts_are_taken()
    ensures sliced { value_of [] (tree.slice 9 four (tree.end (digit 10 1)) (tree.end (minus 12 1)))
        ≡ Ok (number_list (2 ∷ 3 ∷ [])) }
    ensures reversed { value_of [] (tree.slice 9 four (tree.end (digit 10 3))
        (tree.end (digit 12 1))) ≡ Ok (number_list []) }
    ensures far { value_of [] (tree.slice 9 four (tree.end (minus 10 9)) (tree.end (digit 13 9)))
        ≡ Ok (number_list (1 ∷ 2 ∷ 3 ∷ 4 ∷ [])) }
    ensures from_the_end { value_of [] (tree.index 9 four (minus 10 1)) ≡ Ok (of.number (pos 4)) }
    ensures past { value_of [] (tree.index 9 four (digit 10 4)) ≡ Err (IndexRange 9) }
    ensures before { value_of [] (tree.index 9 four (minus 10 5)) ≡ Err (IndexRange 9) }
    ensures no_key { value_of [] (tree.index 13 (fields_at 0 (fields (codes "a") 1 (codes "b") 2))
        (tree.text 14 (codes "c"))) ≡ Err (NoSuchKey 13) }
    ensures key { value_of [] (tree.index 13 (fields_at 0 (fields (codes "a") 1 (codes "b") 2))
        (tree.text 14 (codes "b"))) ≡ Ok (of.number (pos 2)) }
    ensures character { value_of [] (tree.index 5 accented (digit 6 0))
        ≡ Ok (of.text (195 ∷ 169 ∷ [])) }
    ensures characters { value_of [] (tree.slice 5 accented (tree.end (digit 6 1)) tree.no_end)
        ≡ Ok (of.text (codes "!")) }
{}

/// `[x * x for x in [1,2,3,4] if x != 2]`, a loop whose list is none, and `{"a":1,"b":2,"a":3}`.
pub fn lists_and_objects_are_made()
    ensures looped { value_of [] (tree.list 0 (tree.entry squared (tree.loop 7 (codes "x") four
        (tree.test 28 (tree.operation 33 op.Unequal x (digit 36 2))) tree.no_loops)
        tree.no_entries)) ≡ Ok (number_list (1 ∷ 9 ∷ 16 ∷ [])) }
    ensures over_number { value_of [] (tree.list 0 (tree.entry x (tree.loop 3 (codes "x")
        (digit 12 1) tree.no_test tree.no_loops) tree.no_entries)) ≡ Err (WrongKind 3) }
    ensures no_name { value_of [] (tree.name 0 (codes "x")) ≡ Err (UnknownName 0) }
    ensures key_again { value_of [] (fields_at 0 (tree.field (codes "a") (digit 5 1) (fields
        (codes "b") 2 (codes "a") 3))) ≡ Ok (object_of (codes "a") 3 (codes "b") 2) }
{}

/// Calls of `range`, `join`, `len` and of a function that there isn't.
pub fn functions_are_worked_out()
    ensures counted { called (codes "range") (digit 6 3 ∷ []) ≡ Ok (number_list (0 ∷ 1 ∷ 2 ∷ [])) }
    ensures down { called (codes "range") (digit 6 5 ∷ digit 8 0 ∷ minus 10 2 ∷ [])
        ≡ Ok (number_list (5 ∷ 3 ∷ 1 ∷ [])) }
    ensures no_step { called (codes "range") (digit 6 1 ∷ digit 8 5 ∷ digit 10 0 ∷ [])
        ≡ Err (ZeroDivisor 0) }
    ensures too_long { called (codes "range") (digit 6 1000001 ∷ []) ≡ Err (TooMuch 0) }
    ensures joined { called (codes "join") (tree.list 5 (once letters) ∷ [])
        ≡ Ok (of.text (codes "a b")) }
    ensures separated { called (codes "join") (tree.list 5 (once letters) ∷ tree.text 15 (codes "-")
        ∷ []) ≡ Ok (of.text (codes "a-b")) }
    ensures measured { called (codes "len") (accented ∷ []) ≡ Ok (of.number (pos 2)) }
    ensures of_number { called (codes "len") (digit 4 1 ∷ []) ≡ Err (WrongKind 0) }
    ensures unknown { called (codes "size") [] ≡ Err (UnknownName 0) }
    ensures too_many { called (codes "len") (four ∷ four ∷ []) ≡ Err (ArgCount 0) }
{}

/// Calls of `format` and `template`.
pub fn texts_are_filled_in()
    ensures marks { called (codes "format") (tree.text 7 (codes "%d%%%s") ∷ digit 17 7 ∷ four ∷ [])
        ≡ Ok (of.text (codes "7%[1,2,3,4]")) }
    ensures bad_mark { called (codes "format") (tree.text 7 (codes "%x") ∷ digit 13 1 ∷ [])
        ≡ Err (BadMark 0) }
    ensures lone_mark { called (codes "format") (tree.text 7 (codes "1%") ∷ []) ≡ Err (BadMark 0) }
    ensures too_few { called (codes "format") (tree.text 7 (codes "%s") ∷ []) ≡ Err (ArgCount 0) }
    ensures spare { called (codes "format") (tree.text 7 (codes "a") ∷ digit 12 1 ∷ [])
        ≡ Err (ArgCount 0) }
    ensures no_number { called (codes "format") (tree.text 7 (codes "%i") ∷ four ∷ [])
        ≡ Err (WrongKind 0) }
    ensures filled { called (codes "template") (tree.text 9 (codes "{{{a}}}-{b}")
        ∷ fields_at 24 (fields (codes "a") 1 (codes "b") 2) ∷ []) ≡ Ok (of.text (codes "{1}-2")) }
    ensures no_mate { called (codes "template") (tree.text 9 (codes "a}") ∷ []) ≡ Err (BadMark 0) }
    ensures open_brace { called (codes "template") (tree.text 9 (codes "{a") ∷ [])
        ≡ Err (BadMark 0) }
    ensures unnamed { called (codes "template") (tree.text 9 (codes "{a}") ∷ [])
        ≡ Err (UnknownName 0) }
{}

/// The last node that may be begun, and values that may not be built.
pub fn limits_are_kept()
    ensures last_node { evaluate (digit 3 1) [] 9999999 ≡ Ok (of.number (pos 1), 10000000) }
    ensures one_node_more { evaluate (digit 3 1) [] 10000000 ≡ Err (TooMuch 3) }
    ensures node_of_operand { evaluate (minus 3 1) [] 9999999 ≡ Err (TooMuch 4) }
    ensures deep { value_of ((codes "x", nested 127) ∷ []) (tree.list 4 (once (x ∷ [])))
        ≡ Ok (nested 128) }
    ensures too_deep { value_of ((codes "x", nested 128) ∷ []) (tree.list 4 (once (x ∷ [])))
        ≡ Err (TooMuch 4) }
{}
