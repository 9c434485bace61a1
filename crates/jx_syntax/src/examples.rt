//! Worked examples of the grammar, each proved by computing. Nothing calls these functions.
ghost use Rattle.std.specs.Prelude.{◌≡◌, codes, true};
ghost use Rattle.jx_tokens.specs.declared.fault.JxFault.TheVariants.{Unexpected, OpenText};
ghost use Rattle.jx_tokens.specs.declared.fault.JxFault.TheVariants.{FloatUnsupported, IntTooWide};
ghost use Rattle.jx_tokens.specs.declared.fault.JxFault.TheVariants.{TooDeep};
ghost use Rattle.jx_syntax.specs.Grammar as jx;
ghost use Rattle.jx_syntax.specs.Grammar.{IsWritten, IsNoExpression};
ghost use Rattle.jx_syntax.specs.Examples as shown;
ghost use Rattle.jx_syntax.specs.declared.operator.Operator.TheVariants as op;
ghost use Rattle.jx_syntax.specs.declared.operator.Sign.TheVariants as sign;

/// How operators and signs group.
pub fn operators_group()
    ensures to_the_left { IsWritten (codes "9-4-2") (jx.operation 3 op.Subtract
        (jx.operation 1 op.Subtract (shown.digit 0 9) (shown.digit 2 4)) (shown.digit 4 2)) }
    ensures by_strength { IsWritten (codes "9-4*2") (jx.operation 1 op.Subtract
        (shown.digit 0 9) (jx.operation 3 op.Multiply (shown.digit 2 4) (shown.digit 4 2))) }
    ensures by_parentheses { IsWritten (codes "(9-4)*2") (jx.operation 5 op.Multiply (jx.group 0
        (jx.operation 2 op.Subtract (shown.digit 1 9) (shown.digit 3 4)) 4) (shown.digit 6 2)) }
    ensures not_behind_comparison { IsWritten (codes "!1==2") (jx.signed 0 sign.Not
        (jx.operation 2 op.Equal (shown.digit 1 1) (shown.digit 4 2))) }
    ensures minus_before_product { IsWritten (codes "-1*2") (jx.operation 2 op.Multiply
        (jx.signed 0 sign.Minus (shown.digit 1 1)) (shown.digit 3 2)) }
    ensures minus_behind_index { IsWritten (codes "-a[1]") (jx.signed 0 sign.Minus (jx.index
        (jx.name 1 (codes "a")) 2 (shown.digit 3 1) 4)) }
    ensures least { IsWritten (codes "-9223372036854775808") (jx.least 0 1) }
{}

/// How lists, objects, calls, indices and loops are written.
pub fn forms_are_written()
    ensures trailing_comma { IsWritten (codes "[1,]") (jx.list 0 (jx.item jx.no_items (jx.once
        (shown.digit 1 1)) 2) 3) }
    ensures no_trailing_comma { IsWritten (codes "[1]") (jx.list_last 0 jx.no_items (jx.once
        (shown.digit 1 1)) 2) }
    ensures object { IsWritten (codes "{\"k\":1,}") (jx.object 0 (jx.pair jx.no_pairs 1
        (codes "k") 4 (shown.digit 5 1) 6) 7) }
    ensures call { IsWritten (codes "f(1,2)") (jx.call 0 (codes "f") 1
        (jx.argument jx.no_arguments (shown.digit 2 1) 3) (shown.digit 4 2) 5) }
    ensures bare_call { IsWritten (codes "f()") (jx.bare_call 0 (codes "f") 1 2) }
    ensures slice { IsWritten (codes "a[:1]") (jx.slice (jx.name 0 (codes "a")) 1 jx.open_end 2
        (jx.end_at (shown.digit 3 1)) 4) }
    ensures looped { IsWritten (codes "[x for x in y if z]") (jx.list_last 0 jx.no_items
        (jx.each_if (jx.once (jx.name 1 (codes "x"))) 3 7 (codes "x") 9 (jx.name 12
        (codes "y")) 14 (jx.name 17 (codes "z"))) 18) }
{}

/// Texts that can't go on at a token, or can't end.
pub fn texts_that_are_unexpected()
    ensures nothing { IsNoExpression (codes "") (Unexpected 0) }
    ensures two { IsNoExpression (codes "1 2") (Unexpected 2) }
    ensures no_operand { IsNoExpression (codes "1+") (Unexpected 2) }
    ensures chain { IsNoExpression (codes "1<2<3") (Unexpected 3) }
    ensures not_behind_equal { IsNoExpression (codes "1==not 2") (Unexpected 3) }
    ensures comma_ends_call { IsNoExpression (codes "f(1,)") (Unexpected 4) }
    ensures lone_comma { IsNoExpression (codes "[,]") (Unexpected 1) }
    ensures called_group { IsNoExpression (codes "(f)(1)") (Unexpected 3) }
    ensures called_call { IsNoExpression (codes "f(1)(2)") (Unexpected 4) }
    ensures key { IsNoExpression (codes "{k:1}") (Unexpected 1) }
    ensures condition_alone { IsNoExpression (codes "[1 if 2]") (Unexpected 3) }
    ensures loop_in_call { IsNoExpression (codes "f(x for x in y)") (Unexpected 4) }
    ensures open_list { IsNoExpression (codes "[1") (Unexpected 2) }
{}

/// The fault of a token, and which fault comes first.
pub fn texts_with_other_faults()
    ensures wide { IsNoExpression (codes "9223372036854775808") (IntTooWide 0) }
    ensures wide_behind_binary_minus { IsNoExpression (codes "1-9223372036854775808")
        (IntTooWide 2) }
    ensures float { IsNoExpression (codes "[1.5") (FloatUnsupported 1) }
    ensures unexpected_before_float { IsNoExpression (codes "1 2 1.5") (Unexpected 2) }
    ensures open_text { IsNoExpression (codes "1+\"") (OpenText 2) }
    ensures deep { IsNoExpression (shown.brackets 129) (TooDeep 128) }
    ensures not_deep { IsNoExpression (shown.brackets 128) (Unexpected 128) }
    ensures deep_signs { IsNoExpression (shown.minuses 129) (TooDeep 128) }
{}
