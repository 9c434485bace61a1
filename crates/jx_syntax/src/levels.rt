//! How tightly operators bind.
ghost use Rattle.std.specs.Prelude.{◌≡◌, ◌<◌, IfOk};
ghost use Rattle.jx_syntax.specs.Grammar.{binds, binds_left, sign_binds};

use crate::operator::{Operator, Sign};

/// How tightly an operator binds.
pub fn level_of(operator: Operator) -> usize
    ensures { result ≡ binds operator }
{
    match operator {
        Operator::Or => 1,
        Operator::And => 2,
        Operator::Equal | Operator::Unequal => 4,
        Operator::Less | Operator::AtMost | Operator::More | Operator::AtLeast => 4,
        Operator::Add | Operator::Subtract => 5,
        Operator::Multiply | Operator::Divide | Operator::Remainder => 6,
    }
}

/// How tightly its left operand binds at least.
pub fn left_level(operator: Operator) -> usize
    ensures { result ≡ binds_left operator }
{
    match operator {
        Operator::Or => 1,
        Operator::And => 2,
        Operator::Equal | Operator::Unequal => 5,
        Operator::Less | Operator::AtMost | Operator::More | Operator::AtLeast => 5,
        Operator::Add | Operator::Subtract => 5,
        Operator::Multiply | Operator::Divide | Operator::Remainder => 6,
    }
}

/// How tightly a sign and its operand bind.
pub fn sign_level(sign: Sign) -> usize
    ensures { result ≡ sign_binds sign }
{
    match sign {
        Sign::Minus | Sign::Plus => 7,
        Sign::Not => 3,
    }
}
