//! The steps of reading behind an expression.
ghost use Rattle.std.specs.Prelude.{◌≡◌, ◌<◌, ℕ, List, vec_len, IfOk, IfErr, IfSome};
ghost use Rattle.jx_tokens.specs.declared.fault.JxFault.TheVariants.{Memory};
ghost use Rattle.jx_tokens.specs.declared.token.Kind.TheVariants as kinds;
ghost use Rattle.jx_syntax.specs.Grammar.{Derivation};
ghost use Rattle.jx_syntax.specs.Reading.{Frame, depth, reduce, moved, tried, operates, ends, had};
ghost use Rattle.jx_syntax.specs.Tree.{tree_of};
ghost use Rattle.jx_syntax.specs.Shown.{IsShown, IsLast, IsApplied, IsReduced, IsNoName, Steps};

use crate::levels::{left_level, level_of, sign_level};
use crate::node::Form;
use crate::operator::Operator;
use crate::pending::{Pending, Reader, Wanted};
use crate::reader::blamed;
use jx_tokens::{JxFault, Kind};

impl Reader {
    /// Gives what waits on top its operand, where that is an operator or a sign that binds at
    /// least so tightly.
    fn applied(&mut self, level: usize, operand: usize) -> Result<Option<usize>, JxFault>
        ensures memory { IfErr result (λ e. e ≡ Memory) }
        ensures shorter { IfOk result (λ r. IfSome r
            (λ i. vec_len self.new.stack < vec_len self.old.stack)) }
        ensures shown { IfOk result (λ r. (fs : List Frame) (x : Derivation)
            → IsShown self.old fs → self.old.depth ≡ depth fs
            → IsLast self.old.nodes.items operand (tree_of x)
            → IsApplied self.new r operand level fs x) }
    {
        let Some(top) = self.stack.pop() else {
            return Ok(None);
        };
        match top {
            Pending::Left(place, operator, left) => {
                if level_of(operator) < level {
                    self.stack.push(Pending::Left(place, operator, left))?;
                    return Ok(None);
                }
                let applied = self.put(place, Form::Operation(operator, left, operand))?;
                Ok(Some(applied))
            }
            Pending::Before(place, sign) => {
                if sign_level(sign) < level {
                    self.stack.push(Pending::Before(place, sign))?;
                    return Ok(None);
                }
                self.depth = self.depth.saturating_sub(1);
                let applied = self.put(place, Form::Signed(sign, operand))?;
                Ok(Some(applied))
            }
            other => {
                self.stack.push(other)?;
                Ok(None)
            }
        }
    }

    /// Gives the operators and signs that bind at least so tightly their operand, which is this
    /// node first.
    pub fn reduced(&mut self, level: usize, operand: usize) -> Result<usize, JxFault>
        ensures memory { IfErr result (λ e. e ≡ Memory) }
        ensures shown { IfOk result (λ i. (fs : List Frame) (x : Derivation)
            → IsShown self.old fs → self.old.depth ≡ depth fs
            → IsLast self.old.nodes.items operand (tree_of x)
            → IsReduced self.new i (reduce level fs x)) }
    {
        let mut operand = operand;
        while let Some(applied) = self.applied(level, operand)? {
            operand = applied;
        }
        Ok(operand)
    }

    /// An operator.
    fn operate(
        &mut self,
        operand: usize,
        place: usize,
        operator: Operator,
    ) -> Result<Wanted, JxFault>
        ensures shown { (fs : List Frame) (x : Derivation) → IsShown self.old fs
            → self.old.depth ≡ depth fs
            → IsLast self.old.nodes.items operand (tree_of x)
            → Steps self.new result (tried 128 (depth fs) place (operates fs x place operator)) }
    {
        let left = self.reduced(left_level(operator), operand)?;
        if self.level() <= level_of(operator) {
            self.resume(Pending::Left(place, operator, left))
        } else {
            Err(JxFault::Unexpected(place))
        }
    }

    /// What ends or goes on with an expression that something waits for.
    fn end(&mut self, operand: usize, place: usize, kind: Kind) -> Result<Wanted, JxFault>
        ensures shown { (fs : List Frame) (x : Derivation) (n : ℕ) → IsShown self.old fs
            → self.old.depth ≡ depth fs
            → IsLast self.old.nodes.items operand (tree_of x)
            → Steps self.new result (moved 128 n place kind (ends place kind (fs, x))) }
    {
        match kind {
            Kind::CloseGroup => self.end_group(operand, place),
            Kind::CloseList => self.end_list(operand, place),
            Kind::CloseObject => self.end_object(operand, place),
            Kind::Comma => self.go_on(operand, place),
            Kind::Colon => self.slice(operand, place),
            Kind::For => self.begin_loop(operand, place),
            Kind::If => self.select(operand, place),
            other => Err(blamed(place, &other)),
        }
    }

    /// A token behind an expression.
    pub fn behind(&mut self, operand: usize, place: usize, kind: Kind) -> Result<Wanted, JxFault>
        ensures shown { (fs : List Frame) (x : Derivation) → IsShown self.old fs
            → self.old.depth ≡ depth fs
            → IsLast self.old.nodes.items operand (tree_of x)
            → (kind ≡ kinds.OpenGroup → IsNoName x)
            → Steps self.new result (moved 128 (depth fs) place kind (had fs x place kind)) }
    {
        match kind {
            Kind::Or => self.operate(operand, place, Operator::Or),
            Kind::And => self.operate(operand, place, Operator::And),
            Kind::Equal => self.operate(operand, place, Operator::Equal),
            Kind::Unequal => self.operate(operand, place, Operator::Unequal),
            Kind::Less => self.operate(operand, place, Operator::Less),
            Kind::AtMost => self.operate(operand, place, Operator::AtMost),
            Kind::More => self.operate(operand, place, Operator::More),
            Kind::AtLeast => self.operate(operand, place, Operator::AtLeast),
            Kind::Plus => self.operate(operand, place, Operator::Add),
            Kind::Minus => self.operate(operand, place, Operator::Subtract),
            Kind::Times => self.operate(operand, place, Operator::Multiply),
            Kind::Over => self.operate(operand, place, Operator::Divide),
            Kind::Rest => self.operate(operand, place, Operator::Remainder),
            Kind::OpenList => self.open(place, Pending::Indexed(operand, place)),
            other => {
                let whole = self.reduced(1, operand)?;
                self.end(whole, place, other)
            }
        }
    }
}
