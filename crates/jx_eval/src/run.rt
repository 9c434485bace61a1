//! The evaluator.
ghost use Rattle.std.specs.Prelude.{◌≡◌, ◌<◌, ◌≤◌, ◌+◌, List, ℕ, length, vec_len, IfOk};
ghost use Rattle.jx_syntax.specs.Tree.{Tree, node_at, expression_of};
ghost use Rattle.jx_meaning.specs.Answers.{Gives};
ghost use Rattle.jx_meaning.specs.Values.{plain};
ghost use Rattle.jx_meaning.specs.Scopes.{names_of};
ghost use Rattle.jx_meaning.specs.Meaning.{evaluate, value_of};
ghost use Rattle.jx_eval.specs.Machine.{Keeps, weight, handed, trees};

use crate::frame::Frame;
use crate::operand::Operand;
use crate::state::{State, Step};
use jx_meaning::{EvalFault, JxScope};
use jx_syntax::{Expr, JxValue};
use jx_values::{Texts, indexed, signed};
use std::alloc::Global;

impl<'a> State<'a> {
    /// Hands a value to the frame that waited for it.
    fn hand(
        &mut self,
        scope: &'a JxScope,
        frame: Frame<'a>,
        operand: Operand<'a>,
    ) -> Result<Step<'a>, EvalFault>
        ensures kept { (ts : List Tree) → Keeps ts (names_of scope.now) self.new result
            (handed ts (names_of scope.now) self.old frame.entry operand.entry) }
        ensures count { self.new.count ≡ self.old.count }
        ensures room { IfOk result (λ next. vec_len self.new.frames + weight next
            ≤ vec_len self.old.frames + 1) }
    {
        match frame {
            Frame::Left(o, place, right) => self.left(o, place, right, operand),
            Frame::Right(o, place, left) => self.right(o, place, left, operand),
            Frame::Truth(place) => self.truth(place, operand),
            Frame::Indexed(place, index) => self.wait(Frame::Index(place, operand), index),
            Frame::Index(place, of) => {
                self.answer(indexed(self.alloc, self.texts, place, of.value(), operand.value()))
            }
            Frame::Sliced(place, start, stop) => self.slice_start(place, operand, start, stop),
            Frame::Start(place, of, stop) => self.slice_stop(place, of, Some(operand), stop),
            Frame::Stop(place, of, start) => self.slice(place, of, start, Some(operand)),
            Frame::Signed(place, sign) => self.answer(signed(place, sign, operand.value())),
            Frame::Argument(call) => self.argument(scope, call, operand),
            Frame::Field(object) => self.field(object, operand),
            Frame::Over(making, of, inner) => self.over(making, of, inner, operand),
            Frame::Test(making, place, inner) => self.tested(making, place, inner, operand),
            Frame::Body(making) => self.result(making, operand),
        }
    }
}

/// The value of a node of an expression and the number of nodes begun by then, of which so many
/// were begun before, or the first fault. A node too many is a fault: no more than 10,000,000 are
/// begun. Room for the texts that it makes is taken of `texts`.
///
/// It walks once, by a stack on the heap, so a long or deep expression takes no call depth. A value
/// of the scope isn't copied to be looked at.
pub fn eval_counted(
    alloc: Global,
    expr: &Expr,
    node: usize,
    scope: &JxScope,
    begun: u32,
    texts: &Texts,
) -> Result<(JxValue, u32), EvalFault>
    requires { node < length expr.now }
    ensures { Gives (λ r. (plain r.0, r.1)) result
        (evaluate (node_at (trees expr.now) node) (names_of scope.now) begun) }
{
    let nodes = expr.nodes();
    let mut state = State {
        alloc,
        texts,
        frames: Vec::new(alloc),
        local: Vec::new(alloc),
        count: begun,
    };
    let mut step = Step::Begin(node);
    'steps: loop {
        step = match step {
            Step::Begin(index) => state.begin(nodes, scope, index)?,
            Step::Value(operand) => match state.frames.pop() {
                Some(frame) => state.hand(scope, frame, operand)?,
                None => {
                    let value = operand.into_value(alloc, texts)?;
                    return Ok((value, state.count));
                }
            },
        };
    }
}

/// The value of an expression, or its first fault, with the byte of the node where it shows. Where
/// its texts pass 2 GiB as they are made, memory is wanting.
pub fn eval(alloc: Global, expr: &Expr, scope: &JxScope) -> Result<JxValue, EvalFault>
    ensures { Gives plain result (value_of (names_of scope.now) (expression_of expr.now)) }
{
    let texts = Texts::new();
    let whole = expr.nodes().len() - 1;
    let (value, _count) = eval_counted(alloc, expr, whole, scope, 0, &texts)?;
    Ok(value)
}
