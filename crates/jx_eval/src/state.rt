//! The state of the evaluator.
ghost use Rattle.std.specs.Prelude.{◌≡◌, ◌<◌, ◌≤◌, ◌+◌, ◌∷◌, [], List, ℕ, Result, vec_len};
ghost use Rattle.std.specs.Prelude.{map, reverse, option_map, option_copied};
ghost use Rattle.std.specs.Prelude.{IfOk, IfErr, MatchResult};
ghost use Rattle.jx_syntax.specs.Tree.{Tree};
ghost use Rattle.jx_meaning.specs.Answers.{Gives};
ghost use Rattle.jx_meaning.specs.Numbers.{Answer};
ghost use Rattle.jx_meaning.specs.Operations.{or_other};
ghost use Rattle.jx_meaning.specs.Values.{Value, plain, find};
ghost use Rattle.jx_meaning.specs.Meaning.{Scope, with_count};
ghost use Rattle.jx_meaning.specs.Scopes.{names_of};
ghost use Rattle.jx_eval.specs.Operands.{seen_value};
ghost use Rattle.jx_eval.specs.Machine.{Keeps, waits, whole, weight, bound_on};

use crate::frame::{Bound, Frame};
use crate::operand::{Operand, Seen};
use flow_types::Memory;
use jx_meaning::{EvalFault, JxScope};
use jx_syntax::JxValue;
use jx_values::Texts;
use std::alloc::Global;

/// The most nodes of one evaluation.
const MOST_NODES: u32 = 10_000_000;

/// What the evaluator does next.
#[derive(Drop)]
pub(crate) enum Step<'a> {
    /// It begins the node of this number.
    Begin(usize),
    /// It hands a value to the innermost frame.
    Value(Operand<'a>),
}

/// The state of the evaluator between two steps.
#[derive(Drop)]
pub(crate) struct State<'a> {
    pub(crate) alloc: Global,
    /// The room for the texts that are made.
    pub(crate) texts: &'a Texts,
    /// What waits for operands, the innermost last.
    pub(crate) frames: Vec<Frame<'a>>,
    /// The names that loops bind, the outermost first.
    pub(crate) local: Vec<Bound<'a>>,
    /// How many nodes were begun.
    pub(crate) count: u32,
}

impl<'a> State<'a> {
    /// Puts on a frame, which waits for the value of this node.
    pub(crate) fn wait(&mut self, frame: Frame<'a>, node: usize) -> Result<Step<'a>, EvalFault>
        ensures kept { (ts : List Tree) (s : Scope) → Keeps ts s self.new result
            (waits ts s self.old frame.entry node) }
        ensures count { self.new.count ≡ self.old.count }
        ensures room { IfOk result (λ next. vec_len self.new.frames + weight next
            ≤ vec_len self.old.frames + 1) }
    {
        self.frames.push(frame)?;
        Ok(Step::Begin(node))
    }

    /// Goes on with the answer of an operation.
    pub(crate) fn answer(&self, answer: Result<JxValue, EvalFault>) -> Result<Step<'a>, EvalFault>
        ensures kept { (ts : List Tree) (s : Scope) (a : Answer) → Gives plain answer a
            → Keeps ts s self.now result (whole ts s self.now (with_count self.now.count a)) }
        ensures room { IfOk result (λ next. weight next ≤ 1) }
    {
        match answer {
            Ok(value) => Ok(Step::Value(Operand::own(value))),
            Err(fault) => Err(fault),
        }
    }

    /// Counts one node more.
    pub(crate) fn spend(&mut self, place: usize) -> Result<(), EvalFault>
        ensures state { self.new ≡ record self.old { count = self.new.count } }
        ensures cases { MatchResult result
            (λ _. (self.old.count < 10000000) × (self.new.count ≡ self.old.count + 1))
            (λ e. (10000000 ≤ self.old.count) × (e ≡ EvalFault.TooMuch place)) }
    {
        if self.count >= MOST_NODES {
            return Err(EvalFault::TooMuch(place));
        }
        self.count += 1;
        Ok(())
    }

    /// The value of a name, where it has one. It isn't copied.
    pub(crate) fn value_of(
        &self,
        scope: &'a JxScope,
        name: &str,
    ) -> Result<Option<Operand<'a>>, Memory>
        ensures { IfOk result (λ found. option_map plain found
            ≡ find name.now (bound_on self.now.local.items (names_of scope.now))) }
    {
        match last_of(self.local.as_slice(), name) {
            Some(seen) => {
                let seen = seen.again()?;
                Ok(Some(Operand::seen(seen)))
            }
            None => match scope.get(name) {
                Some(value) => Ok(Some(Operand::seen(Seen::Lent(value)))),
                None => Ok(None),
            },
        }
    }
}

/// The value of the innermost loop that binds a name.
pub(crate) fn last_of<'b, 'a>(bindings: &'b [Bound<'a>], name: &str) -> Option<&'b Seen<'a>>
    ensures { (s : Scope) → find name.now (bound_on bindings.now s)
        ≡ or_other (option_map (λ b. plain (seen_value b)) (option_copied result))
        (find name.now s) }
{
    let mut found = None;
    for binding in bindings {
        if binding.name.as_str() == name {
            found = Some(&binding.value);
        }
    }
    found
}
