//! Lists that are being made, with their loops.
ghost use Rattle.std.specs.Prelude.{◌≡◌, ◌≤◌, ◌+◌, ◌∷◌, List, Result, Ok, vec_len};
ghost use Rattle.std.specs.Prelude.{map, reverse, IfOk};
ghost use Rattle.jx_syntax.specs.Tree.{Tree};
ghost use Rattle.jx_meaning.specs.Values.{plain};
ghost use Rattle.jx_meaning.specs.Meaning.{Scope, and_then};
ghost use Rattle.jx_eval.specs.Operands.{seen_value};
ghost use Rattle.jx_eval.specs.declared.frame.Frame.TheVariants as frame;
ghost use Rattle.jx_eval.specs.Machine.{Keeps, weight, whole, listed, handed, finished};
ghost use Rattle.jx_eval.specs.Machine.{enters, goes_on, turn_of, turns_of, around, bound_on};

use crate::frame::{Bound, Frame, Making, Turn};
use crate::operand::{Operand, Seen};
use crate::state::{State, Step};
use jx_meaning::EvalFault;
use jx_syntax::{Item, Loop};
use jx_values::{Items, truth_in};

impl<'a> State<'a> {
    /// Goes on with the items of a list, behind the results so far.
    pub(crate) fn next_item(
        &mut self,
        place: usize,
        rest: &'a [Item],
        done: Items,
    ) -> Result<Step<'a>, EvalFault>
        ensures kept { (ts : List Tree) (s : Scope) → Keeps ts s self.new result
            (whole ts s self.old (finished ts (bound_on self.old.local.items s) place rest.now
            (map plain done) self.old.count)) }
        ensures count { self.new.count ≡ self.old.count }
        ensures room { IfOk result (λ next. vec_len self.new.frames + weight next
            ≤ vec_len self.old.frames + 1) }
    {
        match rest {
            [] => Ok(Step::Value(Operand::own(done.into_value()))),
            [first, rest @ ..] => {
                let making = Making {
                    place,
                    rest,
                    done,
                    body: first.body,
                    loops: Vec::new(self.alloc),
                    depth: self.local.len(),
                };
                self.enter_loops(making, first.loops.as_slice())
            }
        }
    }

    /// Goes on with the loops within a turn, or with the item that they are for.
    pub(crate) fn enter_loops(
        &mut self,
        making: Making<'a>,
        inner: &'a [Loop],
    ) -> Result<Step<'a>, EvalFault>
        ensures kept { (ts : List Tree) (s : Scope) → Keeps ts s self.new result
            (listed ts s self.old making.entry (enters ts s self.old.local.items making.entry
            inner.now self.old.count)) }
        ensures count { self.new.count ≡ self.old.count }
        ensures room { IfOk result (λ next. vec_len self.new.frames + weight next
            ≤ vec_len self.old.frames + 1) }
    {
        match inner {
            [] => {
                let body = making.body;
                self.wait(Frame::Body(making), body)
            }
            [first, inner @ ..] => {
                let over = first.over;
                self.wait(Frame::Over(making, first, inner), over)
            }
        }
    }

    /// Goes on with the next turn of the innermost loop that has one, else with the items behind.
    pub(crate) fn next_turn(&mut self, mut making: Making<'a>) -> Result<Step<'a>, EvalFault>
        ensures kept { (ts : List Tree) (s : Scope) → Keeps ts s self.new result
            (listed ts s self.old making.entry (goes_on ts s self.old.local.items making.entry
            (map plain making.entry.done) self.old.count)) }
        ensures count { self.new.count ≡ self.old.count }
        ensures room { IfOk result (λ next. vec_len self.new.frames + weight next
            ≤ vec_len self.old.frames + 1) }
    {
        'loops: while let Some(turn) = making.loops.pop() {
            let mut turn = turn;
            self.local.truncate(turn.depth);
            match turn.left.next(self.alloc)? {
                Some(value) => return self.take_turn(making, turn, value),
                None => {}
            }
        }
        self.local.truncate(making.depth);
        self.next_item(making.place, making.rest, making.done)
    }

    /// Begins a turn of a loop with this value.
    pub(crate) fn take_turn(
        &mut self,
        mut making: Making<'a>,
        mut turn: Turn<'a>,
        value: Seen<'a>,
    ) -> Result<Step<'a>, EvalFault>
        ensures kept { (ts : List Tree) (s : Scope) → Keeps ts s self.new result
            (listed ts s self.old making.entry
            (and_then (turn_of ts (bound_on self.old.local.items s)
            making.entry.place making.entry.body turn.entry (plain (seen_value value.entry))
            (map plain making.entry.done) self.old.count)
            (λ done n. and_then (turns_of ts (bound_on self.old.local.items s)
            making.entry.place making.entry.body turn.entry done n)
            (goes_on ts s self.old.local.items making.entry)))) }
        ensures count { self.new.count ≡ self.old.count }
        ensures room { IfOk result (λ next. vec_len self.new.frames + weight next
            ≤ vec_len self.old.frames + 1) }
    {
        let condition = turn.condition;
        let inner = turn.inner;
        turn.depth = self.local.len();
        self.local.push(Bound {
            name: turn.name,
            value,
        })?;
        making.loops.push(turn)?;
        match condition {
            Some(condition) => {
                let frame = Frame::Test(making, condition.place, inner);
                self.wait(frame, condition.test)
            }
            None => self.enter_loops(making, inner),
        }
    }

    /// Begins a loop over the items of a value.
    pub(crate) fn over(
        &mut self,
        mut making: Making<'a>,
        of: &'a Loop,
        inner: &'a [Loop],
        operand: Operand<'a>,
    ) -> Result<Step<'a>, EvalFault>
        ensures kept { (ts : List Tree) (s : Scope) → Keeps ts s self.new result
            (handed ts s self.old (frame.Over making.entry of.entry inner.entry) operand.entry) }
        ensures count { self.new.count ≡ self.old.count }
        ensures room { IfOk result (λ next. vec_len self.new.frames + weight next
            ≤ vec_len self.old.frames + 1) }
    {
        match operand.into_turns(self.alloc, self.texts)? {
            Some(left) => {
                let turn = Turn {
                    name: &of.name,
                    condition: of.condition,
                    inner,
                    left,
                    depth: self.local.len(),
                };
                making.loops.push(turn)?;
                self.next_turn(making)
            }
            None => Err(EvalFault::WrongKind(of.place)),
        }
    }

    /// Goes on with a turn where its condition holds, else with the next one.
    pub(crate) fn tested(
        &mut self,
        making: Making<'a>,
        place: usize,
        inner: &'a [Loop],
        operand: Operand<'a>,
    ) -> Result<Step<'a>, EvalFault>
        ensures kept { (ts : List Tree) (s : Scope) → Keeps ts s self.new result
            (handed ts s self.old (frame.Test making.entry place inner.entry) operand.entry) }
        ensures count { self.new.count ≡ self.old.count }
        ensures room { IfOk result (λ next. vec_len self.new.frames + weight next
            ≤ vec_len self.old.frames + 1) }
    {
        match truth_in(operand.value()) {
            Some(holds) => {
                if holds {
                    self.enter_loops(making, inner)
                } else {
                    self.next_turn(making)
                }
            }
            None => Err(EvalFault::WrongKind(place)),
        }
    }

    /// Puts the result of a turn behind those so far.
    pub(crate) fn result(
        &mut self,
        mut making: Making<'a>,
        operand: Operand<'a>,
    ) -> Result<Step<'a>, EvalFault>
        ensures kept { (ts : List Tree) (s : Scope) → Keeps ts s self.new result
            (handed ts s self.old (frame.Body making.entry) operand.entry) }
        ensures count { self.new.count ≡ self.old.count }
        ensures room { IfOk result (λ next. vec_len self.new.frames + weight next
            ≤ vec_len self.old.frames + 1) }
    {
        let item = operand.into_value(self.alloc, self.texts)?;
        let place = making.place;
        making.done.push(place, item)?;
        self.next_turn(making)
    }
}
