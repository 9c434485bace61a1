//! Operators, indices and slices, once an operand has its value.
ghost use Rattle.std.specs.Prelude.{◌≡◌, ◌≤◌, ◌+◌, List, vec_len};
ghost use Rattle.std.specs.Prelude.{option_map, option_copied, IfOk};
ghost use Rattle.jx_syntax.specs.Tree.{Tree};
ghost use Rattle.jx_meaning.specs.Values.{plain};
ghost use Rattle.jx_meaning.specs.Lists.{sliced};
ghost use Rattle.jx_meaning.specs.Meaning.{Scope, with_count, decides};
ghost use Rattle.jx_eval.specs.declared.frame.Frame.TheVariants as frame;
ghost use Rattle.jx_eval.specs.Machine.{Keeps, weight, whole, handed, started, stopped, bound_on};

use crate::frame::Frame;
use crate::operand::Operand;
use crate::state::{State, Step};
use jx_meaning::EvalFault;
use jx_syntax::{JxValue, Operator};
use jx_values::{added, operated, sliced, truth_in};

/// The truth value of the left operand at which the right one isn't evaluated.
fn deciding(o: Operator) -> Option<bool>
    ensures { result ≡ decides o }
{
    match o {
        Operator::Or => Some(true),
        Operator::And => Some(false),
        _ => None,
    }
}

/// The value of an operand that is given.
fn value_in<'b, 'a>(operand: &'b Option<Operand<'a>>) -> Option<&'b JxValue>
    ensures { option_copied result ≡ operand.now }
{
    match operand {
        Some(operand) => Some(operand.value()),
        None => None,
    }
}

impl<'a> State<'a> {
    /// Goes on with the right operand, unless the left one decides.
    pub(crate) fn left(
        &mut self,
        o: Operator,
        place: usize,
        right: usize,
        operand: Operand<'a>,
    ) -> Result<Step<'a>, EvalFault>
        ensures kept { (ts : List Tree) (s : Scope) → Keeps ts s self.new result
            (handed ts s self.old (frame.Left o place right) operand.entry) }
        ensures count { self.new.count ≡ self.old.count }
        ensures room { IfOk result (λ next. vec_len self.new.frames + weight next
            ≤ vec_len self.old.frames + 1) }
    {
        match deciding(o) {
            Some(decisive) => match truth_in(operand.value()) {
                Some(truth) => {
                    if truth == decisive {
                        Ok(Step::Value(Operand::own(JxValue::Truth(truth))))
                    } else {
                        self.wait(Frame::Truth(place), right)
                    }
                }
                None => Err(EvalFault::WrongKind(place)),
            },
            None => self.wait(Frame::Right(o, place, operand), right),
        }
    }

    /// Puts both operands under an operator. A left operand of its own is used up by a sum.
    pub(crate) fn right(
        &self,
        o: Operator,
        place: usize,
        left: Operand<'a>,
        operand: Operand<'a>,
    ) -> Result<Step<'a>, EvalFault>
        ensures kept { (ts : List Tree) (s : Scope) → Keeps ts s self.now result
            (handed ts s self.now (frame.Right o place left.entry) operand.entry) }
        ensures room { IfOk result (λ next. weight next ≤ 1) }
    {
        match o {
            Operator::Add => {
                let first = left.into_value(self.alloc, self.texts)?;
                let second = operand.into_value(self.alloc, self.texts)?;
                self.answer(added(self.texts, place, first, second))
            }
            _ => {
                let (first, second) = (left.value(), operand.value());
                self.answer(operated(self.alloc, self.texts, o, place, first, second))
            }
        }
    }

    /// Gives the right operand of `and` or `or`, which is a truth value.
    pub(crate) fn truth(&self, place: usize, operand: Operand<'a>) -> Result<Step<'a>, EvalFault>
        ensures kept { (ts : List Tree) (s : Scope) → Keeps ts s self.now result
            (handed ts s self.now (frame.Truth place) operand.entry) }
        ensures room { IfOk result (λ next. weight next ≤ 1) }
    {
        match truth_in(operand.value()) {
            Some(truth) => Ok(Step::Value(Operand::own(JxValue::Truth(truth)))),
            None => Err(EvalFault::WrongKind(place)),
        }
    }

    /// Goes on with the start of a slice, where it is given.
    pub(crate) fn slice_start(
        &mut self,
        place: usize,
        of: Operand<'a>,
        start: Option<usize>,
        stop: Option<usize>,
    ) -> Result<Step<'a>, EvalFault>
        ensures kept { (ts : List Tree) (s : Scope) → Keeps ts s self.new result
            (whole ts s self.old (started ts (bound_on self.old.local.items s) place
            (plain of.entry) start stop self.old.count)) }
        ensures count { self.new.count ≡ self.old.count }
        ensures room { IfOk result (λ next. vec_len self.new.frames + weight next
            ≤ vec_len self.old.frames + 1) }
    {
        match start {
            Some(start) => self.wait(Frame::Start(place, of, stop), start),
            None => self.slice_stop(place, of, None, stop),
        }
    }

    /// Goes on with the stop of a slice, where it is given.
    pub(crate) fn slice_stop(
        &mut self,
        place: usize,
        of: Operand<'a>,
        start: Option<Operand<'a>>,
        stop: Option<usize>,
    ) -> Result<Step<'a>, EvalFault>
        ensures kept { (ts : List Tree) (s : Scope) → Keeps ts s self.new result
            (whole ts s self.old (stopped ts (bound_on self.old.local.items s) place
            (plain of.entry) (option_map plain start.entry) stop self.old.count)) }
        ensures count { self.new.count ≡ self.old.count }
        ensures room { IfOk result (λ next. vec_len self.new.frames + weight next
            ≤ vec_len self.old.frames + 1) }
    {
        match stop {
            Some(stop) => self.wait(Frame::Stop(place, of, start), stop),
            None => self.slice(place, of, start, None),
        }
    }

    /// Takes a slice.
    pub(crate) fn slice(
        &self,
        place: usize,
        of: Operand<'a>,
        start: Option<Operand<'a>>,
        stop: Option<Operand<'a>>,
    ) -> Result<Step<'a>, EvalFault>
        ensures kept { (ts : List Tree) (s : Scope) → Keeps ts s self.now result
            (whole ts s self.now (with_count self.now.count (sliced place (plain of.entry)
            (option_map plain start.entry) (option_map plain stop.entry)))) }
        ensures room { IfOk result (λ next. weight next ≤ 1) }
    {
        let (first, last) = (value_in(&start), value_in(&stop));
        self.answer(sliced(self.alloc, self.texts, place, of.value(), first, last))
    }
}
