//! Calls of functions.
ghost use Rattle.std.specs.Prelude.{◌≡◌, ◌≤◌, ◌+◌, List, vec_len, map, IfOk, IfErr};
ghost use Rattle.jx_syntax.specs.Tree.{Tree};
ghost use Rattle.jx_meaning.specs.Values.{plain};
ghost use Rattle.jx_meaning.specs.Functions.{function_of};
ghost use Rattle.jx_meaning.specs.Operations.{applied};
ghost use Rattle.jx_meaning.specs.Scopes.{names_of};
ghost use Rattle.jx_meaning.specs.Meaning.{with_count};
ghost use Rattle.jx_eval.specs.declared.frame.Frame.TheVariants as frame;
ghost use Rattle.jx_eval.specs.Machine.{Keeps, weight, whole, handed, called, bound_on};

use crate::frame::{Call, Frame};
use crate::operand::Operand;
use crate::state::{State, Step};
use crate::visible::Visible;
use jx_functions::applied;
use jx_meaning::{EvalFault, Function, JxScope};
use jx_syntax::JxValue;
use std::alloc::Global;

/// The values of arguments, which aren't copied.
fn looked_at<'b, 'a>(
    alloc: Global,
    operands: &'b [Operand<'a>],
) -> Result<Vec<&'b JxValue>, EvalFault>
    ensures given { IfOk result (λ vs. map (λ v. plain v.now) vs.items ≡ map plain operands.now) }
    ensures memory { IfErr result (λ e. e ≡ EvalFault.Memory) }
{
    let mut given = Vec::new(alloc);
    for operand in operands {
        given.push(operand.value())?;
    }
    Ok(given)
}

impl<'a> State<'a> {
    /// Goes on with the arguments of a call, behind those so far.
    pub(crate) fn next_argument(
        &mut self,
        scope: &'a JxScope,
        mut call: Call<'a>,
    ) -> Result<Step<'a>, EvalFault>
        ensures kept { (ts : List Tree) → Keeps ts (names_of scope.now) self.new result
            (whole ts (names_of scope.now) self.old (called ts
            (bound_on self.old.local.items (names_of scope.now)) call.entry.place
            call.entry.name.now call.entry.rest.now (map plain call.entry.done.items)
            self.old.count)) }
        ensures count { self.new.count ≡ self.old.count }
        ensures room { IfOk result (λ next. vec_len self.new.frames + weight next
            ≤ vec_len self.old.frames + 1) }
    {
        match call.rest {
            [] => self.call(scope, call),
            [first, rest @ ..] => {
                call.rest = rest;
                self.wait(Frame::Argument(call), *first)
            }
        }
    }

    /// Puts an argument behind those so far.
    pub(crate) fn argument(
        &mut self,
        scope: &'a JxScope,
        mut call: Call<'a>,
        operand: Operand<'a>,
    ) -> Result<Step<'a>, EvalFault>
        ensures kept { (ts : List Tree) → Keeps ts (names_of scope.now) self.new result
            (handed ts (names_of scope.now) self.old (frame.Argument call.entry) operand.entry) }
        ensures count { self.new.count ≡ self.old.count }
        ensures room { IfOk result (λ next. vec_len self.new.frames + weight next
            ≤ vec_len self.old.frames + 1) }
    {
        call.done.push(operand)?;
        self.next_argument(scope, call)
    }

    /// Calls a function with its arguments.
    fn call(&self, scope: &'a JxScope, call: Call<'a>) -> Result<Step<'a>, EvalFault>
        ensures kept { (ts : List Tree) → Keeps ts (names_of scope.now) self.now result
            (whole ts (names_of scope.now) self.now (with_count self.now.count
            (applied (function_of call.entry.name.now) call.entry.place
            (bound_on self.now.local.items (names_of scope.now))
            (map plain call.entry.done.items)))) }
        ensures room { IfOk result (λ next. weight next ≤ 1) }
    {
        let names = Visible {
            local: self.local.as_slice(),
            scope,
        };
        let function = Function::of(call.name.as_str());
        let given = looked_at(self.alloc, call.done.as_slice())?;
        let given = given.as_slice();
        self.answer(applied(self.alloc, self.texts, function, call.place, &names, given))
    }
}
