//! Objects that are being made.
ghost use Rattle.std.specs.Prelude.{◌≡◌, ◌≤◌, ◌+◌, List, vec_len, map, IfOk};
ghost use Rattle.jx_syntax.specs.Tree.{Tree};
ghost use Rattle.jx_meaning.specs.Meaning.{Scope};
ghost use Rattle.jx_values.specs.Kinds.{plain_pair};
ghost use Rattle.jx_eval.specs.declared.frame.Frame.TheVariants as frame;
ghost use Rattle.jx_eval.specs.Machine.{Keeps, weight, whole, handed, filled, bound_on};

use crate::frame::{Frame, Object};
use crate::operand::Operand;
use crate::state::{State, Step};
use jx_meaning::EvalFault;
use jx_syntax::Field;
use jx_values::Fields;

impl<'a> State<'a> {
    /// Goes on with the fields of an object, behind the keys so far.
    pub(crate) fn next_field(
        &mut self,
        place: usize,
        rest: &'a [Field],
        done: Fields,
    ) -> Result<Step<'a>, EvalFault>
        ensures kept { (ts : List Tree) (s : Scope) → Keeps ts s self.new result
            (whole ts s self.old (filled ts (bound_on self.old.local.items s) place rest.now
            (map plain_pair done) self.old.count)) }
        ensures count { self.new.count ≡ self.old.count }
        ensures room { IfOk result (λ next. vec_len self.new.frames + weight next
            ≤ vec_len self.old.frames + 1) }
    {
        match rest {
            [] => Ok(Step::Value(Operand::own(done.into_value()))),
            [first, rest @ ..] => {
                let object = Object {
                    place,
                    key: &first.key,
                    rest,
                    done,
                };
                self.wait(Frame::Field(object), first.value)
            }
        }
    }

    /// Gives the key at hand its value.
    pub(crate) fn field(
        &mut self,
        mut object: Object<'a>,
        operand: Operand<'a>,
    ) -> Result<Step<'a>, EvalFault>
        ensures kept { (ts : List Tree) (s : Scope) → Keeps ts s self.new result
            (handed ts s self.old (frame.Field object.entry) operand.entry) }
        ensures count { self.new.count ≡ self.old.count }
        ensures room { IfOk result (λ next. vec_len self.new.frames + weight next
            ≤ vec_len self.old.frames + 1) }
    {
        let place = object.place;
        let key = self.texts.copy(self.alloc, object.key)?;
        let value = operand.into_value(self.alloc, self.texts)?;
        object.done.put(place, key, value)?;
        self.next_field(place, object.rest, object.done)
    }
}
