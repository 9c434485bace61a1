//! Nodes that are begun.
ghost use Rattle.std.specs.Prelude.{◌≡◌, ◌<◌, ◌≤◌, ◌+◌, List, ℕ, vec_len, IfOk, option_map};
ghost use Rattle.jx_syntax.specs.Tree.{Tree, IsOrdered, form_tree, node_at};
ghost use Rattle.jx_meaning.specs.Values.{plain, find};
ghost use Rattle.jx_meaning.specs.Scopes.{names_of};
ghost use Rattle.jx_meaning.specs.Meaning.{evaluate, known};
ghost use Rattle.jx_eval.specs.Machine.{Keeps, weight, whole, trees, bound_on};

use crate::frame::{Call, Frame};
use crate::operand::Operand;
use crate::state::{State, Step};
use flow_types::Text;
use jx_meaning::{EvalFault, JxScope};
use jx_syntax::{Form, JxValue, Node};
use jx_values::{Fields, Items};

impl<'a> State<'a> {
    /// Counts and begins the node of this number. A number past the last one is worth null; no
    /// expression names one.
    pub(crate) fn begin(
        &mut self,
        nodes: &'a [Node],
        scope: &'a JxScope,
        index: usize,
    ) -> Result<Step<'a>, EvalFault>
        ensures kept { IsOrdered 0 nodes.now → Keeps (trees nodes.now) (names_of scope.now)
            self.new result (whole (trees nodes.now) (names_of scope.now) self.old
            (evaluate (node_at (trees nodes.now) index)
            (bound_on self.old.local.items (names_of scope.now)) self.old.count)) }
        ensures count { IfOk result (λ _. (self.old.count < 10000000)
            × (self.new.count ≡ self.old.count + 1)) }
        ensures room { IfOk result (λ next. vec_len self.new.frames + weight next
            ≤ vec_len self.old.frames + 1) }
    {
        if index < nodes.len() {
            let node = &nodes[index];
            self.spend(node.place)?;
            self.enter(node, scope)
        } else {
            self.spend(0)?;
            Ok(Step::Value(Operand::own(JxValue::Null)))
        }
    }

    /// Gives the value of a name, or the fault that it has none.
    fn name(&self, scope: &'a JxScope, place: usize, name: &Text) -> Result<Step<'a>, EvalFault>
        ensures kept { (ts : List Tree) → Keeps ts (names_of scope.now) self.now result
            (whole ts (names_of scope.now) self.now (known place
            (find name.now (bound_on self.now.local.items (names_of scope.now)))
            self.now.count)) }
        ensures room { IfOk result (λ next. weight next ≤ 1) }
    {
        match self.value_of(scope, name.as_str())? {
            Some(operand) => Ok(Step::Value(operand)),
            None => Err(EvalFault::UnknownName(place)),
        }
    }

    /// Begins a node that was counted.
    fn enter(&mut self, node: &'a Node, scope: &'a JxScope) -> Result<Step<'a>, EvalFault>
        ensures kept { (ts : List Tree) (n : ℕ) → n < 10000000 → self.old.count ≡ n + 1
            → Keeps ts (names_of scope.now) self.new result (whole ts (names_of scope.now)
            self.old (evaluate (form_tree ts node.now.place node.now.form)
            (bound_on self.old.local.items (names_of scope.now)) n)) }
        ensures count { self.new.count ≡ self.old.count }
        ensures room { IfOk result (λ next. vec_len self.new.frames + weight next
            ≤ vec_len self.old.frames + 1) }
    {
        let place = node.place;
        match &node.form {
            Form::Null => Ok(Step::Value(Operand::own(JxValue::Null))),
            Form::Truth(t) => Ok(Step::Value(Operand::own(JxValue::Truth(*t)))),
            Form::Number(z) => Ok(Step::Value(Operand::own(JxValue::Number(*z)))),
            Form::Text(t) => {
                let copy = self.texts.copy(self.alloc, t)?;
                Ok(Step::Value(Operand::own(JxValue::Text(copy))))
            }
            Form::Name(name) => self.name(scope, place, name),
            Form::Call(name, given) => {
                let call = Call {
                    place,
                    name,
                    rest: given.as_slice(),
                    done: Vec::new(self.alloc),
                };
                self.next_argument(scope, call)
            }
            Form::List(items) => { self.next_item(place, items.as_slice(), Items::new(self.alloc)) }
            Form::Object(fields) => {
                self.next_field(place, fields.as_slice(), Fields::new(self.alloc))
            }
            Form::Index(of, index) => self.wait(Frame::Indexed(place, *index), *of),
            Form::Slice(of, start, stop) => self.wait(Frame::Sliced(place, *start, *stop), *of),
            Form::Signed(sign, of) => self.wait(Frame::Signed(place, *sign), *of),
            Form::Operation(o, left, right) => self.wait(Frame::Left(*o, place, *right), *left),
        }
    }
}
