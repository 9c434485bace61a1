//! The steps of reading behind an expression whose operators have their operands.
ghost use Rattle.std.specs.Prelude.{◌≡◌, List, [], ◌∷◌, ◌++◌, IfOk, IfErr};
ghost use Rattle.jx_tokens.specs.declared.fault.JxFault.TheVariants.{Memory};
ghost use Rattle.jx_syntax.specs.declared.node.Node.{Node};
ghost use Rattle.jx_syntax.specs.Grammar.{Derivation};
ghost use Rattle.jx_syntax.specs.Reading as read;
ghost use Rattle.jx_syntax.specs.Reading.{ends_group, ends_list, ends_object, goes_on, slices};
ghost use Rattle.jx_syntax.specs.Reading.{loops, selects};
ghost use Rattle.jx_syntax.specs.Tree.{tree_of};
ghost use Rattle.jx_syntax.specs.Shown.{IsNode, IsItem, IsPart, Ends};

use crate::node::{Condition, Field, Form, Item, Loop};
use crate::pending::{Part, Pending, Reader, Wanted};
use crate::reader::push_row;
use flow_types::{Rows, Text};
use jx_tokens::JxFault;
use std::alloc::Global;

/// An item with one loop more.
fn looped(
    item: Item,
    place: usize,
    name: Text,
    over: usize,
    condition: Option<Condition>,
) -> Result<Item, JxFault>
    ensures body { IfOk result (λ i. i.body ≡ item.body) }
    ensures loops { IfOk result (λ i. i.loops ≡ item.loops
        ++ record { place = place; name = name; over = over; condition = condition } ∷ []) }
    ensures memory { IfErr result (λ e. e ≡ Memory) }
{
    let Item { body, mut loops } = item;
    push_row(
        &mut loops,
        Loop {
            place,
            name,
            over,
            condition,
        },
    )?;
    Ok(Item { body, loops })
}

/// An item whose last part is this node.
#[tactic(auto, using(crate::proofs::Nodes::once_is, crate::proofs::Nodes::each_is, crate::proofs::Nodes::each_if_is))]
fn completed(alloc: Global, part: Part, operand: usize) -> Result<Item, JxFault>
    ensures shown { IfOk result (λ i. (ns : List Node) (q : read.Part) (x : Derivation)
        → IsPart ns part q
        → IsNode ns operand (tree_of x) → IsItem ns i (read.completed q x)) }
    ensures memory { IfErr result (λ e. e ≡ Memory) }
{
    match part {
        Part::Body => Ok(Item {
            body: operand,
            loops: Rows::new(alloc),
        }),
        Part::Over(item, place, name) => looped(item, place, name, operand, None),
        Part::Only(item, place, name, over, at) => {
            let condition = Condition {
                place: at,
                test: operand,
            };
            looped(item, place, name, over, Some(condition))
        }
    }
}

impl Reader {
    /// `)`
    #[tactic(auto, using(crate::proofs::Nodes::arguments_push))]
    pub fn end_group(&mut self, operand: usize, place: usize) -> Result<Wanted, JxFault>
        ensures shown { Ends self.old operand self.new result place ends_group }
    {
        let Some(top) = self.stack.pop() else {
            return Err(JxFault::Unexpected(place));
        };
        self.depth = self.depth.saturating_sub(1);
        match top {
            Pending::Grouped => Ok(Wanted::Behind(operand)),
            Pending::Argued(at, name, arguments) => {
                let mut arguments = arguments;
                push_row(&mut arguments, operand)?;
                self.done(at, Form::Call(name, arguments))
            }
            _ => Err(JxFault::Unexpected(place)),
        }
    }

    /// `]`
    #[tactic(auto, using(crate::proofs::Nodes::items_push))]
    pub fn end_list(&mut self, operand: usize, place: usize) -> Result<Wanted, JxFault>
        ensures shown { Ends self.old operand self.new result place ends_list }
    {
        let Some(top) = self.stack.pop() else {
            return Err(JxFault::Unexpected(place));
        };
        self.depth = self.depth.saturating_sub(1);
        match top {
            Pending::Listed(at, items, part) => {
                let mut items = items;
                push_row(&mut items, completed(self.alloc, part, operand)?)?;
                self.done(at, Form::List(items))
            }
            Pending::Indexed(of, at) => self.done(at, Form::Index(of, operand)),
            Pending::Sliced(of, at, from) => self.done(at, Form::Slice(of, from, Some(operand))),
            _ => Err(JxFault::Unexpected(place)),
        }
    }

    /// `}`
    #[tactic(auto, using(crate::proofs::Nodes::fields_push))]
    pub fn end_object(&mut self, operand: usize, place: usize) -> Result<Wanted, JxFault>
        ensures shown { Ends self.old operand self.new result place ends_object }
    {
        let Some(top) = self.stack.pop() else {
            return Err(JxFault::Unexpected(place));
        };
        self.depth = self.depth.saturating_sub(1);
        match top {
            Pending::Keyed(at, fields, key) => {
                let mut fields = fields;
                push_row(
                    &mut fields,
                    Field {
                        key,
                        value: operand,
                    },
                )?;
                self.done(at, Form::Object(fields))
            }
            _ => Err(JxFault::Unexpected(place)),
        }
    }

    /// A comma.
    #[tactic(auto, using(crate::proofs::Nodes::arguments_push, crate::proofs::Nodes::items_push, crate::proofs::Nodes::fields_push))]
    pub fn go_on(&mut self, operand: usize, place: usize) -> Result<Wanted, JxFault>
        ensures shown { Ends self.old operand self.new result place goes_on }
    {
        let Some(top) = self.stack.pop() else {
            return Err(JxFault::Unexpected(place));
        };
        match top {
            Pending::Argued(at, name, arguments) => {
                let mut arguments = arguments;
                push_row(&mut arguments, operand)?;
                self.resume(Pending::Argued(at, name, arguments))
            }
            Pending::Listed(at, items, part) => {
                let mut items = items;
                push_row(&mut items, completed(self.alloc, part, operand)?)?;
                self.resume(Pending::Listed(at, items, Part::Body))
            }
            Pending::Keyed(at, fields, key) => {
                let mut fields = fields;
                push_row(
                    &mut fields,
                    Field {
                        key,
                        value: operand,
                    },
                )?;
                Ok(Wanted::Key(at, fields))
            }
            _ => Err(JxFault::Unexpected(place)),
        }
    }

    /// A colon.
    pub fn slice(&mut self, operand: usize, place: usize) -> Result<Wanted, JxFault>
        ensures shown { Ends self.old operand self.new result place slices }
    {
        let Some(top) = self.stack.pop() else {
            return Err(JxFault::Unexpected(place));
        };
        match top {
            Pending::Indexed(of, at) => self.resume(Pending::Sliced(of, at, Some(operand))),
            _ => Err(JxFault::Unexpected(place)),
        }
    }

    /// `for`
    pub fn begin_loop(&mut self, operand: usize, place: usize) -> Result<Wanted, JxFault>
        ensures shown { Ends self.old operand self.new result place loops }
    {
        let Some(top) = self.stack.pop() else {
            return Err(JxFault::Unexpected(place));
        };
        match top {
            Pending::Listed(at, items, part) => {
                let item = completed(self.alloc, part, operand)?;
                Ok(Wanted::LoopName(at, items, item, place))
            }
            _ => Err(JxFault::Unexpected(place)),
        }
    }

    /// `if`, behind the list of a loop.
    pub fn select(&mut self, operand: usize, place: usize) -> Result<Wanted, JxFault>
        ensures shown { Ends self.old operand self.new result place selects }
    {
        let Some(top) = self.stack.pop() else {
            return Err(JxFault::Unexpected(place));
        };
        match top {
            Pending::Listed(at, items, part) => match part {
                Part::Over(item, start, name) => {
                    let part = Part::Only(item, start, name, operand, place);
                    self.resume(Pending::Listed(at, items, part))
                }
                _ => Err(JxFault::Unexpected(place)),
            },
            _ => Err(JxFault::Unexpected(place)),
        }
    }
}
