//! The values that a loop still goes over.
ghost use Rattle.std.specs.Prelude.{◌≡◌, reverse, map, option_map, option_copied, IfOk, OnOk};
ghost use Rattle.jx_meaning.specs.Values.{plain};
ghost use Rattle.jx_values.specs.Kinds.{items_in};
ghost use Rattle.jx_eval.specs.Operands.{left_values, TakesFirst};

use crate::operand::Seen;
use flow_types::Memory;
use jx_syntax::JxValue;
use jx_values::items_in;
use std::alloc::Global;
use std::marker::Model;
use std::rc::Rc;

/// Who has the values.
#[derive(Drop)]
pub(crate) enum Left<'a> {
    /// The scope.
    Lent(&'a [JxValue]),
    /// The loop, the next one last.
    Own(Vec<JxValue>),
}

/// The values that a loop still goes over. Contracts see them as a list, the next one first.
#[derive(Drop)]
pub(crate) struct Turns<'a> {
    left: Left<'a>,
}

impl<'a> Model for Turns<'a> {
    ghost use Rattle.std.specs.Prelude.{List};
    ghost use Rattle.std.specs.Coded.{codes};
    ghost use Rattle.jx_syntax.specs.declared.value.JxValue.{JxValue};
    ghost use Rattle.jx_syntax.specs.contracts.value.JxValue as value;
    ghost use Rattle.jx_eval.specs.Operands.{left_values};

    ghost Value = { List JxValue };

    ghost coded = { Prim.hlevel (codes, value.the_row.coded) };

    ghost view = { λ t. left_values t.left };
}

impl<'a> Turns<'a> {
    /// The items of a list of the scope, which aren't copied.
    #[tactic(auto, using(jx_values::proofs::Plain::views))]
    pub(crate) fn lent(value: &'a JxValue) -> Option<Turns<'a>>
        ensures { option_map (map plain) result ≡ items_in (plain value.now) }
    {
        match items_in(value) {
            Some(items) => Some(Turns {
                left: Left::Lent(items),
            }),
            None => None,
        }
    }

    /// The items of a list, which is used up.
    #[tactic(auto, using(jx_values::proofs::Plain::views, crate::proofs::Behind::lists))]
    pub(crate) fn own(value: JxValue) -> Option<Turns<'a>>
        ensures { option_map (map plain) result ≡ items_in (plain value) }
    {
        match value {
            JxValue::List(items) => {
                let mut items = items.into_vec();
                items.reverse();
                Some(Turns {
                    left: Left::Own(items),
                })
            }
            _ => None,
        }
    }

    /// Takes the next value.
    #[tactic(auto, using(crate::proofs::Behind::lists))]
    pub(crate) fn next(&mut self, alloc: Global) -> Result<Option<Seen<'a>>, Memory>
        ensures { IfOk result (λ next. TakesFirst self.old next self.new) }
    {
        match &mut self.left {
            Left::Lent(items) => match *items {
                [] => Ok(None),
                [first, rest @ ..] => {
                    *items = rest;
                    Ok(Some(Seen::Lent(first)))
                }
            },
            Left::Own(items) => match items.pop() {
                Some(value) => match Rc::new(alloc, value) {
                    Ok(value) => Ok(Some(Seen::Shared(value))),
                    Err(_) => Err(Memory),
                },
                None => Ok(None),
            },
        }
    }
}
