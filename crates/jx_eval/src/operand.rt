//! Values of operands.
ghost use Rattle.std.specs.Prelude.{◌≡◌, map, option_map, IfOk};
ghost use Rattle.jx_meaning.specs.Values.{plain};
ghost use Rattle.jx_values.specs.Kinds.{items_in};
ghost use Rattle.jx_eval.specs.Operands.{seen_value, held_value};

use crate::turns::Turns;
use flow_types::Memory;
use jx_syntax::JxValue;
use jx_values::{Texts, copied};
use std::alloc::Global;
use std::marker::Model;
use std::rc::Rc;

/// A value that is only looked at.
#[derive(Drop)]
pub(crate) enum Seen<'a> {
    /// One of the scope, or within such a one.
    Lent(&'a JxValue),
    /// One that loops and operands share.
    Shared(Rc<JxValue>),
}

impl<'a> Seen<'a> {
    /// The value.
    pub(crate) fn value(&self) -> &JxValue
        ensures { result.now ≡ seen_value self.now }
    {
        match self {
            Seen::Lent(value) => value,
            Seen::Shared(value) => value.as_ref(),
        }
    }

    /// The same value once more. It isn't copied.
    pub(crate) fn again(&self) -> Result<Seen<'a>, Memory>
        ensures { IfOk result (λ s. seen_value s ≡ seen_value self.now) }
    {
        match self {
            Seen::Lent(value) => Ok(Seen::Lent(value)),
            Seen::Shared(value) => match value.clone() {
                Ok(value) => Ok(Seen::Shared(value)),
                Err(_) => Err(Memory),
            },
        }
    }
}

/// Who has a value.
#[derive(Drop)]
pub(crate) enum Held<'a> {
    /// The operand.
    Own(JxValue),
    /// Somebody else.
    Seen(Seen<'a>),
}

/// The value of an operand. Contracts see it as the value.
#[derive(Drop)]
pub(crate) struct Operand<'a> {
    held: Held<'a>,
}

impl<'a> Model for Operand<'a> {
    ghost use Rattle.std.specs.Coded.{codes};
    ghost use Rattle.jx_syntax.specs.declared.value.JxValue.{JxValue};
    ghost use Rattle.jx_syntax.specs.contracts.value.JxValue as value;
    ghost use Rattle.jx_eval.specs.Operands.{held_value};

    ghost Value = { JxValue };

    ghost coded = { Prim.hlevel (codes, value.the_row.coded) };

    ghost view = { λ o. held_value o.held };
}

impl<'a> Operand<'a> {
    /// A value of its own.
    pub(crate) fn own(value: JxValue) -> Operand<'a>
        ensures { result ≡ value }
    {
        Operand {
            held: Held::Own(value),
        }
    }

    /// A value that is only looked at.
    pub(crate) fn seen(value: Seen<'a>) -> Operand<'a>
        ensures { result ≡ seen_value value.entry }
    {
        Operand {
            held: Held::Seen(value),
        }
    }

    /// The value, to look at.
    pub(crate) fn value(&self) -> &JxValue
        ensures { result.now ≡ self.now }
    {
        match &self.held {
            Held::Own(value) => value,
            Held::Seen(seen) => seen.value(),
        }
    }

    /// The value, which is copied only where it isn't the operand's own.
    pub(crate) fn into_value(self, alloc: Global, texts: &Texts) -> Result<JxValue, Memory>
        ensures { IfOk result (λ v. v ≡ self.entry) }
    {
        match self.held {
            Held::Own(value) => Ok(value),
            Held::Seen(seen) => copied(alloc, texts, seen.value()),
        }
    }
    /// The items, where the value is a list. Those of a list of the scope aren't copied.
    pub(crate) fn into_turns(
        self,
        alloc: Global,
        texts: &Texts,
    ) -> Result<Option<Turns<'a>>, Memory>
        ensures { IfOk result
            (λ turns. option_map (map plain) turns ≡ items_in (plain self.entry)) }
    {
        match self.held {
            Held::Own(value) => Ok(Turns::own(value)),
            Held::Seen(Seen::Lent(value)) => Ok(Turns::lent(value)),
            Held::Seen(Seen::Shared(value)) => {
                let copy = copied(alloc, texts, value.as_ref())?;
                Ok(Turns::own(copy))
            }
        }
    }
}
