//! Lists, objects and texts that may be built.
ghost use Rattle.std.specs.Prelude.{◌≡◌, [], ◌&&◌, nat_le, map};
ghost use Rattle.jx_meaning.specs.Answers.{Gives};
ghost use Rattle.jx_meaning.specs.Values.{plain, values, list};
ghost use Rattle.jx_meaning.specs.Values as of;
ghost use Rattle.jx_meaning.specs.Lists.{limited, with_item, with_key};
ghost use Rattle.jx_values.specs.Kinds.{plain_pair};
ghost use Rattle.jx_values.specs.Sizes.{items_size, pairs_size};

use crate::size::{Size, size_of};
use flow_types::{Rows, Text};
use jx_meaning::EvalFault;
use jx_syntax::{JxPair, JxValue};
use std::alloc::Global;
use std::marker::Model;

/// The most bytes of a text.
pub const MOST_BYTES: usize = 16_777_216;

/// The most items of a list.
pub const MOST_ITEMS: usize = 1_000_000;

/// Whether a value of this size may be built.
pub fn is_small(size: Size) -> bool
    ensures { result ≡ (nat_le size.depth 128 && nat_le size.count 10000000) }
{
    size.depth <= 128 && size.count <= 10_000_000
}

/// Whether a list of so many items and of this size may be built.
pub fn may_be_list(len: usize, size: Size) -> bool
    ensures { result ≡ (nat_le len 1000000 && (nat_le size.depth 128
        && nat_le size.count 10000000)) }
{
    len <= MOST_ITEMS && is_small(size)
}

/// The items of a list that is being built.
#[derive(Drop)]
pub struct Items {
    items: Vec<JxValue>,
    inside: Size,
}

impl Model for Items {
    ghost use Rattle.std.specs.Prelude.{◌≡◌, List, map};
    ghost use Rattle.std.specs.Coded.{codes};
    ghost use Rattle.jx_syntax.specs.declared.value.JxValue.{JxValue};
    ghost use Rattle.jx_syntax.specs.contracts.value.JxValue as value;
    ghost use Rattle.jx_meaning.specs.Values.{plain, values, list};
    ghost use Rattle.jx_values.specs.Sizes.{items_size};

    ghost Value = { List JxValue };

    ghost coded = { Prim.hlevel (codes, value.the_row.coded) };

    ghost view = { λ l. l.items.items };

    ghost invariant = { λ l. l.inside ≡ items_size (values (map plain l.items.items)) };
}

impl Items {
    /// No items.
    pub fn new(alloc: Global) -> Items
        ensures { result ≡ [] }
    {
        Items {
            items: Vec::new(alloc),
            inside: Size::nothing(),
        }
    }

    /// Puts an item at the end, where the list may have it.
    pub fn push(&mut self, place: usize, item: JxValue) -> Result<(), EvalFault>
        ensures { Gives (λ _. map plain self.new) result
            (with_item place (map plain self.old) (plain item)) }
    {
        let inside = self.inside.beside(size_of(&item));
        if !may_be_list(self.items.len() + 1, inside.around()) {
            return Err(EvalFault::TooMuch(place));
        }
        self.items.push(item)?;
        self.inside = inside;
        Ok(())
    }

    /// The list of these items.
    pub fn into_value(self) -> JxValue
        ensures { plain result ≡ list (values (map plain self)) }
    {
        JxValue::List(Rows::of(self.items))
    }
}

/// The text, where it may be built.
#[tactic(auto, using(crate::proofs::Plain::plain_laws))]
pub fn text_value(place: usize, text: Text) -> Result<JxValue, EvalFault>
    ensures { Gives plain result (limited place (of.text text)) }
{
    if text.as_str().len() > MOST_BYTES {
        return Err(EvalFault::TooMuch(place));
    }
    Ok(JxValue::Text(text))
}
