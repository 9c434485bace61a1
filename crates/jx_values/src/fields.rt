//! Objects that are being built.
ghost use Rattle.std.specs.Prelude.{◌≡◌, [], ◌∷◌, ◌++◌, ◌+◌, ◌<◌, length, take, drop, map};
ghost use Rattle.std.specs.Prelude.{IfSome, IfNone, OnOk, slice_index_or};
ghost use Rattle.jx_meaning.specs.Answers.{Gives};
ghost use Rattle.jx_meaning.specs.Values.{Value, plain, pairs};
ghost use Rattle.jx_meaning.specs.Values as of;
ghost use Rattle.jx_meaning.specs.Lists.{put, with_key};
ghost use Rattle.jx_values.specs.Kinds.{plain_pair, ReplacesValue};
ghost use Rattle.jx_values.specs.Sizes.{pairs_size};
ghost use Rattle.jx_syntax.specs.declared.value.JxPair.{JxPair};

use crate::limits::is_small;
use crate::size::{Size, pairs_size, size_of};
use flow_types::{Rows, Text};
use jx_meaning::EvalFault;
use jx_syntax::{JxPair, JxValue};
use std::alloc::{AllocError, Global};
use std::marker::Model;

/// The place of a key.
fn place_of(pairs: &[JxPair], key: &str) -> Option<usize>
    ensures within { IfSome result (λ i. i < length pairs.now) }
    ensures found { IfSome result (λ i. (v : Value) (p : JxPair) → p ≡ slice_index_or pairs.now i p
        → put key.now v (map plain_pair pairs.now) ≡ map plain_pair (take i pairs.now)
        ++ (p.key, v) ∷ map plain_pair (drop (i + 1) pairs.now)) }
    ensures absent { IfNone result ((v : Value) → put key.now v (map plain_pair pairs.now)
        ≡ map plain_pair pairs.now ++ (key.now, v) ∷ []) }
{
    let mut at = 0;
    for pair in pairs {
        if pair.key.as_str() == key {
            return Some(at);
        }
        at += 1;
    }
    None
}

/// The keys of an object that is being built, with their values.
#[derive(Drop)]
pub struct Fields {
    fields: Vec<JxPair>,
    inside: Size,
}

impl Model for Fields {
    ghost use Rattle.std.specs.Prelude.{◌≡◌, List, map};
    ghost use Rattle.std.specs.Coded.{codes};
    ghost use Rattle.jx_syntax.specs.declared.value.JxPair.{JxPair};
    ghost use Rattle.jx_syntax.specs.contracts.value.JxValue as value;
    ghost use Rattle.jx_meaning.specs.Values.{pairs};
    ghost use Rattle.jx_values.specs.Kinds.{plain_pair};
    ghost use Rattle.jx_values.specs.Sizes.{pairs_size};

    ghost Value = { List JxPair };

    ghost coded = { Prim.hlevel (codes, value.the_row.coded) };

    ghost view = { λ f. f.fields.items };

    ghost invariant = { λ f. f.inside ≡ pairs_size (pairs (map plain_pair f.fields.items)) };
}

impl Fields {
    /// No keys.
    pub fn new(alloc: Global) -> Fields
        ensures { result ≡ [] }
    {
        Fields {
            fields: Vec::new(alloc),
            inside: Size::nothing(),
        }
    }

    fn replace(&mut self, at: usize, value: JxValue)
        requires { at < length self.old }
        ensures { ReplacesValue self.old at value self.new }
    {
        self.fields[at].value = value;
        self.inside = pairs_size(self.fields.as_slice());
    }

    fn append(&mut self, key: Text, value: JxValue) -> Result<(), AllocError>
        ensures { OnOk result (self.new ≡ self.old ++ record { key = key; value = value } ∷ []) }
    {
        let inside = self.inside.beside(size_of(&value));
        self.fields.push(JxPair { key, value })?;
        self.inside = inside;
        Ok(())
    }

    fn place(&mut self, key: Text, value: JxValue) -> Result<(), AllocError>
        ensures { OnOk result (map plain_pair self.new
            ≡ put key (plain value) (map plain_pair self.old)) }
    {
        match place_of(self.fields.as_slice(), key.as_str()) {
            Some(at) => {
                self.replace(at, value);
                Ok(())
            }
            None => self.append(key, value),
        }
    }

    /// Gives a key this value, in place of the one that it had, or puts the key at the end, where
    /// the object may have it.
    pub fn put(&mut self, place: usize, key: Text, value: JxValue) -> Result<(), EvalFault>
        ensures { Gives (λ _. map plain_pair self.new) result
            (with_key place key (plain value) (map plain_pair self.old)) }
    {
        self.place(key, value)?;
        if !is_small(self.inside.around()) {
            return Err(EvalFault::TooMuch(place));
        }
        Ok(())
    }

    /// The object of these keys.
    pub fn into_value(self) -> JxValue
        ensures { plain result ≡ of.object (pairs (map plain_pair self)) }
    {
        JxValue::Object(Rows::of(self.fields))
    }
}
