//! One step of reading.
ghost use Rattle.std.specs.Prelude.{◌≡◌, ℕ, List};
ghost use Rattle.jx_syntax.specs.declared.pending.Wanted.TheVariants as wanted;
ghost use Rattle.jx_syntax.specs.Reading.{State, step};
ghost use Rattle.jx_syntax.specs.Shown.{IsState, Steps};

use crate::node::{Field, Form, Item};
use crate::pending::{Part, Pending, Reader, Wanted};
use crate::reader::blamed;
use flow_types::{Rows, Text};
use jx_tokens::{JxFault, Kind};

impl Reader {
    /// A token behind a name.
    #[tactic(auto, using(crate::proofs::Nodes::shows_more, crate::proofs::Nodes::last_new))]
    fn named(&mut self, at: usize, name: Text, place: usize, kind: Kind) -> Result<Wanted, JxFault>
        ensures shown { (st : State) → IsState self.old (wanted.Named at name) st
            → Steps self.new result (step 128 st (record { place = place; kind = kind })) }
    {
        match kind {
            Kind::OpenGroup => {
                let arguments = Rows::new(self.alloc);
                self.open(place, Pending::Argued(at, name, arguments))
            }
            other => {
                let operand = self.put(at, Form::Name(name))?;
                self.behind(operand, place, other)
            }
        }
    }

    /// A token where a key is wanted.
    fn key(
        &mut self,
        at: usize,
        fields: Rows<Field>,
        place: usize,
        kind: Kind,
    ) -> Result<Wanted, JxFault>
        ensures shown { (st : State) → IsState self.old (wanted.Key at fields) st
            → Steps self.new result (step 128 st (record { place = place; kind = kind })) }
    {
        match kind {
            Kind::Text(key) => Ok(Wanted::Colon(at, fields, key)),
            Kind::CloseObject => {
                self.depth = self.depth.saturating_sub(1);
                self.done(at, Form::Object(fields))
            }
            other => Err(blamed(place, &other)),
        }
    }

    /// A token where the colon behind a key is wanted.
    fn colon(
        &mut self,
        at: usize,
        fields: Rows<Field>,
        key: Text,
        place: usize,
        kind: Kind,
    ) -> Result<Wanted, JxFault>
        ensures shown { (st : State) → IsState self.old (wanted.Colon at fields key) st
            → Steps self.new result (step 128 st (record { place = place; kind = kind })) }
    {
        match kind {
            Kind::Colon => self.resume(Pending::Keyed(at, fields, key)),
            other => Err(blamed(place, &other)),
        }
    }

    /// A token where the name of a loop is wanted.
    fn loop_name(
        &mut self,
        at: usize,
        items: Rows<Item>,
        item: Item,
        start: usize,
        place: usize,
        kind: Kind,
    ) -> Result<Wanted, JxFault>
        ensures shown { (st : State) → IsState self.old (wanted.LoopName at items item start) st
            → Steps self.new result (step 128 st (record { place = place; kind = kind })) }
    {
        match kind {
            Kind::Name(name) => Ok(Wanted::In(at, items, item, start, name)),
            other => Err(blamed(place, &other)),
        }
    }

    /// A token where the `in` of a loop is wanted.
    fn loop_in(
        &mut self,
        at: usize,
        items: Rows<Item>,
        item: Item,
        start: usize,
        name: Text,
        place: usize,
        kind: Kind,
    ) -> Result<Wanted, JxFault>
        ensures shown { (st : State) → IsState self.old (wanted.In at items item start name) st
            → Steps self.new result (step 128 st (record { place = place; kind = kind })) }
    {
        match kind {
            Kind::In => {
                let part = Part::Over(item, start, name);
                self.resume(Pending::Listed(at, items, part))
            }
            other => Err(blamed(place, &other)),
        }
    }

    /// Reads one token.
    pub fn step(&mut self, wanted: Wanted, place: usize, kind: Kind) -> Result<Wanted, JxFault>
        ensures shown { (st : State) → IsState self.old wanted st
            → Steps self.new result (step 128 st (record { place = place; kind = kind })) }
    {
        match wanted {
            Wanted::Operand => self.operand(place, kind),
            Wanted::Named(at, name) => self.named(at, name, place, kind),
            Wanted::Behind(operand) => self.behind(operand, place, kind),
            Wanted::Key(at, fields) => self.key(at, fields, place, kind),
            Wanted::Colon(at, fields, key) => self.colon(at, fields, key, place, kind),
            Wanted::LoopName(at, items, item, start) => {
                self.loop_name(at, items, item, start, place, kind)
            }
            Wanted::In(at, items, item, start, name) => {
                self.loop_in(at, items, item, start, name, place, kind)
            }
        }
    }
}
