//! The steps of reading that only add a node or something that waits.
ghost use Rattle.std.specs.Prelude.{◌≡◌, ◌<◌, suc, List, [], ◌∷◌, ◌++◌, length, reverse, IfOk};
ghost use Rattle.std.specs.Prelude.{OnOk, IfErr, Ok};
ghost use Rattle.jx_tokens.specs.declared.fault.JxFault.TheVariants.{Memory};
ghost use Rattle.jx_syntax.specs.Grammar.{Derivation};
ghost use Rattle.jx_syntax.specs.Reading as spec;
ghost use Rattle.jx_syntax.specs.Reading.{Frame, wants, has, depth, opened};
ghost use Rattle.jx_syntax.specs.Tree.{tree_of, form_tree, operands, AreBefore};
ghost use Rattle.jx_syntax.specs.Shown.{IsShown, IsFrame, IsNoName, Steps, trees};

use crate::node::{Form, Node};
use crate::pending::{Pending, Reader, Wanted};
use flow_types::Rows;
use jx_tokens::{JxFault, Kind};

/// How many levels may be open.
const MOST_LEVELS: usize = 128;

/// Puts an item at the end of a list.
pub fn push_row<T: Drop>(rows: &mut Rows<T>, item: T) -> Result<(), JxFault>
    ensures ok { OnOk result (rows.new ≡ rows.old ++ item ∷ []) }
    ensures memory { IfErr result (λ e. e ≡ Memory) }
{
    match rows.push(item) {
        Ok(()) => Ok(()),
        Err(_) => Err(JxFault::Memory),
    }
}

/// The fault of a token that can't stand at this place.
pub fn blamed(place: usize, kind: &Kind) -> JxFault
    ensures { result ≡ spec.blamed place kind.now }
{
    match kind {
        Kind::Number(number) => {
            if *number >= 9_223_372_036_854_775_808 {
                return JxFault::IntTooWide(place);
            }
            JxFault::Unexpected(place)
        }
        _ => JxFault::Unexpected(place),
    }
}

impl Reader {
    /// Adds a node, and tells its index.
    pub fn put(&mut self, place: usize, form: Form) -> Result<usize, JxFault>
        ensures nodes { OnOk result (self.new.nodes.items ≡ self.old.nodes.items
            ++ record { place = place; form = form } ∷ []) }
        ensures index { IfOk result (λ i. i ≡ length self.old.nodes.items) }
        ensures stack { self.new.stack ≡ self.old.stack }
        ensures depth { self.new.depth ≡ self.old.depth }
        ensures memory { IfErr result (λ e. e ≡ Memory) }
    {
        let index = self.nodes.len();
        self.nodes.push(Node { place, form })?;
        Ok(index)
    }

    /// Adds the node of an expression that was read.
    pub fn done(&mut self, place: usize, form: Form) -> Result<Wanted, JxFault>
        ensures shown { (fs : List Frame) (d : Derivation) → IsShown self.old fs
            → self.old.depth ≡ depth fs
            → AreBefore (length self.old.nodes.items) (operands form)
            → form_tree (trees self.old.nodes.items) place form ≡ tree_of d → IsNoName d
            → Steps self.new result (Ok (has fs d)) }
    {
        let index = self.put(place, form)?;
        Ok(Wanted::Behind(index))
    }

    /// Lets something wait for an expression.
    pub fn resume(&mut self, pending: Pending) -> Result<Wanted, JxFault>
        ensures shown { (fs : List Frame) (f : Frame) → IsShown self.old fs
            → self.old.depth ≡ depth (f ∷ fs)
            → IsFrame self.old.nodes.items pending f → Steps self.new result (Ok (wants (f ∷ fs))) }
    {
        self.stack.push(pending)?;
        Ok(Wanted::Operand)
    }

    /// Lets something wait for an expression that stands one level deeper.
    pub fn open(&mut self, place: usize, pending: Pending) -> Result<Wanted, JxFault>
        ensures shown { (fs : List Frame) (f : Frame) → IsShown self.old fs
            → self.old.depth ≡ depth fs
            → depth (f ∷ fs) ≡ suc (depth fs) → IsFrame self.old.nodes.items pending f
            → Steps self.new result (opened 128 (depth fs) place (wants (f ∷ fs))) }
    {
        if self.depth >= MOST_LEVELS {
            return Err(JxFault::TooDeep(place));
        }
        self.depth += 1;
        self.resume(pending)
    }
}
