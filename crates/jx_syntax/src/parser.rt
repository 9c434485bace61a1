//! Texts as expressions.
ghost use Rattle.std.specs.Prelude.{◌≡◌, ◌⊎◌, List, [], length, take, IfOk, IfErr, Ok, Err};
ghost use Rattle.std.specs.Str.{IsValidUpTo};
ghost use Rattle.jx_tokens.specs.declared.fault.JxFault.{JxFault};
ghost use Rattle.jx_tokens.specs.declared.fault.JxFault.TheVariants.{Memory};
ghost use Rattle.jx_tokens.specs.Answers.{FailsAs, Gives};
ghost use Rattle.jx_tokens.specs.Tokens.{scan, scan_of};
ghost use Rattle.jx_syntax.specs.Grammar.{Derivation, IsWritten, IsNoExpression};
ghost use Rattle.jx_syntax.specs.Reading.{Frame, State, wants, has, finished, parsed, reading};
ghost use Rattle.jx_syntax.specs.Reading.{cut_reading};
ghost use Rattle.jx_syntax.specs.Tree.{tree_of, expression_of};
ghost use Rattle.jx_syntax.specs.Shown.{IsState, IsReduced, IsRead, IsExpression};

use crate::expr::{Expr, expr_of};
use crate::node::Form;
use crate::pending::{Reader, Wanted};
use jx_tokens::{JxFault, Piece, cut_off, front};
use std::alloc::Global;
use std::str;

const MOST_BYTES: usize = 16_777_216;

impl Reader {
    /// Ends a text of so many bytes behind the expression of this node.
    fn whole(self, operand: usize, len: usize) -> Result<Expr, JxFault>
        requires state { (fs : List Frame) × (x : Derivation) × IsReduced self operand (fs, x) }
        ensures shown { (fs : List Frame) (x : Derivation) → IsReduced self operand (fs, x)
            → IsExpression result (finished len (has fs x)) }
    {
        let mut reader = self;
        reader.reduced(1, operand)?;
        if !reader.stack.is_empty() {
            return Err(JxFault::Unexpected(len));
        }
        Ok(expr_of(reader.nodes))
    }

    /// Ends a text of so many bytes.
    fn finish(self, wanted: Wanted, len: usize) -> Result<Expr, JxFault>
        requires state { (st : State) × IsState self wanted st }
        ensures shown { (st : State) → IsState self wanted st
            → IsExpression result (finished len st) }
    {
        let mut reader = self;
        match wanted {
            Wanted::Behind(operand) => reader.whole(operand, len),
            Wanted::Named(at, name) => {
                let operand = reader.put(at, Form::Name(name))?;
                reader.whole(operand, len)
            }
            _ => Err(JxFault::Unexpected(len)),
        }
    }
}

/// Reads the tokens of a text.
fn read(alloc: Global, text: &str) -> Result<(Reader, Wanted), JxFault>
    ensures { IsRead result (reading (wants []) (scan 0 0 text.now)) }
{
    let mut reader = Reader {
        alloc,
        nodes: Vec::new(alloc),
        stack: Vec::new(alloc),
        depth: 0,
    };
    let mut wanted = Wanted::Operand;
    let mut at = 0;
    while at < text.len() {
        match front(alloc, text, at) {
            Ok(piece) => match piece {
                Piece::Gap(len) => at += len,
                Piece::Token(kind, len) => {
                    wanted = reader.step(wanted, at, kind)?;
                    at += len;
                }
            },
            Err(fault) => return Err(fault),
        }
    }
    Ok((reader, wanted))
}

/// The fault of a text that stops being UTF-8 at this place.
fn cut(alloc: Global, text: &[u8], at: usize) -> JxFault
    requires { IsValidUpTo text.now at }
    ensures { FailsAs result (cut_reading at (scan 0 0 (take at text.now))) }
{
    match str::from_utf8(&text[..at]) {
        Ok(front) => match read(alloc, front) {
            Ok(_) => JxFault::NotUtf8(at),
            Err(fault) => cut_off(fault, at),
        },
        Err(_) => JxFault::NotUtf8(at),
    }
}

/// A text of at most so many bytes.
fn parsed(alloc: Global, text: &[u8]) -> Result<Expr, JxFault>
    ensures { IsExpression result (parsed (length text.now) (scan_of text.now)) }
{
    if text.len() > MOST_BYTES {
        return Err(JxFault::TooLarge);
    }
    match str::from_utf8(text) {
        Ok(whole) => {
            let (reader, wanted) = read(alloc, whole)?;
            reader.finish(wanted, text.len())
        }
        Err(stop) => Err(cut(alloc, text, stop.valid_up_to())),
    }
}

/// The expression of a text, or its first fault.
///
/// A text of more than 16,777,216 bytes isn't read, and no more than 128 levels may be open at
/// once.
pub fn parse(alloc: Global, text: &[u8]) -> Result<Expr, JxFault>
    // What is read is what is written.
    ensures found { IfOk result (λ e. (d : Derivation) × IsWritten text.now d
        × (expression_of e ≡ tree_of d)) }
    // What is written is read, unless memory runs out.
    ensures written { (d : Derivation) → IsWritten text.now d
        → Gives expression_of result (Ok (tree_of d)) }
    // A fault is why the text is no expression, or want of memory.
    ensures fault { IfErr result (λ e. (e ≡ Memory) ⊎ IsNoExpression text.now e) }
    // A text that is no expression is refused for that reason, unless memory runs out.
    ensures refused { (e : JxFault) → IsNoExpression text.now e
        → Gives expression_of result (Err e) }
    // Either is what reading the tokens one by one comes to.
    ensures read { IsExpression result (parsed (length text.now) (scan_of text.now)) }
{
    parsed(alloc, text)
}
