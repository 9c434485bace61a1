//! What stands at the front of a text.
ghost use Rattle.std.specs.Prelude.{◌≡◌, ◌≤◌, ◌<◌, ◌+◌, length, drop, IfOk};
ghost use Rattle.jx_tokens.specs.Answers.{Gives};
ghost use Rattle.jx_tokens.specs.Tokens as spec;
ghost use Rattle.jx_tokens.specs.Tokens.{size};

use crate::bytes::{begins_name, byte_at, is_blank, line_end};
use crate::content::literal;
use crate::fault::JxFault;
use crate::number::number;
use crate::symbol::mark;
use crate::token::Piece;
use crate::word::name;
use std::alloc::Global;

/// The gap or the token that begins at this place.
#[tactic(auto, unfolding(crate::specs::Tokens::front))]
pub fn front(alloc: Global, text: &str, at: usize) -> Result<Piece, JxFault>
    requires { at < length text.now }
    ensures value { Gives (λ p. p) result (spec.front at (drop at text.now)) }
    ensures size { IfOk result (λ p. (0 < size p) × (at + size p ≤ length text.now)) }
{
    let bytes = text.as_bytes();
    let first = bytes[at];
    if is_blank(first) {
        return Ok(Piece::Gap(1));
    }
    if first == b'#' {
        return Ok(Piece::Gap(line_end(bytes, at) - at));
    }
    if first.is_ascii_digit() {
        return number(bytes, at);
    }
    if begins_name(first) {
        return name(alloc, text, at);
    }
    if first == b'"' {
        return literal(alloc, text, at);
    }
    match mark(first, byte_at(bytes, at + 1)) {
        Some(piece) => Ok(piece),
        None => Err(JxFault::Unexpected(at)),
    }
}
