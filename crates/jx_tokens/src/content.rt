//! Texts in quotes.
ghost use Rattle.std.specs.Prelude.{◌≡◌, ◌≤◌, ◌<◌, ◌+◌, ◌^◌, length, drop};
ghost use Rattle.std.specs.Prelude.{slice_index, string_bytes, false, IfSome, IfOk};
ghost use Rattle.jx_tokens.specs.Answers.{Gives};
ghost use Rattle.jx_tokens.specs.Texts as spec;
ghost use Rattle.jx_tokens.specs.Tokens.{literal, size};

use crate::bytes::plain_end;
use crate::escape::escape;
use crate::fault::JxFault;
use crate::token::{Kind, Piece};
use flow_types::Text;
use std::alloc::Global;

/// How many bytes stand before the closing quote.
fn closing(bytes: &[u8]) -> Option<usize>
    ensures value { result ≡ spec.closing false bytes.now }
    ensures within { IfSome result (λ n. n < length bytes.now) }
    ensures quote { IfSome result (λ n. slice_index bytes.now n ≡ 34) }
{
    let mut hidden = false;
    for at in 0..bytes.len() {
        let b = bytes[at];
        if hidden {
            hidden = false;
        } else if b == b'"' {
            return Some(at);
        } else {
            hidden = b == b'\\';
        }
    }
    None
}

/// What these bytes between quotes hold, the first of them at this place.
fn content(alloc: Global, body: &str, at: usize) -> Result<String, JxFault>
    requires { at + length body.now < 2 ^ 64 }
    ensures { Gives (λ s. string_bytes s) result (spec.content 0 at body.now) }
{
    let bytes = body.as_bytes();
    let mut held = String::new(alloc);
    let mut done = 0;
    while done < bytes.len() {
        let stop = plain_end(bytes, done);
        held.push_str(&body[done..stop])?;
        done = stop;
        if stop < bytes.len() {
            if bytes[stop] != b'\\' {
                return Err(JxFault::Unexpected(at + stop));
            }
            match escape(&bytes[stop + 1..]) {
                Some((c, len)) => {
                    held.push(c)?;
                    done = stop + 1 + len;
                }
                None => return Err(JxFault::Unexpected(at + stop)),
            }
        }
    }
    Ok(held)
}

/// The text whose opening quote stands here.
#[tactic(auto, unfolding(crate::specs::Tokens::literal))]
pub fn literal(alloc: Global, text: &str, at: usize) -> Result<Piece, JxFault>
    requires within { at < length text.now }
    requires quote { slice_index text.now at ≡ 34 }
    ensures value { Gives (λ p. p) result (literal at (drop (at + 1) text.now)) }
    ensures size { IfOk result (λ p. (0 < size p) × (at + size p ≤ length text.now)) }
{
    let Some(len) = closing(&text.as_bytes()[at + 1..]) else {
        return Err(JxFault::OpenText(at));
    };
    match content(alloc, &text[at + 1..at + 1 + len], at + 1) {
        Ok(held) => Ok(Piece::Token(Kind::Text(Text::from_string(held)), len + 2)),
        Err(fault) => Err(fault),
    }
}
