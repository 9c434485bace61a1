//! The tokens of a text.
ghost use Rattle.std.specs.Prelude.{◌≡◌, take};
ghost use Rattle.std.specs.Str.{IsValidUpTo};
ghost use Rattle.jx_tokens.specs.Answers.{FailsAs, Gives};
ghost use Rattle.jx_tokens.specs.Tokens as spec;
ghost use Rattle.jx_tokens.specs.Tokens.{tokens_of, result_of, cut_fault};

use crate::fault::JxFault;
use crate::pieces::front;
use crate::token::{Piece, Token};
use flow_types::Rows;
use std::alloc::Global;
use std::str;

const MOST_BYTES: usize = 16_777_216;

fn scan(alloc: Global, text: &str) -> Result<Vec<Token>, JxFault>
    ensures { let s = spec.scan 0 0 text.now in
        Gives (λ v. v.items) result (result_of s.tokens s.fault) }
{
    let mut tokens = Vec::new(alloc);
    let mut at = 0;
    while at < text.len() {
        match front(alloc, text, at) {
            Ok(piece) => match piece {
                Piece::Gap(len) => at += len,
                Piece::Token(kind, len) => {
                    tokens.push(Token { place: at, kind })?;
                    at += len;
                }
            },
            Err(fault) => return Err(fault),
        }
    }
    Ok(tokens)
}

/// The fault that stands where the text stops being UTF-8 at this place.
pub fn cut_off(fault: JxFault, at: usize) -> JxFault
    ensures { result ≡ spec.cut_off at fault }
{
    match fault {
        JxFault::OpenText(_) => JxFault::NotUtf8(at),
        other => other,
    }
}

/// The fault of a text that stops being UTF-8 at this place.
fn cut(alloc: Global, text: &[u8], at: usize) -> JxFault
    requires { IsValidUpTo text.now at }
    ensures { FailsAs result (cut_fault at (spec.scan 0 0 (take at text.now)).fault) }
{
    match str::from_utf8(&text[..at]) {
        Ok(front) => match scan(alloc, front) {
            Ok(_) => JxFault::NotUtf8(at),
            Err(fault) => cut_off(fault, at),
        },
        Err(_) => JxFault::NotUtf8(at),
    }
}

/// The tokens of a text, in order, or its first fault.
///
/// Blanks and comments separate. A text of more than 16,777,216 bytes isn't read.
pub fn tokens_of(alloc: Global, text: &[u8]) -> Result<Rows<Token>, JxFault>
    ensures { Gives (λ v. v) result (tokens_of text.now) }
{
    if text.len() > MOST_BYTES {
        return Err(JxFault::TooLarge);
    }
    match str::from_utf8(text) {
        Ok(whole) => match scan(alloc, whole) {
            Ok(tokens) => Ok(Rows::of(tokens)),
            Err(fault) => Err(fault),
        },
        Err(stop) => Err(cut(alloc, text, stop.valid_up_to())),
    }
}
