//! Marks.
ghost use Rattle.std.specs.Prelude.{◌≡◌, ◌<◌, ◌⊎◌, IfSome, OnSome};
ghost use Rattle.jx_tokens.specs.Tokens as spec;
ghost use Rattle.jx_tokens.specs.Tokens.{size};

use crate::token::{Kind, Piece};

/// A mark of one byte.
fn single(b: u8) -> Option<Kind>
    ensures { result ≡ spec.single b }
{
    match b {
        b'(' => Some(Kind::OpenGroup),
        b')' => Some(Kind::CloseGroup),
        b'[' => Some(Kind::OpenList),
        b']' => Some(Kind::CloseList),
        b'{' => Some(Kind::OpenObject),
        b'}' => Some(Kind::CloseObject),
        b',' => Some(Kind::Comma),
        b':' => Some(Kind::Colon),
        b'+' => Some(Kind::Plus),
        b'-' => Some(Kind::Minus),
        b'*' => Some(Kind::Times),
        b'/' => Some(Kind::Over),
        b'%' => Some(Kind::Rest),
        _ => None,
    }
}

/// A mark of two bytes.
fn double(b: u8, next: u8) -> Option<Kind>
    ensures value { result ≡ spec.double b next }
    ensures next { OnSome result (0 < next) }
{
    if b == b'|' && next == b'|' {
        Some(Kind::Or)
    } else if b == b'&' && next == b'&' {
        Some(Kind::And)
    } else if b == b'=' && next == b'=' {
        Some(Kind::Equal)
    } else if b == b'!' && next == b'=' {
        Some(Kind::Unequal)
    } else if b == b'<' && next == b'=' {
        Some(Kind::AtMost)
    } else if b == b'>' && next == b'=' {
        Some(Kind::AtLeast)
    } else {
        None
    }
}

/// A mark of one byte that also begins a longer one.
fn shorter(b: u8) -> Option<Kind>
    ensures { result ≡ spec.shorter b }
{
    match b {
        b'!' => Some(Kind::Not),
        b'<' => Some(Kind::Less),
        b'>' => Some(Kind::More),
        _ => None,
    }
}

/// The longest mark that begins with these bytes.
#[tactic(auto, unfolding(crate::specs::Tokens::mark))]
pub fn mark(b: u8, next: u8) -> Option<Piece>
    ensures value { result ≡ spec.mark b next }
    ensures size { IfSome result (λ p. (size p ≡ 1) ⊎ ((size p ≡ 2) × (0 < next))) }
{
    if let Some(kind) = single(b) {
        return Some(Piece::Token(kind, 1));
    }
    if let Some(kind) = double(b, next) {
        return Some(Piece::Token(kind, 2));
    }
    let kind = shorter(b)?;
    Some(Piece::Token(kind, 1))
}
