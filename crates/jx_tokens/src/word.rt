//! Names and reserved words.
ghost use Rattle.std.specs.Prelude.{◌≡◌, ◌<◌, ◌≤◌, ◌+◌, length, drop};
ghost use Rattle.std.specs.Prelude.{slice_index, IsTrue, Ok, IfOk};
ghost use Rattle.jx_tokens.specs.Answers.{Gives};
ghost use Rattle.jx_tokens.specs.Bytes.{begins_name};
ghost use Rattle.jx_tokens.specs.Tokens as spec;
ghost use Rattle.jx_tokens.specs.Tokens.{size};

use crate::bytes::word_end;
use crate::fault::JxFault;
use crate::token::{Kind, Piece};
use flow_types::Text;
use std::alloc::Global;

/// A reserved word, or a name.
#[tactic(auto, unfolding(crate::specs::Tokens::word))]
fn word(alloc: Global, word: &str) -> Result<Kind, JxFault>
    ensures { Gives (λ k. k) result (Ok (spec.word word.now)) }
{
    match word {
        "null" => Ok(Kind::Null),
        "true" => Ok(Kind::True),
        "false" => Ok(Kind::False),
        "for" => Ok(Kind::For),
        "in" => Ok(Kind::In),
        "if" => Ok(Kind::If),
        "and" => Ok(Kind::And),
        "or" => Ok(Kind::Or),
        "not" => Ok(Kind::Not),
        _ => Ok(Kind::Name(Text::of(alloc, word)?)),
    }
}

/// The longest word from this place on.
#[tactic(auto, unfolding(crate::specs::Tokens::name))]
pub fn name(alloc: Global, text: &str, at: usize) -> Result<Piece, JxFault>
    requires within { at < length text.now }
    requires begins { IsTrue (begins_name (slice_index text.now at)) }
    ensures value { Gives (λ p. p) result (Ok (spec.name (drop at text.now))) }
    ensures size { IfOk result (λ p. (0 < size p) × (at + size p ≤ length text.now)) }
{
    let end = word_end(text.as_bytes(), at);
    let kind = word(alloc, &text[at..end])?;
    Ok(Piece::Token(kind, end - at))
}
