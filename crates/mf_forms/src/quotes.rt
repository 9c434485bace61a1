//! Quotes: a quotation mark opens one, which ends at the next same mark.
ghost use Rattle.std.specs.Prelude.{◌≡◌, IfOk, string_bytes};
ghost use Rattle.mf_forms.specs.Quotes.{is_quote, is_open_at_end, open_behind, is_bare};
ghost use Rattle.mf_forms.specs.Quotes.{is_mark, place_behind, placed, bare_position};
ghost use Rattle.mf_forms.specs.Quotes.{is_enclosed, unquoted, without_marks};

use flow_types::Memory;
use std::alloc::Global;

/// Whether a quote stays open at the end of the text.
pub fn is_open_at_end(text: &str) -> bool
    ensures { result ≡ is_open_at_end text.now }
{
    text.as_bytes()
        .iter()
        .fold(None, |mark, byte| open_behind(mark, char::from(*byte)))
        .is_some()
}

fn is_quote(c: char) -> bool
    ensures { result ≡ is_quote c }
{
    c == '"' || c == '\''
}

// The mark that is open behind a character.
fn open_behind(mark: Option<char>, c: char) -> Option<char>
    ensures { result ≡ open_behind mark c }
{
    match mark {
        None if is_quote(c) => Some(c),
        Some(open_mark) if c == open_mark => None,
        _ => mark,
    }
}

// Whether a character stands outside quotes, where this mark is open before it.
fn is_bare(mark: Option<char>, c: char) -> bool
    ensures { result ≡ is_bare (place_behind mark c) }
{
    mark.is_none() && !is_quote(c)
}

// Whether a character opens or closes a quote, where this mark is open before it.
fn is_mark(mark: Option<char>, c: char) -> bool
    ensures { result ≡ is_mark (place_behind mark c) }
{
    match mark {
        None => is_quote(c),
        Some(open_mark) => c == open_mark,
    }
}

/// The place of the first of these bytes that stands outside quotes, the text's end where there
/// is none.
pub(crate) fn bare_position(text: &str, wanted: &[u8]) -> usize
    ensures { result ≡ bare_position wanted.now text.now }
{
    let mut mark = None;
    for (at, byte) in text.as_bytes().iter().enumerate() {
        let c = char::from(*byte);
        if is_bare(mark, c) && wanted.contains(byte) {
            return at;
        }
        mark = open_behind(mark, c);
    }
    text.len()
}

/// The text without its quotation marks.
pub(crate) fn without_marks(alloc: Global, text: &str) -> Result<String, Memory>
    ensures { IfOk result (λ kept. string_bytes kept ≡ without_marks (placed text.now)) }
{
    let mut kept = String::new(alloc);
    let mut mark = None;
    for c in text.chars() {
        if !is_mark(mark, c) && kept.push(c).is_err() {
            return Err(Memory);
        }
        mark = open_behind(mark, c);
    }
    Ok(kept)
}

fn is_enclosed(text: &[u8]) -> bool
    ensures { result ≡ is_enclosed text.now }
{
    text.len() > 1 && is_quote(char::from(text[0])) && text[0] == text[text.len() - 1]
}

/// The text without one pair of equal quotation marks that encloses it.
pub(crate) fn unquoted(text: &str) -> &str
    ensures { result.now ≡ unquoted text.now }
{
    if is_enclosed(text.as_bytes()) {
        &text[1..text.len() - 1]
    } else {
        text
    }
}
