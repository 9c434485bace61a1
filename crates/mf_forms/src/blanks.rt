//! Blanks, and the words between them. A blank is a space or a tab.
ghost use Rattle.std.specs.Prelude.{◌≡◌, ◌<◌, IfOk, MatchOption, IfSome, is_some};
ghost use Rattle.std.specs.Prelude.{slice_index, [], ◌∷◌, length, ◌-◌, take, drop};
ghost use Rattle.std.specs.List.{prefix_len, suffix_len, position_or_len};
ghost use Rattle.mf_forms.specs.Forms.{begins_with_word};
ghost use Rattle.mf_forms.specs.Words.{is_blank, without_front, without_end};
ghost use Rattle.mf_forms.specs.Words.{trimmed, words, first_word, behind_word};

use flow_types::{Memory, Rows, Text};
use std::alloc::Global;

/// The words of a text, which blanks part.
pub fn words(alloc: Global, text: &str) -> Result<Rows<Text>, Memory>
    ensures { IfOk result (λ found. found ≡ words text.now) }
{
    let mut found = Rows::new(alloc);
    let mut rest = text;
    while let Some((word, behind)) = next_word(rest) {
        if found.push(Text::of(alloc, word)?).is_err() {
            return Err(Memory);
        }
        rest = behind;
    }
    Ok(found)
}

// The first word and what follows it, none where there is no word.
fn next_word(text: &str) -> Option<(&str, &str)>
    ensures words { MatchOption result
        (words text.now ≡ []) (λ x. words text.now ≡ x.0.now ∷ words x.1.now) }
    ensures shorter { MatchOption result
        (words text.now ≡ []) (λ x. length x.1.now < length text.now) }
{
    let (word, rest) = split_word(text);
    if word.is_empty() {
        None
    } else {
        Some((word, rest))
    }
}

/// The first byte, 0 in an empty text.
pub(crate) fn first_byte(text: &str) -> u8
    ensures { result ≡ slice_index text.now 0 }
{
    text.as_bytes().first().copied().unwrap_or(0)
}

/// What follows this word at the text's front and the blanks behind it, none where the text
/// begins otherwise.
pub(crate) fn behind<'a>(text: &'a str, word: &str) -> Option<&'a str>
    ensures begins { is_some result ≡ begins_with_word word.now text.now }
    ensures rest { IfSome result (λ rest. rest.now ≡ behind_word text.now) }
{
    let (first, rest) = split_word(text);
    if is_blank(first_byte(text)) || first != word {
        None
    } else {
        Some(without_front(rest))
    }
}

// Whether a byte is a space or a tab.
fn is_blank(byte: u8) -> bool
    ensures { result ≡ is_blank byte }
{
    b" \t".contains(&byte)
}

// How many blanks stand at the front.
fn front_len(text: &str) -> usize
    ensures { result ≡ prefix_len is_blank text.now }
{
    text.as_bytes()
        .iter()
        .take_while(|byte| is_blank(**byte))
        .count()
}

// How many bytes stand before the first blank.
fn word_len(text: &str) -> usize
    ensures { result ≡ position_or_len is_blank text.now }
{
    text.as_bytes()
        .iter()
        .take_while(|byte| !is_blank(**byte))
        .count()
}

// How many blanks stand at the end.
fn end_len(text: &str) -> usize
    ensures { result ≡ suffix_len is_blank text.now }
{
    text.as_bytes()
        .iter()
        .rev()
        .take_while(|byte| is_blank(**byte))
        .count()
}

/// The text without the blanks at its front.
pub(crate) fn without_front(text: &str) -> &str
    ensures { result.now ≡ without_front text.now }
{
    text.split_at(front_len(text)).1
}

/// The text without the blanks at its end.
pub(crate) fn without_end(text: &str) -> &str
    ensures { result.now ≡ without_end text.now }
{
    let blanks = end_len(text);
    text.split_at(text.len() - blanks).0
}

/// The text without the blanks at both ends.
pub(crate) fn trimmed(text: &str) -> &str
    ensures { result.now ≡ trimmed text.now }
{
    without_end(without_front(text))
}

/// The first word, and what follows it.
pub(crate) fn split_word(text: &str) -> (&str, &str)
    ensures word { result.0.now ≡ first_word text.now }
    ensures rest { result.1.now ≡ drop (length (first_word text.now)) (without_front text.now) }
{
    let rest = without_front(text);
    rest.split_at(word_len(rest))
}
