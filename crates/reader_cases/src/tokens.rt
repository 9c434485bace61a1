//! Tokens as words.
use jx_syntax::write_char;
use jx_tokens::{Kind, Token, tokens_of};
use std::alloc::{AllocError, Global};

/// The tokens of a text, each with its place, or its fault.
pub(crate) fn tokens_shown(alloc: Global, text: &[u8]) -> Result<String, AllocError> {
    let tokens = match tokens_of(alloc, text) {
        Ok(tokens) => tokens,
        Err(fault) => return format!(in alloc; "! {fault}"),
    };
    if tokens.as_slice().is_empty() {
        return String::from_str(alloc, "no tokens");
    }
    let mut shown = String::new(alloc);
    for token in tokens.as_slice() {
        if !shown.is_empty() {
            shown.push_str(", ")?;
        }
        add_token(alloc, &mut shown, token)?;
    }
    Ok(shown)
}

fn add_token(alloc: Global, shown: &mut String, token: &Token) -> Result<(), AllocError> {
    let place = token.place;
    let piece = format!(in alloc; "{place} ")?;
    shown.push_str(&piece)?;
    match &token.kind {
        Kind::Number(number) => {
            let number = *number;
            let piece = format!(in alloc; "number {number}")?;
            shown.push_str(&piece)
        }
        Kind::Text(text) => {
            let quoted = quoted(alloc, text.as_str())?;
            shown.push_str("text ")?;
            shown.push_str(&quoted)
        }
        Kind::Name(name) => {
            shown.push_str("name ")?;
            shown.push_str(name.as_str())
        }
        other => shown.push_str(mark_of(other)),
    }
}

/// A text in quotes, with the escapes of a value's text.
pub(crate) fn quoted(alloc: Global, text: &str) -> Result<String, AllocError> {
    let mut shown = String::from_str(alloc, "\"")?;
    for character in text.chars() {
        write_char(&mut shown, character)?;
    }
    shown.push_str("\"")?;
    Ok(shown)
}

fn mark_of(kind: &Kind) -> &'static str {
    match kind {
        Kind::Null => "null",
        Kind::True => "true",
        Kind::False => "false",
        Kind::For => "for",
        Kind::In => "in",
        Kind::If => "if",
        Kind::Or => "or",
        Kind::And => "and",
        Kind::Not => "not",
        Kind::Equal => "==",
        Kind::Unequal => "!=",
        Kind::Less => "<",
        Kind::AtMost => "<=",
        Kind::More => ">",
        Kind::AtLeast => ">=",
        Kind::Plus => "+",
        Kind::Minus => "-",
        Kind::Times => "*",
        Kind::Over => "/",
        Kind::Rest => "%",
        Kind::OpenGroup => "(",
        Kind::CloseGroup => ")",
        Kind::OpenList => "[",
        Kind::CloseList => "]",
        Kind::OpenObject => "{",
        Kind::CloseObject => "}",
        Kind::Comma => ",",
        Kind::Colon => ":",
        _ => "?",
    }
}
