//! JX texts, a line each, as tokens, as expressions, and what they are worth.
use crate::tokens::tokens_shown;
use crate::tree::{nodes_shown, tree_shown};
use crate::worth::{Trouble, back_shown, bound, counted_shown, value_shown};
use jx_meaning::JxScope;
use std::alloc::{AllocError, Global};

// What is asked of this text, answered.
fn read(alloc: Global, ask: &str, text: &[u8]) -> Result<String, AllocError> {
    match ask {
        "tokens" => tokens_shown(alloc, text),
        "tree" => tree_shown(alloc, text),
        "nodes" => nodes_shown(alloc, text),
        _ => String::from_str(alloc, "? no such call"),
    }
}

fn add_read(alloc: Global, shown: &mut String, ask: &str, text: &[u8]) -> Result<(), AllocError> {
    let line = read(alloc, ask, text)?;
    shown.push_str(&line)?;
    shown.push_str("\n")
}

/// The tokens, the tree or the nodes of each line that isn't empty, or of the whole text where
/// `whole` stands behind what is asked.
pub(crate) fn reads_shown(alloc: Global, ask: &str, text: &[u8]) -> Result<String, AllocError> {
    let mut shown = String::new(alloc);
    if let Some(ask) = ask.strip_suffix(" whole") {
        add_read(alloc, &mut shown, ask, text)?;
        return Ok(shown);
    }
    for line in text.split(|byte| *byte == b'\n') {
        if !line.is_empty() {
            add_read(alloc, &mut shown, ask, line)?;
        }
    }
    Ok(shown)
}

// What is asked of this text in a scope, answered.
fn evaluate(alloc: Global, ask: &str, scope: &JxScope, text: &str) -> Result<String, Trouble> {
    match ask {
        "eval" => value_shown(alloc, scope, text),
        "back" => back_shown(alloc, scope, text),
        _ => match ask.strip_prefix("from ") {
            Some(begun) => counted_shown(alloc, scope, text, begun),
            None => Err(Trouble::NoSuchCall),
        },
    }
}

// Puts the answer of a line behind those of the lines before it.
fn add_value(
    alloc: Global,
    shown: &mut String,
    ask: &str,
    scope: &mut JxScope,
    line: &str,
) -> Result<(), AllocError> {
    let answered = match line.strip_prefix("let ") {
        Some(binding) => bound(alloc, scope, binding),
        None => evaluate(alloc, ask, scope, line),
    };
    match answered {
        Ok(text) => shown.push_str(&text)?,
        Err(trouble) => {
            let text = format!(in alloc; "! {trouble}\n")?;
            shown.push_str(&text)?;
        }
    }
    Ok(())
}

/// What each line that isn't empty is worth, where those above it gave names their values.
pub(crate) fn values_shown(alloc: Global, ask: &str, text: &str) -> Result<String, AllocError> {
    let mut shown = String::new(alloc);
    let mut scope = JxScope::new(alloc);
    for line in text.lines() {
        if !line.is_empty() {
            add_value(alloc, &mut shown, ask, &mut scope, line)?;
        }
    }
    Ok(shown)
}
