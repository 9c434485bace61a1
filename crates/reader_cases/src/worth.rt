//! What a text is worth in a scope.
use flow_types::Memory;
use jx_eval::{eval, eval_counted};
use jx_meaning::{EvalFault, JxScope};
use jx_syntax::{JxValue, parse, value_text};
use jx_tokens::JxFault;
use jx_values::{Texts, are_equal};
use std::alloc::{AllocError, Global};
use thiserror::Error;

// A value's text of more bytes is shown by their number.
const MOST_SHOWN: usize = 400;

/// Why a line has no value.
#[derive(Debug, Drop, Error)]
pub(crate) enum Trouble {
    /// The text is no expression.
    #[error("{0}")]
    Syntax(JxFault),
    /// The expression has no value.
    #[error("{0}")]
    Evaluation(EvalFault),
    /// The line binds no name.
    #[error("no binding")]
    NoBinding,
    /// The title asks nothing that there is.
    #[error("no such call")]
    NoSuchCall,
    /// Want of memory.
    #[error("out of memory")]
    Memory,
}

impl From<JxFault> for Trouble {
    fn from(fault: JxFault) -> Trouble {
        Trouble::Syntax(fault)
    }
}

impl From<EvalFault> for Trouble {
    fn from(fault: EvalFault) -> Trouble {
        Trouble::Evaluation(fault)
    }
}

impl From<Memory> for Trouble {
    fn from(_: Memory) -> Trouble {
        Trouble::Memory
    }
}

impl From<AllocError> for Trouble {
    fn from(_: AllocError) -> Trouble {
        Trouble::Memory
    }
}

fn worth(alloc: Global, scope: &JxScope, text: &[u8]) -> Result<JxValue, Trouble> {
    let expr = parse(alloc, text)?;
    Ok(eval(alloc, &expr, scope)?)
}

// The text of a value, or how long it is.
fn shown(alloc: Global, value: &JxValue) -> Result<String, Trouble> {
    let text = value_text(alloc, value)?.into_string();
    let count = text.len();
    if count > MOST_SHOWN {
        return Ok(format!(in alloc; "{count} bytes")?);
    }
    Ok(text)
}

/// The value of a text.
pub(crate) fn value_shown(alloc: Global, scope: &JxScope, text: &str) -> Result<String, Trouble> {
    let value = worth(alloc, scope, text.as_bytes())?;
    let shown = shown(alloc, &value)?;
    Ok(format!(in alloc; "{shown}\n")?)
}

/// The value of a text, and whether the value's text is worth it again.
pub(crate) fn back_shown(alloc: Global, scope: &JxScope, text: &str) -> Result<String, Trouble> {
    let value = worth(alloc, scope, text.as_bytes())?;
    let written = value_text(alloc, &value)?;
    let shown = shown(alloc, &value)?;
    let names = JxScope::new(alloc);
    let back = worth(alloc, &names, written.as_str().as_bytes())?;
    let again = value_text(alloc, &back)?;
    let is_same = are_equal(&value, &back) && written.as_str() == again.as_str();
    let told = if is_same { "back" } else { "lost" };
    Ok(format!(in alloc; "{shown} {told}\n")?)
}

/// The value of a text and the number of nodes begun by then, where so many were begun before.
pub(crate) fn counted_shown(
    alloc: Global,
    scope: &JxScope,
    text: &str,
    begun: &str,
) -> Result<String, Trouble> {
    let Ok(begun) = begun.parse::<u32>() else {
        return Err(Trouble::NoSuchCall);
    };
    let expr = parse(alloc, text.as_bytes())?;
    let whole = expr.nodes().len() - 1;
    let texts = Texts::new();
    let (value, count) = eval_counted(alloc, &expr, whole, scope, begun, &texts)?;
    let shown = shown(alloc, &value)?;
    Ok(format!(in alloc; "{shown}, {count} begun\n")?)
}

/// Gives a name the value of a text; `NAME = TEXT` is the binding. It is answered by nothing.
pub(crate) fn bound(alloc: Global, scope: &mut JxScope, binding: &str) -> Result<String, Trouble> {
    let Some((name, text)) = binding.split_once(" = ") else {
        return Err(Trouble::NoBinding);
    };
    let value = worth(alloc, scope, text.as_bytes())?;
    scope.set(name, value)?;
    Ok(String::new(alloc))
}
