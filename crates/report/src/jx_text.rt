//! Why a JX text is refused, in words.
ghost use Rattle.std.specs.Prelude.{◌≡◌, ◌++◌, codes, IfOk};
ghost use Rattle.std.specs.Fmt.{decimal};
ghost use Rattle.report.specs.Lines.{evaluation_at, evaluation_text};
ghost use Rattle.report.specs.Lines.{jx_text, syntax_at, syntax_text};

use crate::text::around;
use jx_flow::JxFlowFault;
use jx_meaning::EvalFault;
use jx_tokens::JxFault;
use std::alloc::{AllocError, Global};

// A place at which a text is no expression.
fn syntax_at(alloc: Global, at: usize) -> Result<Vec<u8>, AllocError>
    ensures { IfOk result (λ text. text.items ≡ syntax_at at) }
{
    let text = format!(in alloc; "syntax fault at {at}")?;
    Ok(text.into_bytes())
}

// Why a text is no expression.
fn syntax_text(alloc: Global, fault: JxFault) -> Result<Vec<u8>, AllocError>
    ensures { IfOk result (λ text. text.items ≡ syntax_text fault) }
{
    match fault {
        JxFault::NotUtf8(at)
        | JxFault::Unexpected(at)
        | JxFault::OpenText(at)
        | JxFault::FloatUnsupported(at)
        | JxFault::IntTooWide(at)
        | JxFault::TooDeep(at) => syntax_at(alloc, at),
        JxFault::TooLarge => Vec::from_slice(alloc, b"too large"),
        JxFault::Memory => Vec::from_slice(alloc, b"out of memory"),
    }
}

// A place at which a text has no value.
fn evaluation_at(alloc: Global, at: usize) -> Result<Vec<u8>, AllocError>
    ensures { IfOk result (λ text. text.items ≡ evaluation_at at) }
{
    let text = format!(in alloc; "evaluation fault at {at}")?;
    Ok(text.into_bytes())
}

// Why a part of a text has no value.
fn evaluation_text(alloc: Global, fault: EvalFault) -> Result<Vec<u8>, AllocError>
    ensures { IfOk result (λ text. text.items ≡ evaluation_text fault) }
{
    match fault {
        EvalFault::UnknownName(at)
        | EvalFault::WrongKind(at)
        | EvalFault::Overflow(at)
        | EvalFault::ZeroDivisor(at)
        | EvalFault::IndexRange(at)
        | EvalFault::NoSuchKey(at)
        | EvalFault::BadMark(at)
        | EvalFault::ArgCount(at)
        | EvalFault::TooMuch(at) => evaluation_at(alloc, at),
        EvalFault::Memory => Vec::from_slice(alloc, b"out of memory"),
    }
}

/// Why a JX text says no flow.
pub(crate) fn jx_text(alloc: Global, fault: &JxFlowFault) -> Result<Vec<u8>, AllocError>
    ensures { IfOk result (λ text. text.items ≡ jx_text fault.now) }
{
    match fault {
        JxFlowFault::Syntax(fault) => syntax_text(alloc, *fault),
        JxFlowFault::Evaluation(fault) => evaluation_text(alloc, *fault),
        JxFlowFault::MissingField { field, .. } => {
            around(alloc, b"missing field ", field.as_str().as_bytes(), b"")
        }
        JxFlowFault::FieldKind { field, .. } => {
            around(alloc, b"bad field ", field.as_str().as_bytes(), b"")
        }
        JxFlowFault::UnknownCategory(_) => Vec::from_slice(alloc, b"unknown category"),
        JxFlowFault::TooLarge(_) => Vec::from_slice(alloc, b"too large"),
        JxFlowFault::Memory => Vec::from_slice(alloc, b"out of memory"),
    }
}
