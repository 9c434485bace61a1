//! Lines that set variables or mark their names.
ghost use Rattle.std.specs.Prelude.{◌≡◌, IfOk, OnOk, is_some, IfSome, map, length, drop};
ghost use Rattle.std.specs.List.{list_all};
ghost use Rattle.std.specs.Option.{option_map};
ghost use Rattle.mf_text.specs.Names.{is_variable};
ghost use Rattle.mf_forms.specs.Forms.{leading_name, behind_sign};
ghost use Rattle.mf_forms.specs.Forms.{as_assignment, as_marking, as_export};

use crate::blanks::{behind, trimmed, without_front, words};
use crate::form::Form;
use crate::quotes::unquoted;
use flow_types::{Memory, Text};
use mf_text::{is_variable, name_len};
use std::alloc::Global;

/// A text read as `NAME=value` or `NAME+=value`, none where it is none of them.
pub(crate) fn as_assignment(alloc: Global, marks: bool, text: &str) -> Result<Option<Form>, Memory>
    ensures { IfOk result (λ form. form ≡ as_assignment marks text.now) }
{
    let Some((name, rest)) = split_name(text) else {
        return Ok(None);
    };
    let Some((appends, value)) = behind_sign(without_front(rest)) else {
        return Ok(None);
    };
    let name = Text::of(alloc, name)?;
    let value = Text::of(alloc, unquoted(trimmed(value)))?;
    Ok(Some(Form::Assignment {
        marks,
        name,
        appends,
        value,
    }))
}

// The name that a text begins with, and what follows it.
fn split_name(text: &str) -> Option<(&str, &str)>
    ensures begins { is_some result ≡ is_variable (leading_name text.now) }
    ensures name { IfSome result (λ x. x.0.now ≡ leading_name text.now) }
    ensures rest { IfSome result (λ x. x.1.now ≡ drop (length (leading_name text.now)) text.now) }
{
    match name_len(text) {
        Some(len) => Some(text.split_at(len)),
        None => None,
    }
}

// Whether the sign at the front puts a value behind the old one, and what follows the sign.
fn behind_sign(text: &str) -> Option<(bool, &str)>
    ensures { option_map (λ x. (x.0, x.1.now)) result ≡ behind_sign text.now }
{
    if let Some(value) = text.strip_prefix('=') {
        return Some((false, value));
    }
    let Some(rest) = text.strip_prefix('+') else {
        return None;
    };
    match rest.strip_prefix('=') {
        Some(value) => Some((true, value)),
        None => None,
    }
}

/// A text read as `export NAME=value`, or `export` and names.
pub(crate) fn as_export(alloc: Global, text: &str) -> Result<Option<Form>, Memory>
    ensures { IfOk result (λ form. form ≡ as_export text.now) }
{
    let Some(rest) = behind(text, "export") else {
        return Ok(None);
    };
    match as_assignment(alloc, true, rest)? {
        Some(form) => Ok(Some(form)),
        None => as_marking(alloc, rest),
    }
}

// A text read as names alone.
fn as_marking(alloc: Global, text: &str) -> Result<Option<Form>, Memory>
    ensures { IfOk result (λ form. form ≡ as_marking text.now) }
{
    let names = words(alloc, text)?;
    if names.is_empty() || !all_variables(names.as_slice()) {
        Ok(None)
    } else {
        Ok(Some(Form::Marking(names)))
    }
}

fn all_variables(names: &[Text]) -> bool
    ensures { result ≡ list_all is_variable names.now }
{
    names.iter().all(|name| is_variable(name.as_str()))
}
