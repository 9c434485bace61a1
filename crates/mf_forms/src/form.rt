//! The form of a line, which its own text decides.
ghost use Rattle.std.specs.Prelude.{◌≡◌, IfOk};
ghost use Rattle.mf_forms.specs.Forms.{uncommented, is_head, bare_form};
ghost use Rattle.mf_forms.specs.Forms.{tab_form, plain_form, form_of};

use crate::assignments::{as_assignment, as_export};
use crate::blanks::{first_byte, trimmed};
use crate::quotes::{bare_position, is_open_at_end};
use crate::settings::as_setting;
use flow_types::{Memory, Rows, Text};
use std::alloc::Global;

/// A resource of which a category states an amount.
#[derive(Clone, Copy, Debug, PartialEq, Eq)]
pub enum Resource {
    Cores,
    Memory,
    Disk,
}

/// The form of a line. Its texts aren't expanded yet.
#[derive(Drop)]
pub enum Form {
    /// Nothing but blanks and a comment, or a setting that says nothing here.
    Passed,
    /// A quote stays open, in a line that is a head otherwise or not.
    OpenQuote {
        is_head: bool,
    },
    /// The command of a rule, without the blanks around it.
    Command(Text),
    /// A variable and the text of its value, without the blanks and the quotes around it.
    Assignment {
        /// Whether the name is marked for the environment of commands too.
        marks: bool,
        name: Text,
        /// Whether the value goes behind the old one.
        appends: bool,
        value: Text,
    },
    /// Names that are marked for the environment of commands.
    Marking(Rows<Text>),
    /// The name of the category of the rules that follow.
    Category(Text),
    /// An amount of the current category.
    Amount(Resource, Text),
    /// A name and the most bytes of its file.
    SizeBound(Text),
    /// The head of a rule.
    Head(Text),
}

/// The form of a logical line.
pub fn form_of(alloc: Global, line: &str) -> Result<Form, Memory>
    ensures { IfOk result (λ form. form ≡ form_of line.now) }
{
    if first_byte(line) == b'\t' {
        tab_form(alloc, trimmed(line))
    } else {
        plain_form(alloc, uncommented(line))
    }
}

// A line before its comment.
fn uncommented(line: &str) -> &str
    ensures { result.now ≡ uncommented line.now }
{
    line.split_at(bare_position(line, b"#")).0
}

// The form of a line that begins with a tab, without the blanks around it.
fn tab_form(alloc: Global, inside: &str) -> Result<Form, Memory>
    ensures { IfOk result (λ form. form ≡ tab_form inside.now) }
{
    if inside.is_empty() || first_byte(inside) == b'#' {
        Ok(Form::Passed)
    } else {
        Ok(Form::Command(Text::of(alloc, inside)?))
    }
}

// The form of a line that begins with no tab, without its comment.
fn plain_form(alloc: Global, text: &str) -> Result<Form, Memory>
    ensures { IfOk result (λ form. form ≡ plain_form text.now) }
{
    let form = bare_form(alloc, text)?;
    if is_open_at_end(text) {
        return Ok(Form::OpenQuote {
            is_head: is_head(&form),
        });
    }
    Ok(form)
}

fn is_head(form: &Form) -> bool
    ensures { result ≡ is_head form.now }
{
    matches!(form, Form::Head(_))
}

// The form of such a line, whether a quote stays open in it or not.
fn bare_form(alloc: Global, text: &str) -> Result<Form, Memory>
    ensures { IfOk result (λ form. form ≡ bare_form text.now) }
{
    if trimmed(text).is_empty() {
        return Ok(Form::Passed);
    }
    if let Some(form) = as_assignment(alloc, false, text)? {
        return Ok(form);
    }
    if let Some(form) = as_export(alloc, text)? {
        return Ok(form);
    }
    match as_setting(alloc, text)? {
        Some(form) => Ok(form),
        None => Ok(Form::Head(Text::of(alloc, text)?)),
    }
}
