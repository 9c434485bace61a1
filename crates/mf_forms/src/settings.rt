//! Lines that name a category, state its amounts, or bound the size of a file.
ghost use Rattle.std.specs.Prelude.{◌≡◌, IfOk};
ghost use Rattle.mf_forms.specs.Words.{first_word};
ghost use Rattle.mf_forms.specs.Forms.{resource_of, amount_of, setting_of, argument_in, as_setting};

use crate::blanks::{behind, split_word, trimmed, without_end};
use crate::form::{Form, Resource};
use flow_types::{Memory, Text};
use std::alloc::Global;

/// A text read as `.MAKEFLOW key argument` or `.SIZE name number`.
pub(crate) fn as_setting(alloc: Global, text: &str) -> Result<Option<Form>, Memory>
    ensures { IfOk result (λ form. form ≡ as_setting text.now) }
{
    if let Some(rest) = behind(text, ".MAKEFLOW") {
        let (key, argument) = split_word(rest);
        return Ok(Some(setting_of(alloc, key, trimmed(argument))?));
    }
    match behind(text, ".SIZE") {
        Some(rest) => Ok(Some(Form::SizeBound(Text::of(alloc, without_end(rest))?))),
        None => Ok(None),
    }
}

// What a key behind `.MAKEFLOW` and its argument say.
fn setting_of(alloc: Global, key: &str, argument: &str) -> Result<Form, Memory>
    ensures { IfOk result (λ form. form ≡ setting_of key.now argument.now) }
{
    if argument.is_empty() {
        return Ok(Form::Passed);
    }
    if key == "CATEGORY" {
        return Ok(Form::Category(Text::of(alloc, argument)?));
    }
    match resource_of(key) {
        Some(resource) => Ok(Form::Amount(resource, Text::of(alloc, argument)?)),
        None => Ok(Form::Passed),
    }
}

fn resource_of(key: &str) -> Option<Resource>
    ensures { result ≡ resource_of key.now }
{
    if key == "CORES" {
        return Some(Resource::Cores);
    }
    if key == "MEMORY" {
        return Some(Resource::Memory);
    }
    if key == "DISK" {
        return Some(Resource::Disk);
    }
    None
}
