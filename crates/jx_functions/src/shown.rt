//! Values within texts.
ghost use Rattle.std.specs.Prelude.{◌≡◌, [], OnOk};
ghost use Rattle.jx_meaning.specs.Values.{plain};
ghost use Rattle.jx_meaning.specs.Texts.{comma, written, shown};
ghost use Rattle.jx_functions.specs.Drafts.{extended};

use crate::draft::Draft;
use jx_syntax::JxValue;
use jx_values::text_in;
use std::alloc::AllocError;

/// Writes a value as JSON without blanks.
fn write_value(draft: &mut Draft, value: &JxValue) -> Result<(), AllocError>
    ensures { OnOk result (draft.new ≡ extended draft.old (written (plain value.now))) }
{
    if draft.is_full() {
        return Ok(());
    }
    match value {
        JxValue::Null => draft.add("null"),
        JxValue::Truth(t) => {
            if *t {
                return draft.add("true");
            }
            draft.add("false")
        }
        JxValue::Number(n) => draft.add_number(*n),
        JxValue::Text(t) => draft.add_quoted(t.as_str()),
        JxValue::List(items) => {
            draft.add("[")?;
            let mut first = true;
            for item in items.as_slice() {
                separate(draft, first)?;
                write_value(draft, item)?;
                first = false;
            }
            draft.add("]")
        }
        JxValue::Object(pairs) => {
            draft.add("{")?;
            let mut first = true;
            for pair in pairs.as_slice() {
                separate(draft, first)?;
                draft.add_quoted(pair.key.as_str())?;
                draft.add(":")?;
                write_value(draft, &pair.value)?;
                first = false;
            }
            draft.add("}")
        }
    }
}

/// The comma before each piece but the first.
fn separate(draft: &mut Draft, first: bool) -> Result<(), AllocError>
    ensures { OnOk result (draft.new ≡ extended draft.old (comma first [])) }
{
    draft.add(if first { "" } else { "," })
}

/// Writes a text as it is, and another value as JSON without blanks.
pub fn write_shown(draft: &mut Draft, value: &JxValue) -> Result<(), AllocError>
    ensures { OnOk result (draft.new ≡ extended draft.old (shown (plain value.now))) }
{
    match text_in(value) {
        Some(text) => draft.add(text),
        None => write_value(draft, value),
    }
}
