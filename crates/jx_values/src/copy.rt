//! Equal copies of values.
ghost use Rattle.std.specs.Prelude.{◌≡◌, IfOk};

use crate::texts::Texts;
use flow_types::{Memory, Rows};
use jx_syntax::{JxPair, JxValue};
use std::alloc::Global;

/// An equal value.
pub fn copied(alloc: Global, texts: &Texts, value: &JxValue) -> Result<JxValue, Memory>
    ensures { IfOk result (λ v. v ≡ value.now) }
{
    match value {
        JxValue::Null => Ok(JxValue::Null),
        JxValue::Truth(t) => Ok(JxValue::Truth(*t)),
        JxValue::Number(n) => Ok(JxValue::Number(*n)),
        JxValue::Text(t) => Ok(JxValue::Text(texts.copy(alloc, t)?)),
        JxValue::List(all) => {
            let mut items = Rows::new(alloc);
            for item in all.as_slice() {
                let copy = copied(alloc, texts, item)?;
                if items.push(copy).is_err() {
                    return Err(Memory);
                }
            }
            Ok(JxValue::List(items))
        }
        JxValue::Object(all) => {
            let mut items = Rows::new(alloc);
            for pair in all.as_slice() {
                let key = texts.copy(alloc, &pair.key)?;
                let value = copied(alloc, texts, &pair.value)?;
                if items.push(JxPair { key, value }).is_err() {
                    return Err(Memory);
                }
            }
            Ok(JxValue::Object(items))
        }
    }
}
