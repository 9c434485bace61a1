//! Values as texts.
ghost use Rattle.std.specs.Prelude.{◌≡◌, ◌<◌, ◌++◌, ◌∷◌, [], string_bytes, IfOk, OnOk};
ghost use Rattle.std.specs.Prelude.{if◌then◌else◌};
ghost use Rattle.std.specs.Char.{digit_char};
ghost use Rattle.std.specs.Fmt.{signed_decimal};
ghost use Rattle.jx_syntax.specs.Written.{value_text, char_text, quoted};

use crate::value::JxValue;
use flow_types::{Memory, Text};
use itoa::Buffer;
use std::alloc::{AllocError, Global};

/// A hexadecimal digit.
fn hex_digit(d: u32) -> char
    requires { d < 16 }
    ensures { result ≡ digit_char d }
{
    if d < 10 {
        char::from(b'0' + d as u8)
    } else {
        char::from(b'a' + (d as u8 - 10))
    }
}

/// Writes a character of a text in quotes: as it is, or its escape.
pub fn write_char(out: &mut String, c: char) -> Result<(), AllocError>
    ensures { OnOk result (string_bytes out.new ≡ string_bytes out.old ++ char_text c) }
{
    match c {
        '"' => out.push_str("\\\""),
        '\\' => out.push_str("\\\\"),
        '\n' => out.push_str("\\n"),
        '\r' => out.push_str("\\r"),
        '\t' => out.push_str("\\t"),
        _ => {
            if c >= ' ' {
                return out.push(c);
            }
            let code = c as u32;
            out.push_str("\\u00")?;
            out.push(hex_digit(code / 16))?;
            out.push(hex_digit(code % 16))
        }
    }
}

/// A text in quotes.
fn write_quoted(out: &mut String, text: &str) -> Result<(), AllocError>
    ensures { OnOk result (string_bytes out.new ≡ string_bytes out.old ++ quoted text.now) }
{
    out.push('"')?;
    for c in text.chars() {
        write_char(out, c)?;
    }
    out.push('"')?;
    Ok(())
}

/// A number in decimal.
fn write_number(out: &mut String, n: i64) -> Result<(), AllocError>
    ensures { OnOk result (string_bytes out.new ≡ string_bytes out.old ++ signed_decimal n) }
{
    let mut buffer = Buffer::new();
    out.push_str(buffer.format(n))
}

/// The comma before each piece but the first.
fn separate(out: &mut String, first: bool) -> Result<(), AllocError>
    ensures { OnOk result (string_bytes out.new ≡ string_bytes out.old
        ++ (if first then [] else 44 ∷ [])) }
{
    if first { Ok(()) } else { out.push(',') }
}

fn write_value(out: &mut String, value: &JxValue) -> Result<(), AllocError>
    ensures { OnOk result (string_bytes out.new ≡ string_bytes out.old ++ value_text value.now) }
{
    match value {
        JxValue::Null => out.push_str("null"),
        JxValue::Truth(t) => {
            if *t {
                return out.push_str("true");
            }
            out.push_str("false")
        }
        JxValue::Number(n) => write_number(out, *n),
        JxValue::Text(t) => write_quoted(out, t.as_str()),
        JxValue::List(items) => {
            out.push('[')?;
            let mut first = true;
            for item in items.as_slice() {
                separate(out, first)?;
                write_value(out, item)?;
                first = false;
            }
            out.push(']')?;
            Ok(())
        }
        JxValue::Object(pairs) => {
            out.push('{')?;
            let mut first = true;
            for pair in pairs.as_slice() {
                separate(out, first)?;
                write_quoted(out, pair.key.as_str())?;
                out.push(':')?;
                write_value(out, &pair.value)?;
                first = false;
            }
            out.push('}')?;
            Ok(())
        }
    }
}

/// The text of a value: JSON without blanks.
pub fn value_text(alloc: Global, value: &JxValue) -> Result<Text, Memory>
    ensures { IfOk result (λ t. t ≡ value_text value.now) }
{
    let mut out = String::new(alloc);
    match write_value(&mut out, value) {
        Ok(()) => Ok(Text::from_string(out)),
        Err(_) => Err(Memory),
    }
}
