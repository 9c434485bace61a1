//! Names and other texts as they are shown.
ghost use Rattle.std.specs.Prelude.{◌≡◌, ◌<◌, ◌++◌, IsTrue, OnOk, string_bytes};
ghost use Rattle.std.specs.Char.{digit_char};
ghost use Rattle.std.specs.Fmt.{decimal};
ghost use Rattle.plan_show.specs.Shown.{code_text, is_control, quoted, shown, shown_char};

use itoa::Buffer;
use std::alloc::AllocError;
use std::str;

// A control character.
fn is_control(c: char) -> bool
    ensures { result ≡ is_control c }
{
    c < ' ' || ('\u{7f}' <= c && c <= '\u{9f}')
}

fn hex_digit(digit: u32) -> char
    requires { digit < 16 }
    ensures { result ≡ digit_char digit }
{
    if digit < 10 {
        char::from(b'0' + digit as u8)
    } else {
        char::from(b'a' + (digit as u8 - 10))
    }
}

// Writes a control character by its code.
fn add_code(out: &mut String, c: char) -> Result<(), AllocError>
    requires { IsTrue (is_control c) }
    ensures { OnOk result (string_bytes out.new ≡ string_bytes out.old ++ code_text c) }
{
    let code = c as u32;
    out.push_str("\\u00")?;
    out.push(hex_digit(code / 16))?;
    out.push(hex_digit(code % 16))
}

// Writes a character: as it is, or its escape.
fn add_char(out: &mut String, c: char) -> Result<(), AllocError>
    ensures { OnOk result (string_bytes out.new ≡ string_bytes out.old ++ shown_char c) }
{
    match c {
        '"' => out.push_str("\\\""),
        '\\' => out.push_str("\\\\"),
        '\n' => out.push_str("\\n"),
        '\r' => out.push_str("\\r"),
        '\t' => out.push_str("\\t"),
        c if is_control(c) => add_code(out, c),
        c => out.push(c),
    }
}

fn add_text(out: &mut String, text: &str) -> Result<(), AllocError>
    ensures { OnOk result (string_bytes out.new ≡ string_bytes out.old ++ shown text.now) }
{
    for c in text.chars() {
        add_char(out, c)?;
    }
    Ok(())
}

/// Writes a text with its control characters, quotes and backslashes as escapes. Names and texts
/// are UTF-8; other bytes are refused.
pub(crate) fn add_shown(out: &mut String, text: &[u8]) -> Result<(), AllocError>
    ensures { OnOk result (string_bytes out.new ≡ string_bytes out.old ++ shown text.now) }
{
    match str::from_utf8(text) {
        Ok(text) => add_text(out, text),
        Err(_) => Err(AllocError),
    }
}

/// Writes the same in quotes.
pub(crate) fn add_quoted(out: &mut String, text: &[u8]) -> Result<(), AllocError>
    ensures { OnOk result (string_bytes out.new ≡ string_bytes out.old ++ quoted text.now) }
{
    out.push_str("\"")?;
    add_shown(out, text)?;
    out.push_str("\"")
}

/// Writes a number in decimal.
pub(crate) fn add_number(out: &mut String, number: u64) -> Result<(), AllocError>
    ensures { OnOk result (string_bytes out.new ≡ string_bytes out.old ++ decimal number) }
{
    let mut buffer = Buffer::new();
    out.push_str(buffer.format(number))
}
