//! Runs of bytes.
ghost use Rattle.std.specs.Prelude.{◌≡◌, ◌≤◌, ◌<◌, ◌+◌, length, drop, slice_index};
ghost use Rattle.std.specs.List.{prefix_len};
ghost use Rattle.std.specs.Char.{is_ascii_digit};
ghost use Rattle.jx_tokens.specs.Bytes as bytes;

/// The byte at this place, 0 past the end.
pub fn byte_at(text: &[u8], at: usize) -> u8
    ensures { result ≡ slice_index text.now at }
{
    if at < text.len() { text[at] } else { 0 }
}

/// A space, a tab or an end of a line.
pub fn is_blank(b: u8) -> bool
    ensures { result ≡ bytes.is_blank b }
{
    b == b' ' || b == b'\t' || b == b'\r' || b == b'\n'
}

/// A name may begin with it.
pub fn begins_name(b: u8) -> bool
    ensures { result ≡ bytes.begins_name b }
{
    (b'A' <= b && b <= b'Z') || (b'a' <= b && b <= b'z') || b == b'_'
}

/// It may stand in a name behind its first byte.
pub fn in_name(b: u8) -> bool
    ensures { result ≡ bytes.in_name b }
{
    begins_name(b) || b.is_ascii_digit()
}

/// The place behind the digits from this place on.
pub fn digits_end(text: &[u8], from: usize) -> usize
    requires { from ≤ length text.now }
    ensures run { result ≡ from + prefix_len is_ascii_digit (drop from text.now) }
    ensures within { result ≤ length text.now }
{
    let mut at = from;
    while at < text.len() && text[at].is_ascii_digit() {
        at += 1;
    }
    at
}

/// The place behind the word from this place on.
pub fn word_end(text: &[u8], from: usize) -> usize
    requires { from ≤ length text.now }
    ensures run { result ≡ from + prefix_len bytes.in_name (drop from text.now) }
    ensures within { result ≤ length text.now }
{
    let mut at = from;
    while at < text.len() && in_name(text[at]) {
        at += 1;
    }
    at
}

/// The place of the first newline from this place on, or the end.
pub fn line_end(text: &[u8], from: usize) -> usize
    requires { from ≤ length text.now }
    ensures run { result ≡ from + prefix_len bytes.in_line (drop from text.now) }
    ensures within { result ≤ length text.now }
{
    let mut at = from;
    while at < text.len() && text[at] != b'\n' {
        at += 1;
    }
    at
}

/// The place of the first backslash or raw control character from this place on, or the end.
pub fn plain_end(text: &[u8], from: usize) -> usize
    requires { from ≤ length text.now }
    ensures run { result ≡ from + prefix_len bytes.is_plain (drop from text.now) }
    ensures within { result ≤ length text.now }
{
    let mut at = from;
    while at < text.len() && text[at] != b'\\' && text[at] >= b' ' {
        at += 1;
    }
    at
}
