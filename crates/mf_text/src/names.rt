//! Names of variables: an ASCII letter or `_`, and then letters, digits and `_`.
ghost use Rattle.std.specs.Prelude.{◌≡◌, length, slice_index, if◌then◌else◌};
ghost use Rattle.std.specs.List.{list_all, prefix_len};
ghost use Rattle.mf_text.specs.Names.{begins_name, continues_name, is_variable};

#[tactic(auto, unfolding(crate::specs::Names::begins_name))]
fn begins_name(byte: u8) -> bool
    ensures { result ≡ begins_name byte }
{
    matches!(byte, b'A'..=b'Z' | b'a'..=b'z' | b'_')
}

#[tactic(auto, unfolding(crate::specs::Names::continues_name))]
fn continues_name(byte: u8) -> bool
    ensures { result ≡ continues_name byte }
{
    begins_name(byte) || matches!(byte, b'0'..=b'9')
}

// The first byte, 0 in an empty text.
fn first_byte(text: &str) -> u8
    ensures { result ≡ slice_index text.now 0 }
{
    text.as_bytes().first().copied().unwrap_or(0)
}

// Whether each byte may stand in a name.
fn all_continue(bytes: &[u8]) -> bool
    ensures { result ≡ list_all continues_name bytes.now }
{
    bytes.iter().all(|byte| continues_name(*byte))
}

// How many bytes at the beginning may stand in a name.
fn continuing_len(bytes: &[u8]) -> usize
    ensures { result ≡ prefix_len continues_name bytes.now }
{
    bytes
        .iter()
        .take_while(|byte| continues_name(**byte))
        .count()
}

/// Whether a text is the name of a variable: an ASCII letter or `_`, and then letters, digits
/// and `_`.
pub fn is_variable(text: &str) -> bool
    ensures { result ≡ is_variable text.now }
{
    begins_name(first_byte(text)) && all_continue(text.as_bytes())
}

/// How many bytes the longest name at the text's beginning has, none where it begins with none.
pub fn name_len(text: &str) -> Option<usize>
    ensures { result ≡ (if begins_name (slice_index text.now 0)
        then Some (prefix_len continues_name text.now) else None) }
{
    if begins_name(first_byte(text)) {
        Some(continuing_len(text.as_bytes()))
    } else {
        None
    }
}
