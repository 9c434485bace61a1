//! Bytes that a line spells with escapes.
use std::alloc::{AllocError, Global};
use std::str;

// The most bytes that a body may have, so that a mistaken count is refused.
const MOST_BYTES: usize = 268_435_456;

// What the head of a line spells.
enum Piece {
    Byte(u8),
    Open(usize),
    Close,
}

// A group that is repeated: how often, and the group before its text.
#[derive(Drop)]
struct Group {
    count: usize,
    start: usize,
}

// Puts the bytes that a line spells behind those of a body, and tells whether its escapes are in
// form.
pub(crate) fn add_spelled(
    alloc: Global,
    body: &mut Vec<u8>,
    line: &[u8],
) -> Result<bool, AllocError> {
    let mut groups = Vec::new(alloc);
    let mut rest = line;
    for _ in 0..line.len() {
        if rest.is_empty() {
            break;
        }
        let Some((piece, below)) = next_piece(rest, !groups.is_empty()) else {
            return Ok(false);
        };
        rest = below;
        match piece {
            Piece::Byte(byte) => body.push(byte)?,
            Piece::Open(count) => groups.push(Group {
                count,
                start: body.len(),
            })?,
            Piece::Close => {
                let Some(group) = groups.pop() else {
                    return Ok(false);
                };
                if !repeat_tail(alloc, body, group)? {
                    return Ok(false);
                }
            }
        }
    }
    Ok(groups.is_empty())
}

// The first piece of a line, and what stands behind it.
fn next_piece(line: &[u8], is_in_group: bool) -> Option<(Piece, &[u8])> {
    match line {
        [b'\\', b'{', rest @ ..] => opened(rest),
        [b'\\', b'x', rest @ ..] => hexadecimal(rest),
        [b'\\', mark, rest @ ..] => Some((Piece::Byte(escaped(*mark)?), rest)),
        [b'\\'] => None,
        [b'}', rest @ ..] if is_in_group => Some((Piece::Close, rest)),
        [byte, rest @ ..] => Some((Piece::Byte(*byte), rest)),
        [] => None,
    }
}

fn escaped(mark: u8) -> Option<u8> {
    match mark {
        b'n' => Some(b'\n'),
        b't' => Some(b'\t'),
        b'r' => Some(b'\r'),
        b'0' => Some(0),
        b'\\' => Some(b'\\'),
        b'}' => Some(b'}'),
        _ => None,
    }
}

fn hexadecimal(line: &[u8]) -> Option<(Piece, &[u8])> {
    let (digits, rest) = line.split_at_checked(2)?;
    let digits = str::from_utf8(digits).ok()?;
    if digits.starts_with('+') {
        return None;
    }
    let byte = u8::from_str_radix(digits, 16).ok()?;
    Some((Piece::Byte(byte), rest))
}

fn opened(line: &[u8]) -> Option<(Piece, &[u8])> {
    let at = line.iter().position(|byte| *byte == b':')?;
    let (digits, rest) = line.split_at_checked(at)?;
    let count = str::from_utf8(digits).ok()?.parse::<usize>().ok()?;
    let (_, rest) = rest.split_first()?;
    Some((Piece::Open(count), rest))
}

// Puts what stands from the group's start on there as often as the group says.
fn repeat_tail(alloc: Global, body: &mut Vec<u8>, group: Group) -> Result<bool, AllocError> {
    let Group { count, start } = group;
    let Some(tail) = body.get(start..) else {
        return Ok(false);
    };
    let all = tail.len().saturating_mul(count);
    if all > MOST_BYTES {
        return Ok(false);
    }
    let mut unit = Vec::from_slice(alloc, tail)?;
    body.truncate(start);
    let mut left = count;
    for _ in 0..64 {
        if left % 2 == 1 {
            body.extend_from_slice(&unit)?;
        }
        left /= 2;
        if left == 0 {
            break;
        }
        let half = Vec::from_slice(alloc, &unit)?;
        unit.extend_from_slice(&half)?;
    }
    Ok(true)
}
