//! What an entry's bytes hold.
ghost use Rattle.std.specs.Prelude.{◌≡◌, ◌++◌, ◌∷◌, ℕ, List, Some, IfOk, IfSome, IfNone};
ghost use Rattle.sha2.specs.Sha256.{sha256};
ghost use Rattle.byte_fields.specs.Reading.{bytes_at};
ghost use Rattle.byte_fields.specs.Spelling.{counted, rows};
ghost use Rattle.result_archive.specs.Entries.{open_gate, head_of, Finds, Suits};
ghost use Rattle.result_archive.specs.Spelling.{HasSpelling, IsListOf, IsShort};

use crate::digest::digest_of;
use crate::entry::OPEN_GATE;
use crate::fitting::suits;
use byte_fields::{FieldFault, Row, TakeFault, counted_bytes, take_counted_rows};
use flow_types::{Bytes, Job, Memory, Rows};
use std::alloc::Global;

/// The bytes of a digest.
const DIGEST_BYTES: usize = 32;

/// A content behind its length.
enum ContentRow {}

impl Row for ContentRow {
    type Value = Bytes;

    ghost read = { bytes_at };

    fn take(alloc: Global, bytes: &[u8]) -> Result<(Bytes, &[u8]), TakeFault> {
        let (content, rest) = counted_bytes(bytes)?;
        match Bytes::of(alloc, content) {
            Ok(content) => Ok((content, rest)),
            Err(_) => Err(TakeFault::Memory),
        }
    }
}

/// What stands between an open gate and the digest of it.
fn body_in(bytes: &[u8]) -> Option<&[u8]>
    ensures found { IfSome result (λ body.
        bytes.now ≡ open_gate ∷ (body.now ++ sha256 body.now)) }
    ensures none { IfNone result ((body : List ℕ)
        → bytes.now ≡ open_gate ∷ (body ++ sha256 body) → ⊥) }
{
    let [gate, rest @ ..] = bytes else {
        return None;
    };
    if *gate != OPEN_GATE || rest.len() < DIGEST_BYTES {
        return None;
    }
    let (body, digest) = rest.split_at(rest.len() - DIGEST_BYTES);
    if digest_of(body).as_slice() == digest {
        Some(body)
    } else {
        None
    }
}

/// All outputs of a list, None where the bytes are no list of outputs.
fn outputs_in(alloc: Global, bytes: &[u8]) -> Result<Option<Rows<Bytes>>, Memory>
    ensures found { IfOk result (λ found. IfSome found (λ outs.
        bytes.now ≡ rows counted outs)) }
    ensures fits { IfOk result (λ found. IfSome found (IsListOf IsShort)) }
    ensures none { IfOk result (λ found. IfNone found ((outs : List (List ℕ))
        → IsListOf IsShort outs → bytes.now ≡ rows counted outs → ⊥)) }
{
    match take_counted_rows::<ContentRow>(alloc, u32::MAX, bytes) {
        Ok((outs, rest)) => {
            if rest.is_empty() {
                Ok(Some(outs))
            } else {
                Ok(None)
            }
        }
        Err(TakeFault::Field(_)) => Ok(None),
        Err(TakeFault::Memory) => Err(Memory),
    }
}

/// The outputs that an entry's bytes hold for a job, None where they are no entry of it. `head` is
/// the length of the job's spelling and the spelling.
pub(crate) fn found_in(
    alloc: Global,
    job: &Job,
    head: &[u8],
    bytes: &[u8],
) -> Result<Option<Rows<Bytes>>, Memory>
    requires head { head.now ≡ head_of job.now }
    requires spelled { HasSpelling job.now }
    ensures found { IfOk result (Finds job.now (Some bytes.now)) }
    ensures suits { IfOk result (λ found. IfSome found (Suits job.now)) }
{
    let Some(body) = body_in(bytes) else {
        return Ok(None);
    };
    let Some(listed) = body.strip_prefix(head) else {
        return Ok(None);
    };
    let Some(outs) = outputs_in(alloc, listed)? else {
        return Ok(None);
    };
    if suits(job, outs.as_slice()) {
        Ok(Some(outs))
    } else {
        Ok(None)
    }
}
