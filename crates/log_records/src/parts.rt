//! Readers of a record's parts. Each takes its part off the front.
ghost use Rattle.std.specs.Prelude.{◌≡◌};
ghost use Rattle.byte_fields.specs.Reading.{Gives};
ghost use Rattle.log_records.specs.Reading.{limit_at, digest_at, failure_at};
ghost use Rattle.log_records.specs.Reading.{end_at, opening_at, attempt_at};

use byte_fields::{FieldFault, fixed_bytes, u8_field, u32_field, u64_field};
use flow_types::{AttemptNo, Digest, EndKind, Failure, RuleNo};

fn limit(bytes: &[u8]) -> Result<(Option<u64>, &[u8]), FieldFault>
    ensures { Gives (λ x. (x.0, x.1.now)) result (limit_at bytes.now) }
{
    let (tag, rest) = u8_field(bytes)?;
    match tag {
        0 => Ok((None, rest)),
        1 => {
            let (limit, rest) = u64_field(rest)?;
            Ok((Some(limit), rest))
        }
        _ => Err(FieldFault::Kind(bytes.len())),
    }
}

pub(crate) fn digest(bytes: &[u8]) -> Result<(Digest, &[u8]), FieldFault>
    ensures { Gives (λ x. (x.0, x.1.now)) result (digest_at bytes.now) }
{
    let (front, rest) = fixed_bytes(32, bytes)?;
    let mut digest = [0u8; 32];
    digest.copy_from_slice(front);
    Ok((Digest(digest), rest))
}

pub(crate) fn failure(bytes: &[u8]) -> Result<(Failure, &[u8]), FieldFault>
    ensures { Gives (λ x. (x.0, x.1.now)) result (failure_at bytes.now) }
{
    let (tag, rest) = u8_field(bytes)?;
    match tag {
        1 => {
            let (status, rest) = u32_field(rest)?;
            Ok((Failure::Status(status.cast_signed()), rest))
        }
        2 => {
            let (index, rest) = u32_field(rest)?;
            Ok((Failure::MissingOutput(index), rest))
        }
        3 => {
            let (index, rest) = u32_field(rest)?;
            let (size, rest) = u64_field(rest)?;
            Ok((Failure::TooLong { index, size }, rest))
        }
        _ => Err(FieldFault::Kind(bytes.len())),
    }
}

pub(crate) fn end_kind(bytes: &[u8]) -> Result<(EndKind, &[u8]), FieldFault>
    ensures { Gives (λ x. (x.0, x.1.now)) result (end_at bytes.now) }
{
    let (tag, rest) = u8_field(bytes)?;
    match tag {
        0 => Ok((EndKind::Complete, rest)),
        1 => Ok((EndKind::CommandFailed, rest)),
        2 => Ok((EndKind::InputsTooLarge, rest)),
        3 => Ok((EndKind::NoRoom, rest)),
        4 => Ok((EndKind::Waited, rest)),
        5 => Ok((EndKind::Cleaned, rest)),
        _ => Err(FieldFault::Kind(bytes.len())),
    }
}

/// A run, its retries and its limit.
pub(crate) fn opening(bytes: &[u8]) -> Result<((u64, u32, Option<u64>), &[u8]), FieldFault>
    ensures { Gives (λ x. ((x.0.0, (x.0.1, x.0.2)), x.1.now)) result (opening_at bytes.now) }
{
    let (run, rest) = u64_field(bytes)?;
    let (retries, rest) = u32_field(rest)?;
    let (limit, rest) = limit(rest)?;
    Ok(((run, retries, limit), rest))
}

/// A rule and its attempt.
pub(crate) fn attempt(bytes: &[u8]) -> Result<((RuleNo, AttemptNo), &[u8]), FieldFault>
    ensures { Gives (λ x. (x.0, x.1.now)) result (attempt_at bytes.now) }
{
    let (rule, rest) = u32_field(bytes)?;
    let (attempt, rest) = u64_field(rest)?;
    Ok(((RuleNo(rule), AttemptNo(attempt)), rest))
}
