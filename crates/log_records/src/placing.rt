//! Writers of a record's parts into bytes that are there, each at a place.
ghost use Rattle.std.specs.Prelude.{◌≡◌, ◌≤◌, ◌+◌, ◌++◌, length, take};
ghost use Rattle.std.specs.List.{AllByRecursion};
ghost use Rattle.byteorder.specs.Endian.{big_bytes};
ghost use Rattle.log_records.specs.Spelling.{limit_bytes, opening_bytes, attempt_bytes};
ghost use Rattle.log_records.specs.Spelling.{failure_bytes, end_bytes, content_bytes};
ghost use Rattle.log_records.specs.Spelling.{contents_bytes, most_contents, IsLimit, IsOpening};
ghost use Rattle.log_records.specs.Spelling.{IsAttempt, IsFailure, IsDigest, IsContent};

use byte_fields::{place_bytes, place_u8, place_u32, place_u64};
use flow_types::{AttemptNo, Content, Digest, EndKind, Failure, RuleNo};

fn place_limit(into: &mut [u8], at: usize, limit: Option<u64>) -> usize
    requires { at + length (limit_bytes limit) ≤ length into.old }
    ensures text { take result into.new ≡ take at into.old ++ limit_bytes limit }
    ensures end { result ≡ at + length (limit_bytes limit) }
    ensures fits { IsLimit limit }
{
    match limit {
        None => place_u8(into, at, 0),
        Some(limit) => {
            let at = place_u8(into, at, 1);
            place_u64(into, at, limit)
        }
    }
}

/// A run, its retries and its limit.
pub(crate) fn place_opening(
    into: &mut [u8],
    at: usize,
    run: u64,
    retries: u32,
    limit: Option<u64>,
) -> usize
    requires { at + length (opening_bytes run retries limit) ≤ length into.old }
    ensures text { take result into.new ≡ take at into.old ++ opening_bytes run retries limit }
    ensures end { result ≡ at + length (opening_bytes run retries limit) }
    ensures fits { IsOpening run retries limit }
{
    let at = place_u64(into, at, run);
    let at = place_u32(into, at, retries);
    place_limit(into, at, limit)
}

/// A rule and its attempt.
pub(crate) fn place_attempt(into: &mut [u8], at: usize, rule: RuleNo, attempt: AttemptNo) -> usize
    requires { at + 12 ≤ length into.old }
    ensures text { take result into.new ≡ take at into.old ++ attempt_bytes rule attempt }
    ensures end { result ≡ at + 12 }
    ensures fits { IsAttempt rule attempt }
{
    let at = place_u32(into, at, rule.0);
    place_u64(into, at, attempt.0)
}

pub(crate) fn place_failure(into: &mut [u8], at: usize, why: Failure) -> usize
    requires { at + length (failure_bytes why) ≤ length into.old }
    ensures text { take result into.new ≡ take at into.old ++ failure_bytes why }
    ensures end { result ≡ at + length (failure_bytes why) }
    ensures fits { IsFailure why }
{
    match why {
        Failure::Status(status) => {
            let at = place_u8(into, at, 1);
            place_u32(into, at, status.cast_unsigned())
        }
        Failure::MissingOutput(index) => {
            let at = place_u8(into, at, 2);
            place_u32(into, at, index)
        }
        Failure::TooLong { index, size } => {
            let at = place_u8(into, at, 3);
            let at = place_u32(into, at, index);
            place_u64(into, at, size)
        }
    }
}

pub(crate) fn place_end_kind(into: &mut [u8], at: usize, kind: EndKind) -> usize
    requires { at + 1 ≤ length into.old }
    ensures text { take result into.new ≡ take at into.old ++ end_bytes kind }
    ensures end { result ≡ at + 1 }
{
    let number = match kind {
        EndKind::Complete => 0,
        EndKind::CommandFailed => 1,
        EndKind::InputsTooLarge => 2,
        EndKind::NoRoom => 3,
        EndKind::Waited => 4,
        EndKind::Cleaned => 5,
    };
    place_u8(into, at, number)
}

pub(crate) fn place_digest(into: &mut [u8], at: usize, digest: Digest) -> usize
    requires { at + length digest.0 ≤ length into.old }
    ensures text { take result into.new ≡ take at into.old ++ digest.0 }
    ensures end { result ≡ at + length digest.0 }
    ensures fits { IsDigest digest }
{
    let bytes = digest.0.as_slice();
    place_bytes(into, at, bytes)
}

fn place_content(into: &mut [u8], at: usize, content: Content) -> usize
    requires { at + length (content_bytes content) ≤ length into.old }
    ensures text { take result into.new ≡ take at into.old ++ content_bytes content }
    ensures end { result ≡ at + length (content_bytes content) }
    ensures fits { IsContent content }
{
    let at = place_u64(into, at, content.size);
    place_digest(into, at, content.digest)
}

/// Contents behind their count.
pub(crate) fn place_contents(into: &mut [u8], at: usize, contents: &[Content]) -> usize
    requires few { length contents.now ≤ most_contents }
    requires room { at + length (contents_bytes contents.now) ≤ length into.old }
    ensures text { take result into.new ≡ take at into.old ++ contents_bytes contents.now }
    ensures end { result ≡ at + length (contents_bytes contents.now) }
    ensures fits { AllByRecursion IsContent contents.now }
{
    let mut at = place_u32(into, at, contents.len() as u32);
    for content in contents {
        at = place_content(into, at, *content);
    }
    at
}
