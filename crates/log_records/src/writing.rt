//! Writing a record.
ghost use Rattle.std.specs.Prelude.{◌≡◌, ◌≤◌, ◌<◌, ◌^◌, ◌+◌, ◌*◌, ◌++◌, length, take, IfOk, Ok};
ghost use Rattle.byteorder.specs.Endian.{big_bytes};
ghost use Rattle.log_records.specs.Spelling.{spelling, limit_bytes, failure_bytes, contents_bytes};
ghost use Rattle.log_records.specs.Spelling.{most_contents, most_spelled, ListsFew, HasSpelling};
ghost use Rattle.log_records.specs.Reading.{record_of};

use crate::placing::{
    place_attempt, place_contents, place_digest, place_end_kind, place_failure, place_opening,
};
use byte_fields::{place_u8, place_u32, place_u64};
use flow_types::{Bytes, Content, Digest, Failure, Memory, Record};
use std::alloc::Global;

fn limit_len(limit: Option<u64>) -> usize
    ensures len { result ≡ length (limit_bytes limit) }
    ensures few { result ≤ 9 }
{
    match limit {
        None => 1,
        Some(_) => 9,
    }
}

fn failure_len(why: Failure) -> usize
    ensures len { result ≡ length (failure_bytes why) }
    ensures few { result ≤ 13 }
{
    match why {
        Failure::Status(_) | Failure::MissingOutput(_) => 5,
        Failure::TooLong { .. } => 13,
    }
}

fn digest_len(digest: Digest) -> usize
    ensures len { result ≡ length digest.0 }
    ensures fixed { result ≡ 32 }
{
    digest.0.len()
}

fn contents_len(contents: &[Content]) -> usize
    requires { length contents.now ≤ most_contents }
    ensures len { result ≡ length (contents_bytes contents.now) }
    ensures few { result ≤ 4 + 40 * length contents.now }
{
    let mut len = 4;
    for content in contents {
        len += 8 + digest_len(content.digest);
    }
    len
}

/// The number of bytes of a record's spelling.
pub fn record_len(entry: &Record) -> usize
    requires { ListsFew entry.now }
    ensures len { result ≡ length (spelling entry.now) }
    ensures few { result ≤ most_spelled }
{
    match entry {
        Record::Opened {
            limit,
            plan,
            sources,
            ..
        } => 21 + limit_len(*limit) + digest_len(*plan) + contents_len(sources.as_slice()),
        Record::Resumed { limit, .. } => 21 + limit_len(*limit),
        Record::Started { .. } => 25,
        Record::Done { outs, .. } => 21 + contents_len(outs.as_slice()),
        Record::Failed { why, .. } => 21 + failure_len(*why),
        Record::Lost { .. } => 21,
        Record::Dropped { .. } => 13,
        Record::Ended { .. } => 10,
    }
}

fn place_front(into: &mut [u8], at: usize, kind: u8, moment: u64) -> usize
    requires { at + 9 ≤ length into.old }
    ensures text { take result into.new
        ≡ take at into.old ++ (big_bytes 1 kind ++ big_bytes 8 moment) }
    ensures end { result ≡ at + 9 }
    ensures fits { moment < 2 ^ 64 }
{
    let at = place_u8(into, at, kind);
    place_u64(into, at, moment)
}

fn place_record(entry: &Record, into: &mut [u8], at: usize) -> usize
    requires few { ListsFew entry.now }
    requires room { at + length (spelling entry.now) ≤ length into.old }
    ensures text { take result into.new ≡ take at into.old ++ spelling entry.now }
    ensures end { result ≡ at + length (spelling entry.now) }
    ensures fits { HasSpelling entry.now }
{
    match entry {
        Record::Opened {
            moment,
            run,
            retries,
            limit,
            plan,
            sources,
        } => {
            let at = place_front(into, at, 1, *moment);
            let at = place_opening(into, at, *run, *retries, *limit);
            let at = place_digest(into, at, *plan);
            place_contents(into, at, sources.as_slice())
        }
        Record::Resumed {
            moment,
            run,
            retries,
            limit,
        } => {
            let at = place_front(into, at, 2, *moment);
            place_opening(into, at, *run, *retries, *limit)
        }
        Record::Started {
            moment,
            rule,
            attempt,
            link,
        } => {
            let at = place_front(into, at, 3, *moment);
            let at = place_attempt(into, at, *rule, *attempt);
            place_u32(into, at, link.0)
        }
        Record::Done {
            moment,
            rule,
            attempt,
            outs,
        } => {
            let at = place_front(into, at, 4, *moment);
            let at = place_attempt(into, at, *rule, *attempt);
            place_contents(into, at, outs.as_slice())
        }
        Record::Failed {
            moment,
            rule,
            attempt,
            why,
        } => {
            let at = place_front(into, at, 5, *moment);
            let at = place_attempt(into, at, *rule, *attempt);
            place_failure(into, at, *why)
        }
        Record::Lost {
            moment,
            rule,
            attempt,
        } => {
            let at = place_front(into, at, 6, *moment);
            place_attempt(into, at, *rule, *attempt)
        }
        Record::Dropped { moment, file } => {
            let at = place_front(into, at, 7, *moment);
            place_u32(into, at, file.0)
        }
        Record::Ended { moment, kind } => {
            let at = place_front(into, at, 8, *moment);
            place_end_kind(into, at, *kind)
        }
    }
}

/// Writes a record's spelling over these bytes, of which there are as many. It takes no memory.
pub fn write_record_at(entry: &Record, into: &mut [u8])
    requires few { ListsFew entry.now }
    requires room { length into.old ≡ length (spelling entry.now) }
    ensures text { into.new ≡ spelling entry.now }
    ensures fits { HasSpelling entry.now }
    ensures again { record_of into.new ≡ Ok entry.now }
{
    let _end = place_record(entry, into, 0);
}

/// A record's spelling: its kind byte and its body.
pub fn write_record(alloc: Global, entry: &Record) -> Result<Bytes, Memory>
    requires { ListsFew entry.now }
    ensures text { IfOk result (λ bytes. bytes ≡ spelling entry.now) }
    ensures fits { IfOk result (λ bytes. HasSpelling entry.now) }
    ensures again { IfOk result (λ bytes. record_of bytes ≡ Ok entry.now) }
{
    let Ok(mut bytes) = vec![in alloc; 0u8; record_len(entry)] else {
        return Err(Memory);
    };
    write_record_at(entry, &mut bytes);
    Ok(Bytes::from_vec(bytes))
}
