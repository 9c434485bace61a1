//! Reading a record.
ghost use Rattle.std.specs.Prelude.{◌≡◌, IfOk, IfErr, IsErrOf};
ghost use Rattle.byte_fields.specs.Reading.{Gives, GivesInMemory};
ghost use Rattle.flow_types.specs.declared.records.Record.{Record};
ghost use Rattle.log_records.specs.Spelling.{spelling, HasSpelling};
ghost use Rattle.log_records.specs.Reading.{opened_at, resumed_at, started_at, done_at, failed_at};
ghost use Rattle.log_records.specs.Reading.{lost_at, dropped_at, ended_at, record_at, record_of};
ghost use Rattle.log_records.specs.Answers.{Answers, IsFaultOf, IsOrMemory, MayList, refused};

use crate::contents::contents;
use crate::fault::RecordFault;
use crate::parts::{attempt, digest, end_kind, failure, opening};
use byte_fields::{FieldFault, TakeFault, u8_field, u32_field, u64_field};
use flow_types::{FileNo, LinkNo, Record};
use std::alloc::Global;

fn opened(alloc: Global, bytes: &[u8]) -> Result<(Record, &[u8]), TakeFault>
    ensures { GivesInMemory (λ x. (x.0, x.1.now)) result (opened_at bytes.now) }
{
    let (moment, rest) = u64_field(bytes)?;
    let ((run, retries, limit), rest) = opening(rest)?;
    let (plan, rest) = digest(rest)?;
    let (sources, rest) = contents(alloc, rest)?;
    let record = Record::Opened {
        moment,
        run,
        retries,
        limit,
        plan,
        sources,
    };
    Ok((record, rest))
}

fn resumed(bytes: &[u8]) -> Result<(Record, &[u8]), FieldFault>
    ensures { Gives (λ x. (x.0, x.1.now)) result (resumed_at bytes.now) }
{
    let (moment, rest) = u64_field(bytes)?;
    let ((run, retries, limit), rest) = opening(rest)?;
    let record = Record::Resumed {
        moment,
        run,
        retries,
        limit,
    };
    Ok((record, rest))
}

fn started(bytes: &[u8]) -> Result<(Record, &[u8]), FieldFault>
    ensures { Gives (λ x. (x.0, x.1.now)) result (started_at bytes.now) }
{
    let (moment, rest) = u64_field(bytes)?;
    let ((rule, attempt), rest) = attempt(rest)?;
    let (link, rest) = u32_field(rest)?;
    let record = Record::Started {
        moment,
        rule,
        attempt,
        link: LinkNo(link),
    };
    Ok((record, rest))
}

fn done(alloc: Global, bytes: &[u8]) -> Result<(Record, &[u8]), TakeFault>
    ensures { GivesInMemory (λ x. (x.0, x.1.now)) result (done_at bytes.now) }
{
    let (moment, rest) = u64_field(bytes)?;
    let ((rule, attempt), rest) = attempt(rest)?;
    let (outs, rest) = contents(alloc, rest)?;
    let record = Record::Done {
        moment,
        rule,
        attempt,
        outs,
    };
    Ok((record, rest))
}

fn failed(bytes: &[u8]) -> Result<(Record, &[u8]), FieldFault>
    ensures { Gives (λ x. (x.0, x.1.now)) result (failed_at bytes.now) }
{
    let (moment, rest) = u64_field(bytes)?;
    let ((rule, attempt), rest) = attempt(rest)?;
    let (why, rest) = failure(rest)?;
    let record = Record::Failed {
        moment,
        rule,
        attempt,
        why,
    };
    Ok((record, rest))
}

fn lost(bytes: &[u8]) -> Result<(Record, &[u8]), FieldFault>
    ensures { Gives (λ x. (x.0, x.1.now)) result (lost_at bytes.now) }
{
    let (moment, rest) = u64_field(bytes)?;
    let ((rule, attempt), rest) = attempt(rest)?;
    let record = Record::Lost {
        moment,
        rule,
        attempt,
    };
    Ok((record, rest))
}

fn dropped(bytes: &[u8]) -> Result<(Record, &[u8]), FieldFault>
    ensures { Gives (λ x. (x.0, x.1.now)) result (dropped_at bytes.now) }
{
    let (moment, rest) = u64_field(bytes)?;
    let (file, rest) = u32_field(rest)?;
    let record = Record::Dropped {
        moment,
        file: FileNo(file),
    };
    Ok((record, rest))
}

fn ended(bytes: &[u8]) -> Result<(Record, &[u8]), FieldFault>
    ensures { Gives (λ x. (x.0, x.1.now)) result (ended_at bytes.now) }
{
    let (moment, rest) = u64_field(bytes)?;
    let (kind, rest) = end_kind(rest)?;
    Ok((Record::Ended { moment, kind }, rest))
}

#[tactic(auto, unfolding(crate::specs::Reading::record_at))]
fn take_record(alloc: Global, body: &[u8]) -> Result<(Record, &[u8]), TakeFault>
    ensures read { GivesInMemory (λ x. (x.0, x.1.now)) result (record_at body.now) }
    ensures memory { IsErrOf result TakeFault.Memory → MayList body.now }
{
    let (kind, rest) = u8_field(body)?;
    match kind {
        1 => opened(alloc, rest),
        2 => Ok(resumed(rest)?),
        3 => Ok(started(rest)?),
        4 => done(alloc, rest),
        5 => Ok(failed(rest)?),
        6 => Ok(lost(rest)?),
        7 => Ok(dropped(rest)?),
        8 => Ok(ended(rest)?),
        _ => Err(TakeFault::Field(FieldFault::Kind(body.len()))),
    }
}

// The refusal of a body of this length.
fn refusal(len: usize, fault: TakeFault) -> RecordFault
    ensures { result ≡ refused len fault }
{
    match fault {
        TakeFault::Field(fault) => RecordFault::Bad {
            at: len.saturating_sub(fault.left()),
        },
        TakeFault::Memory => RecordFault::Memory,
    }
}

#[tactic(auto, unfolding(crate::specs::Reading::record_of))]
fn whole_record(alloc: Global, body: &[u8]) -> Result<Record, RecordFault>
    ensures answer { Answers result (record_of body.now) }
    ensures memory { IsErrOf result RecordFault.Memory → MayList body.now }
{
    match take_record(alloc, body) {
        Ok((record, rest)) => {
            if rest.is_empty() {
                return Ok(record);
            }
            Err(RecordFault::Bad {
                at: body.len().saturating_sub(rest.len()),
            })
        }
        Err(fault) => Err(refusal(body.len(), fault)),
    }
}

/// The record that a kind byte and a body spell. A body that is none is refused at the least place
/// at which it leaves the grammar: some record's spelling has all of the bytes before it, and none
/// has the byte there as well. Where the body is too short, that place is its length. Only the
/// contents that a record lists want memory.
pub fn read_record(alloc: Global, body: &[u8]) -> Result<Record, RecordFault>
    ensures answer { Answers result (record_of body.now) }
    ensures spelled { IfOk result (λ r. HasSpelling r × (body.now ≡ spelling r)) }
    ensures refused { IfErr result (λ e. IsFaultOf body.now e) }
    ensures again { (r : Record) → HasSpelling r → body.now ≡ spelling r → IsOrMemory r result }
    ensures memory { IsErrOf result RecordFault.Memory → MayList body.now }
{
    whole_record(alloc, body)
}
