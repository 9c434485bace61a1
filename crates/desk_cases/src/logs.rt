//! Records by words: `opened PLAN CONTENT..`, `resumed RUN`, `started RULE ATTEMPT LINK`, `done RULE
//! ATTEMPT CONTENT..`, `failed RULE ATTEMPT STATUS`, `lost RULE ATTEMPT`, `dropped FILE` and `ended
//! KIND`. PLAN is a digest in hex, and CONTENT a size, a colon and a digest. Each is of moment 0, and
//! run 0 is opened without retries.
ghost use Rattle.std.specs.Prelude.{◌≤◌, length, IfSome};
ghost use Rattle.log_records.specs.Spelling.{ListsFew};

use crate::words::{first, number, small};
use flow_types::{
    AttemptNo, Content, Digest, EndKind, Failure, FileNo, LinkNo, Record, Rows, RuleNo,
};
use std::alloc::Global;

/// The most contents of a record.
const MOST_CONTENTS: usize = 65_536;

fn digest_of(word: &str) -> Option<Digest> {
    let mut bytes = [0u8; 32];
    hex::decode_to_slice(word, &mut bytes).ok()?;
    Some(Digest(bytes))
}

fn content_of(word: &str) -> Option<Content> {
    let (size, digest) = word.split_once(':')?;
    Some(Content {
        size: number(size)?,
        digest: digest_of(digest)?,
    })
}

fn contents_of(alloc: Global, words: &str) -> Option<Rows<Content>>
    ensures { IfSome result (λ rows. length rows ≤ 65536) }
{
    let mut rows = Rows::new(alloc);
    for word in words.split_whitespace() {
        rows.push(content_of(word)?).ok()?;
    }
    if rows.len() > MOST_CONTENTS {
        return None;
    }
    Some(rows)
}

fn opened(alloc: Global, line: &str) -> Option<Record>
    ensures { IfSome result ListsFew }
{
    let (plan, contents) = first(line);
    let plan = digest_of(plan)?;
    let sources = contents_of(alloc, contents)?;
    Some(Record::Opened {
        moment: 0,
        run: 0,
        retries: 0,
        limit: None,
        plan,
        sources,
    })
}

// A rule and an attempt, and what stands behind them.
fn attempt_of(line: &str) -> Option<(RuleNo, AttemptNo, &str)> {
    let (rule, rest) = first(line);
    let (attempt, rest) = first(rest);
    Some((RuleNo(small(rule)?), AttemptNo(number(attempt)?), rest))
}

fn done(alloc: Global, line: &str) -> Option<Record>
    ensures { IfSome result ListsFew }
{
    let (rule, attempt, contents) = attempt_of(line)?;
    let outs = contents_of(alloc, contents)?;
    Some(Record::Done {
        moment: 0,
        rule,
        attempt,
        outs,
    })
}

fn started(line: &str) -> Option<Record>
    ensures { IfSome result ListsFew }
{
    let (rule, attempt, link) = attempt_of(line)?;
    let link = LinkNo(small(link)?);
    Some(Record::Started {
        moment: 0,
        rule,
        attempt,
        link,
    })
}

fn failed(line: &str) -> Option<Record>
    ensures { IfSome result ListsFew }
{
    let (rule, attempt, status) = attempt_of(line)?;
    let why = Failure::Status(status.parse::<i32>().ok()?);
    Some(Record::Failed {
        moment: 0,
        rule,
        attempt,
        why,
    })
}

fn lost(line: &str) -> Option<Record>
    ensures { IfSome result ListsFew }
{
    let (rule, attempt, _) = attempt_of(line)?;
    Some(Record::Lost {
        moment: 0,
        rule,
        attempt,
    })
}

fn resumed(word: &str) -> Option<Record>
    ensures { IfSome result ListsFew }
{
    let run = number(word)?;
    Some(Record::Resumed {
        moment: 0,
        run,
        retries: 0,
        limit: None,
    })
}

fn dropped(word: &str) -> Option<Record>
    ensures { IfSome result ListsFew }
{
    let file = FileNo(small(word)?);
    Some(Record::Dropped { moment: 0, file })
}

fn kind_of(word: &str) -> Option<EndKind> {
    match word {
        "complete" => Some(EndKind::Complete),
        "command" => Some(EndKind::CommandFailed),
        "inputs" => Some(EndKind::InputsTooLarge),
        "room" => Some(EndKind::NoRoom),
        "waited" => Some(EndKind::Waited),
        "cleaned" => Some(EndKind::Cleaned),
        _ => None,
    }
}

fn ended(word: &str) -> Option<Record>
    ensures { IfSome result ListsFew }
{
    let kind = kind_of(word)?;
    Some(Record::Ended { moment: 0, kind })
}

/// The record that a line says.
pub fn record_of(alloc: Global, line: &str) -> Option<Record>
    ensures { IfSome result ListsFew }
{
    let (kind, rest) = first(line);
    match kind {
        "opened" => opened(alloc, rest),
        "resumed" => resumed(rest),
        "started" => started(rest),
        "done" => done(alloc, rest),
        "failed" => failed(rest),
        "lost" => lost(rest),
        "dropped" => dropped(rest),
        "ended" => ended(rest),
        _ => None,
    }
}
