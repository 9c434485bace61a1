//! Records by their words: `opened MOMENT RUN RETRIES LIMIT SIZE` with the size of each source,
//! `resumed MOMENT RUN RETRIES LIMIT`, where a LIMIT of `-` is none; `started MOMENT RULE ATTEMPT`,
//! and so `done`, with outputs of 1 byte each, `failed`, with status 1, and `lost`; `dropped MOMENT
//! FILE`; and `ended MOMENT KIND`.
use flow_types::{
    AttemptNo, Content, Digest, EndKind, Failure, FileNo, LinkNo, Plan, Record, Rows, RuleNo,
};
use std::alloc::Global;

fn whole(words: &[&str], at: usize) -> Option<u64> {
    words.get(at)?.parse::<u64>().ok()
}

fn small(words: &[&str], at: usize) -> Option<u32> {
    words.get(at)?.parse::<u32>().ok()
}

// A limit, where one is stated.
fn limit(words: &[&str], at: usize) -> Option<Option<u64>> {
    let word = words.get(at)?;
    if *word == "-" {
        return Some(None);
    }
    Some(Some(word.parse::<u64>().ok()?))
}

// So many contents of this size.
fn contents(alloc: Global, count: usize, size: u64) -> Option<Rows<Content>> {
    let mut rows = Vec::new(alloc);
    for _ in 0..count {
        rows.push(Content {
            size,
            digest: Digest([0; 32]),
        })
        .ok()?;
    }
    Some(Rows::of(rows))
}

fn source_count(plan: &Plan) -> usize {
    plan.files
        .as_slice()
        .iter()
        .filter(|row| row.maker.is_none())
        .count()
}

fn output_count(plan: &Plan, rule: RuleNo) -> usize {
    match plan.rules.get(rule.0 as usize) {
        Some(rule) => rule.outputs.len(),
        None => 0,
    }
}

fn opened(alloc: Global, plan: &Plan, digest: Digest, words: &[&str]) -> Option<Record> {
    let size = whole(words, 5)?;
    Some(Record::Opened {
        moment: whole(words, 1)?,
        run: whole(words, 2)?,
        retries: small(words, 3)?,
        limit: limit(words, 4)?,
        plan: digest,
        sources: contents(alloc, source_count(plan), size)?,
    })
}

fn resumed(words: &[&str]) -> Option<Record> {
    Some(Record::Resumed {
        moment: whole(words, 1)?,
        run: whole(words, 2)?,
        retries: small(words, 3)?,
        limit: limit(words, 4)?,
    })
}

// A record of an attempt.
fn attempted(alloc: Global, plan: &Plan, word: &str, words: &[&str]) -> Option<Record> {
    let moment = whole(words, 1)?;
    let rule = RuleNo(small(words, 2)?);
    let attempt = AttemptNo(whole(words, 3)?);
    match word {
        "started" => Some(Record::Started {
            moment,
            rule,
            attempt,
            link: LinkNo(0),
        }),
        "done" => Some(Record::Done {
            moment,
            rule,
            attempt,
            outs: contents(alloc, output_count(plan, rule), 1)?,
        }),
        "failed" => Some(Record::Failed {
            moment,
            rule,
            attempt,
            why: Failure::Status(1),
        }),
        "lost" => Some(Record::Lost {
            moment,
            rule,
            attempt,
        }),
        _ => None,
    }
}

fn dropped(words: &[&str]) -> Option<Record> {
    Some(Record::Dropped {
        moment: whole(words, 1)?,
        file: FileNo(small(words, 2)?),
    })
}

fn kind(word: &str) -> Option<EndKind> {
    match word {
        "complete" => Some(EndKind::Complete),
        "failed" => Some(EndKind::CommandFailed),
        "large" => Some(EndKind::InputsTooLarge),
        "room" => Some(EndKind::NoRoom),
        "waited" => Some(EndKind::Waited),
        "cleaned" => Some(EndKind::Cleaned),
        _ => None,
    }
}

fn ended(words: &[&str]) -> Option<Record> {
    Some(Record::Ended {
        moment: whole(words, 1)?,
        kind: kind(words.get(2)?)?,
    })
}

fn record_of(alloc: Global, plan: &Plan, digest: Digest, line: &str) -> Option<Record> {
    let words: Vec<&str> = line.split_whitespace().collect(alloc).ok()?;
    let word = *words.get(0)?;
    match word {
        "opened" => opened(alloc, plan, digest, &words),
        "resumed" => resumed(&words),
        "dropped" => dropped(&words),
        "ended" => ended(&words),
        _ => attempted(alloc, plan, word, &words),
    }
}

/// The records of a script, none where a line is out of form.
pub fn records_of(alloc: Global, plan: &Plan, digest: Digest, script: &str) -> Option<Vec<Record>> {
    let mut records = Vec::new(alloc);
    for line in script.lines() {
        records.push(record_of(alloc, plan, digest, line)?).ok()?;
    }
    Some(records)
}
