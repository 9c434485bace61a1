//! A cache and a worker, step by step.
use crate::hex_words::bytes_of;
use crate::peer_calls::Met;
use crate::text::{shown_message, shown_start};
use flow_types::{Amounts, AttemptNo, Bytes, Failure, FileNo, Key, Memory, Outcome, Rows};
use link_session::Session;
use std::alloc::{AllocError, Global};
use worker_cache::{Cache, PutRefused};
use worker_core::{Acts, WorkerCore};
use wq_messages::{PeerFault, read_message};

/// The cache, the worker, the session and the peer that the lines speak of.
#[derive(Drop)]
pub struct Room {
    pub cache: Cache,
    pub worker: WorkerCore,
    pub session: Session,
    pub peer: Option<Met>,
}

impl Room {
    /// A cache of so many bytes, a worker of 4 cores with a cache of as many, a session of run 0,
    /// and no peer.
    pub fn new(alloc: Global, cap: u64) -> Room {
        let total = Amounts {
            cores: 4,
            memory: 4096,
            disk: 16384,
        };
        Room {
            cache: Cache::new(alloc, cap),
            worker: WorkerCore::new(alloc, total, cap),
            session: Session::new(alloc, 0),
            peer: None,
        }
    }
}

fn said(alloc: Global, word: &str) -> Result<String, AllocError> {
    String::from_str(alloc, word)
}

fn number(words: &[&str], at: usize) -> u64 {
    match words.get(at) {
        Some(word) => word.parse::<u64>().unwrap_or(0),
        None => 0,
    }
}

// The key in the words 1 and 2: a run and a file.
fn key_of(words: &[&str]) -> Key {
    let file = FileNo(u32::try_from(number(words, 2)).unwrap_or(0));
    Key {
        run: number(words, 1),
        file,
    }
}

// As many bytes as word 3 says, each that word 4 says.
fn content_of(alloc: Global, words: &[&str]) -> Result<Bytes, AllocError> {
    let byte = u8::try_from(number(words, 4)).unwrap_or(0);
    let mut bytes = Vec::new(alloc);
    for _ in 0..number(words, 3) {
        bytes.push(byte)?;
    }
    Ok(Bytes::from_vec(bytes))
}

fn put(alloc: Global, cache: &mut Cache, words: &[&str]) -> Result<String, AllocError> {
    match cache.put(key_of(words), content_of(alloc, words)?) {
        Ok(()) => said(alloc, "put"),
        Err(PutRefused::Full { bytes, cap }) => format!(in alloc; "full {bytes} {cap}"),
        Err(PutRefused::Memory) => Err(AllocError),
    }
}

fn get(alloc: Global, cache: &Cache, words: &[&str]) -> Result<String, AllocError> {
    match cache.get(key_of(words)) {
        Some(content) => {
            let (len, first) = (content.len(), content.first().copied().unwrap_or(0));
            format!(in alloc; "{len} bytes of {first}")
        }
        None => said(alloc, "not held"),
    }
}

fn held(alloc: Global, held: bool) -> Result<String, AllocError> {
    said(alloc, if held { "held" } else { "not held" })
}

/// What a call of the cache answers.
pub fn shown_call(alloc: Global, cache: &mut Cache, words: &[&str]) -> Result<String, AllocError> {
    let key = key_of(words);
    match words.first().copied().unwrap_or("") {
        "put" => put(alloc, cache, words),
        "get" => get(alloc, cache, words),
        "touch" => held(alloc, cache.touch(key)),
        "holds" => held(alloc, cache.holds(key)),
        "pin" => held(alloc, cache.pin(key)),
        "unpin" => held(alloc, cache.unpin(key)),
        "unlink" => held(alloc, cache.unlink(key)),
        _ => said(alloc, "what is this"),
    }
}

// What the worker sends and starts, a line each; a line `nothing` where it does nothing.
fn shown_acts(alloc: Global, acts: &Acts) -> Result<String, AllocError> {
    let mut text = String::new(alloc);
    for message in acts.send.as_slice() {
        text.push_str("sends ")?;
        text.push_str(shown_message(alloc, message)?.as_str())?;
    }
    for start in acts.start.as_slice() {
        text.push_str(shown_start(alloc, start)?.as_str())?;
    }
    if acts.bye {
        text.push_str("ends")?;
    }
    if text.is_empty() {
        text.push_str("nothing")?;
    }
    Ok(text)
}

/// What the worker does on the message that a body in hex spells.
pub fn hears(alloc: Global, worker: &mut WorkerCore, digits: &str) -> Result<String, AllocError> {
    let body = bytes_of(alloc, digits)?;
    let Ok(view) = read_message(body.as_slice()) else {
        return said(alloc, "no message");
    };
    let Ok(message) = view.to_message(alloc) else {
        return Err(AllocError);
    };
    match worker.on_message(message) {
        Ok(acts) => shown_acts(alloc, &acts),
        Err(PeerFault::Unexpected) => said(alloc, "unexpected"),
        Err(PeerFault::Memory) => Err(AllocError),
    }
}

fn contents_of(alloc: Global, words: &[&str]) -> Result<Rows<Bytes>, AllocError> {
    let mut contents = Vec::new(alloc);
    for word in words.iter().skip(3) {
        contents.push(Bytes::from_vec(bytes_of(alloc, word)?))?;
    }
    Ok(Rows::of(contents))
}

fn outcome_of(alloc: Global, words: &[&str]) -> Result<Outcome, AllocError> {
    Ok(match words.get(2).copied().unwrap_or("") {
        "success" => Outcome::Success(contents_of(alloc, words)?),
        "status" => {
            let status = i32::try_from(number(words, 3)).unwrap_or(0);
            Outcome::Failed(Failure::Status(status))
        }
        _ => Outcome::NotRun,
    })
}

/// What the worker does where an attempt ended so.
pub fn reports(
    alloc: Global,
    worker: &mut WorkerCore,
    words: &[&str],
) -> Result<String, AllocError> {
    let attempt = AttemptNo(number(words, 1));
    if !worker.runs(attempt) {
        return said(alloc, "doesn't run");
    }
    match worker.on_report(attempt, outcome_of(alloc, words)?) {
        Ok(acts) => shown_acts(alloc, &acts),
        Err(Memory) => Err(AllocError),
    }
}
