//! A peer at a link in memory, call by call.
use crate::hex_words::bytes_of;
use crate::sessions::{about, said, shown_files};
use crate::text::{add, shown_content, shown_contents, shown_failure, shown_offer};
use flow_types::{AttemptNo, Bytes, FileNo, Key, Memory, Message, Rows, Task};
use mem_links::{LinkStep, MemLink};
use mem_outside::Blank;
use peers::{Leave, Listened, Peer, Told};
use std::alloc::{AllocError, Global};
use wq_messages::read_message;

// The most bytes of a content that is put.
const MOST_CONTENT: usize = 67_108_864;

// The most bytes of a body that is asked.
const MOST_BODY: usize = 71_303_168;

/// A peer at a link in memory.
pub type Met = Peer<Blank, MemLink>;

fn step_of(alloc: Global, text: &str) -> Result<Option<LinkStep>, AllocError> {
    let (word, rest) = text.split_once(' ').unwrap_or((text, ""));
    Ok(match word {
        "give" => Some(LinkStep::Give(Bytes::from_vec(bytes_of(alloc, rest)?))),
        "idle" => Some(LinkStep::Idle),
        "close" => Some(LinkStep::Close),
        "fail" => Some(LinkStep::Fail),
        "failsend" => Some(LinkStep::FailSend),
        _ => None,
    })
}

fn steps_of(alloc: Global, text: &str) -> Result<Rows<LinkStep>, AllocError> {
    let mut steps = Vec::new(alloc);
    for part in text.split(';') {
        if let Some(step) = step_of(alloc, part.trim())? {
            steps.push(step)?;
        }
    }
    Ok(Rows::of(steps))
}

/// A peer in the run of the first word, over a link with the steps behind it.
pub fn met(alloc: Global, peer: &mut Option<Met>, text: &str) -> Result<String, AllocError> {
    let (run, rest) = text.split_once(';').unwrap_or((text, ""));
    let run = run.trim().parse::<u64>().unwrap_or(0);
    let way = MemLink::new(alloc, steps_of(alloc, rest)?);
    match Peer::new(alloc, way, run) {
        Ok(new) => *peer = Some(new),
        Err(_) => return Err(AllocError),
    }
    format!(in alloc; "link {run}")
}

fn shown_leave(alloc: Global, leave: Leave) -> Result<String, AllocError> {
    match leave {
        Leave::Closed => said(alloc, "leave, closed"),
        Leave::Failed => said(alloc, "leave, failed"),
        Leave::Bad => said(alloc, "leave, bad"),
        Leave::Unexpected => said(alloc, "leave, unexpected"),
        Leave::Memory => Err(AllocError),
    }
}

fn listens(alloc: Global, peer: &mut Met) -> Result<String, AllocError> {
    match peer.listen(alloc) {
        Ok(Listened::Piece) => said(alloc, "piece"),
        Ok(Listened::Idle(idles)) => format!(in alloc; "idle {idles}"),
        Err(leave) => shown_leave(alloc, leave),
    }
}

fn shown_end(alloc: Global, attempt: AttemptNo, outs: &[Bytes]) -> Result<String, AllocError> {
    let mut text = about(alloc, "finish", attempt)?;
    text.push_str(" ")?;
    add(&mut text, shown_contents(alloc, outs))?;
    Ok(text)
}

fn shown_told(alloc: Global, told: &Told) -> Result<String, AllocError> {
    match told {
        Told::Nothing => said(alloc, "nothing"),
        Told::Joined {
            total,
            largest,
            cache,
        } => shown_offer(alloc, "joined", *total, *largest, *cache),
        Told::Changed {
            total,
            largest,
            cache,
        } => shown_offer(alloc, "changed", *total, *largest, *cache),
        Told::Finish { attempt, outs } => shown_end(alloc, *attempt, outs.as_slice()),
        Told::Fail { attempt, why } => {
            let mut text = about(alloc, "fail", *attempt)?;
            text.push_str(" ")?;
            add(&mut text, shown_failure(alloc, *why))?;
            Ok(text)
        }
        Told::Lose(attempt) => about(alloc, "lose", *attempt),
        Told::PutAgain { attempt, files } => {
            let before = about(alloc, "put again for", *attempt)?;
            shown_files(alloc, before.as_str(), files.as_slice())
        }
        Told::Stale(attempt) => about(alloc, "stale", *attempt),
    }
}

fn hears(alloc: Global, peer: &mut Met) -> Result<String, AllocError> {
    match peer.hear(alloc) {
        Ok(told) => shown_told(alloc, &told),
        Err(leave) => shown_leave(alloc, leave),
    }
}

fn opens(alloc: Global, peer: &mut Met, task: &Task) -> Result<String, AllocError> {
    if peer.has(task.attempt) {
        return said(alloc, "open already");
    }
    match peer.open(task) {
        Ok(files) if files.is_empty() => said(alloc, "puts nothing"),
        Ok(files) => shown_files(alloc, "puts", files.as_slice()),
        Err(Memory) => Err(AllocError),
    }
}

// `word` of a call, and what it answers where it didn't fail.
fn shown_sent(alloc: Global, answer: Result<(), Leave>, word: &str) -> Result<String, AllocError> {
    match answer {
        Ok(()) => said(alloc, word),
        Err(leave) => shown_leave(alloc, leave),
    }
}

// Opens or asks the task that a body in hex spells.
fn of_task(alloc: Global, peer: &mut Met, word: &str, digits: &str) -> Result<String, AllocError> {
    let body = bytes_of(alloc, digits)?;
    if body.len() > MOST_BODY {
        return said(alloc, "too long");
    }
    let Ok(view) = read_message(body.as_slice()) else {
        return said(alloc, "no message");
    };
    match view.to_message(alloc) {
        Ok(Message::Task(task)) => match word {
            "open" => opens(alloc, peer, &task),
            _ => shown_sent(alloc, peer.ask(alloc, task), "asked"),
        },
        Ok(_) => said(alloc, "no task"),
        Err(Memory) => Err(AllocError),
    }
}

// Puts a content: a run, a file and the content in hex.
fn puts(alloc: Global, peer: &mut Met, text: &str) -> Result<String, AllocError> {
    let (run, rest) = text.split_once(' ').unwrap_or((text, ""));
    let (file, digits) = rest.split_once(' ').unwrap_or((rest, ""));
    let key = Key {
        run: run.parse::<u64>().unwrap_or(0),
        file: FileNo(file.parse::<u32>().unwrap_or(0)),
    };
    let content = bytes_of(alloc, digits)?;
    if content.len() > MOST_CONTENT {
        return said(alloc, "too long");
    }
    shown_sent(alloc, peer.put(alloc, key, Bytes::from_vec(content)), "put")
}

fn shown_either(
    alloc: Global,
    answer: Result<bool, Leave>,
    word: &str,
    other: &str,
) -> Result<String, AllocError> {
    match answer {
        Ok(true) => said(alloc, word),
        Ok(false) => said(alloc, other),
        Err(leave) => shown_leave(alloc, leave),
    }
}

fn cancels(alloc: Global, peer: &mut Met, attempt: &str) -> Result<String, AllocError> {
    let attempt = AttemptNo(attempt.parse::<u64>().unwrap_or(0));
    shown_either(alloc, peer.cancel(alloc, attempt), "cancelled", "not open")
}

fn unlinks(alloc: Global, peer: &mut Met, file: &str) -> Result<String, AllocError> {
    let file = FileNo(file.parse::<u32>().unwrap_or(0));
    shown_either(alloc, peer.unlink(alloc, file), "unlinked", "not known")
}

fn has(alloc: Global, peer: &Met, attempt: &str) -> Result<String, AllocError> {
    let attempt = AttemptNo(attempt.parse::<u64>().unwrap_or(0));
    said(
        alloc,
        if peer.has(attempt) {
            "open"
        } else {
            "not open"
        },
    )
}

// How often the link was idle, or how often it failed.
fn counted(alloc: Global, word: &str, count: u64) -> Result<String, AllocError> {
    format!(in alloc; "{word} {count}")
}

fn sends(alloc: Global, peer: &mut Met, word: &str, rest: &str) -> Result<String, AllocError> {
    match word {
        "open" | "ask" => of_task(alloc, peer, word, rest),
        "put" => puts(alloc, peer, rest),
        "cancel" => cancels(alloc, peer, rest),
        "unlink" => unlinks(alloc, peer, rest),
        _ => shown_sent(alloc, peer.bye(alloc), "said bye"),
    }
}

fn calls(alloc: Global, peer: &mut Met, text: &str) -> Result<String, AllocError> {
    let (word, rest) = text.split_once(' ').unwrap_or((text, ""));
    match word {
        "listen" => listens(alloc, peer),
        "hear" => hears(alloc, peer),
        "has" => has(alloc, peer, rest),
        "idles" => counted(alloc, "idles", peer.idles()),
        "faults" => counted(alloc, "faults", peer.faults()),
        _ => sends(alloc, peer, word, rest),
    }
}

/// What a call of the peer answers.
pub fn called(alloc: Global, peer: &mut Option<Met>, text: &str) -> Result<String, AllocError> {
    match peer {
        Some(peer) => calls(alloc, peer, text),
        None => said(alloc, "no peer"),
    }
}

/// All that was sent over the link of the peer, which is gone then.
pub fn ended(alloc: Global, peer: &mut Option<Met>) -> Result<String, AllocError> {
    match peer.take() {
        Some(peer) => {
            let way = peer.into_way();
            let sent = shown_content(alloc, way.sent())?;
            format!(in alloc; "sent {sent}")
        }
        None => said(alloc, "no peer"),
    }
}
