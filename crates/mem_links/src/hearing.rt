//! What a link that serves makes of what is sent to it.
ghost use Rattle.std.specs.Prelude.{◌≡◌, ◌≤◌, ◌++◌, [], length, replicate};
ghost use Rattle.std.specs.Prelude.{IfOk, IfSome, IfNone, OnOk};
ghost use Rattle.flow_types.specs.declared.messages.Message.{Message as Sent};
ghost use Rattle.flow_types.specs.declared.messages.Message.TheVariants as messages;
ghost use Rattle.message_forms.specs.Streams.{framed, IsFramed};
ghost use Rattle.wq_messages.specs.Spelling.{spelling, HasCounts, IsTask, most_body};
ghost use Rattle.mem_links.specs.Servers.{answer, blanks, contains_inputs, contains_key, done_of};
ghost use Rattle.mem_links.specs.Servers.{given, key_put, BeginsNone, HearsAll};

use crate::mem_link::LinkStep;
use byte_fields::{counted_bytes, put_counted};
use flow_types::{Bytes, Key, Memory, Message, Outcome, Port, Rows, Task};
use std::alloc::Global;
use std::collections::VecDeque;
use wq_messages::{Head, View, read_message, write_message};

// The most bytes of a frame's body.
const MOST_BODY: usize = 71_303_168;

/// Takes the messages off the front, and answers what is left. Their keys stand behind the keys,
/// and what is given for them behind what is given.
pub(crate) fn hear_all<'a>(
    alloc: Global,
    bytes: &'a [u8],
    keys: &mut Vec<Key>,
    gives: &mut VecDeque<LinkStep>,
) -> Result<&'a [u8], Memory>
    ensures { IfOk result (λ rest. HearsAll bytes.now keys.old.items gives.old.items rest.now
        keys.new.items gives.new.items) }
{
    let mut rest = bytes;
    while let Some((message, behind)) = first_message(rest) {
        hear(alloc, &message, keys, gives)?;
        rest = behind;
    }
    Ok(rest)
}

// The message in front, and what is behind its frame, where a whole one is there.
fn first_message(bytes: &[u8]) -> Option<(View<'_>, &[u8])>
    ensures some { IfSome result (λ x. IsFramed x.0 × (bytes.now ≡ framed x.0 ++ x.1.now)) }
    ensures none { IfNone result (BeginsNone bytes.now) }
{
    match counted_bytes(bytes) {
        Ok((body, behind)) => {
            if body.len() > MOST_BODY {
                return None;
            }
            match read_message(body) {
                Ok(message) => Some((message, behind)),
                Err(_) => None,
            }
        }
        Err(_) => None,
    }
}

// Takes one message in.
fn hear(
    alloc: Global,
    message: &View<'_>,
    keys: &mut Vec<Key>,
    gives: &mut VecDeque<LinkStep>,
) -> Result<(), Memory>
    requires { IsFramed message.now }
    ensures keys { OnOk result (keys.new.items ≡ keys.old.items ++ key_put message.now) }
    ensures gives { OnOk result (gives.new.items
        ≡ gives.old.items ++ given (answer keys.old.items message.now)) }
{
    match message.head() {
        Head::Put { key } => match keys.push(key) {
            Ok(()) => Ok(()),
            Err(_) => Err(Memory),
        },
        Head::Task => match message.to_message(alloc)? {
            Message::Task(task) => give_result(alloc, &task, keys.as_slice(), gives),
            _ => Ok(()),
        },
        _ => Ok(()),
    }
}

// Gives the result of a task that has all of its inputs.
fn give_result(
    alloc: Global,
    task: &Task,
    keys: &[Key],
    gives: &mut VecDeque<LinkStep>,
) -> Result<(), Memory>
    requires { IsTask task.now }
    ensures { OnOk result (gives.new.items
        ≡ gives.old.items ++ given (answer keys.now (messages.Task task.now))) }
{
    if !has_inputs(keys, task.run, task.inputs.as_slice()) {
        return Ok(());
    }
    let result = result_of(alloc, task)?;
    let frame = frame_of(alloc, &result)?;
    match gives.push_back(LinkStep::Give(frame)) {
        Ok(()) => Ok(()),
        Err(_) => Err(Memory),
    }
}

fn has_inputs(keys: &[Key], run: u64, ports: &[Port]) -> bool
    ensures { result ≡ contains_inputs keys.now run ports.now }
{
    ports.iter().all(|port| has_key(keys, run, port))
}

fn has_key(keys: &[Key], run: u64, port: &Port) -> bool
    ensures { result ≡ contains_key (record { run = run; file = port.now.file }) keys.now }
{
    keys.iter()
        .any(|key| key.run == run && key.file.0 == port.file.0)
}

// A task's success, with empty outputs.
#[tactic(auto, using(crate::proofs::Answering::blanks_are))]
fn result_of(alloc: Global, task: &Task) -> Result<Message, Memory>
    ensures { IfOk result (λ message. message ≡ done_of task.now) }
{
    let contents = empty_contents(alloc, task.outputs.len())?;
    Ok(Message::Done {
        attempt: task.attempt,
        outcome: Outcome::Success(contents),
    })
}

// So many empty contents.
fn empty_contents(alloc: Global, count: usize) -> Result<Rows<Bytes>, Memory>
    ensures { IfOk result (λ contents. contents ≡ replicate count []) }
{
    let mut contents = Rows::new(alloc);
    for _ in 0..count {
        let empty = Bytes::of(alloc, b"")?;
        if contents.push(empty).is_err() {
            return Err(Memory);
        }
    }
    Ok(contents)
}

/// The frame of a message.
pub(crate) fn frame_of(alloc: Global, message: &Message) -> Result<Bytes, Memory>
    requires counts { HasCounts message.now }
    requires short { length (spelling message.now) ≤ most_body }
    ensures frame { IfOk result (λ bytes. bytes ≡ framed message.now) }
    ensures fits { IfOk result (λ bytes. IsFramed message.now) }
{
    let body = write_message(alloc, message)?;
    let mut out = Vec::new(alloc);
    put_counted(&mut out, body.as_slice())?;
    Ok(Bytes::from_vec(out))
}
