//! What a foreman says to its parent, and sends to its workers.
ghost use Rattle.std.specs.Prelude.{◌≡◌, ◌≤◌, ◌<◌, ◌^◌, ◌+◌, ◌++◌, [], ℕ, List, Ok, IfOk, OnOk, flat_map, length};
ghost use Rattle.byte_fields.specs.Spelling.{counted};
ghost use Rattle.flow_types.specs.declared.job.Outcome.TheVariants as outcomes;
ghost use Rattle.flow_types.specs.declared.messages.Message.{Message as Said};
ghost use Rattle.flow_types.specs.declared.messages.Message.TheVariants as messages;
ghost use Rattle.links.specs.declared.passing.Passed.{Passed};
ghost use Rattle.links.specs.Passings.{received_in};
ghost use Rattle.message_forms.specs.Streams.{IsFramed, frame, framed};
ghost use Rattle.wq_messages.specs.Spelling.{HasCounts, IsKey, most_body, spelling};
ghost use Rattle.peers.specs.Sends.{put_head};
ghost use Rattle.foreman_run.specs.Says.{Adds, IsSaying, IsSayingBy, SaysOne, result_head};
ghost use Rattle.links.specs.Peers.{IsRightLink, MaySay};
ghost use Rattle.outside.specs.Causes.{HasCause};
ghost use Rattle.peer_run.specs.Says.{CanBeTold, Each, SaysAll, SendsAll};

use byte_fields::{put_bytes, put_counted, put_u8, put_u32, put_u64};
use flow_types::{AttemptNo, Bytes, Key, Memory, Message, Outcome, Rows};
use links::Link;
use outside::{Commands, Fault};
use peer_run::say;
use std::alloc::Global;
use wq_messages::write_message;

// A body behind its length.
fn frame_of(alloc: Global, body: &[u8]) -> Result<Bytes, Memory>
    requires { length body.now ≤ most_body }
    ensures { IfOk result (λ bytes. bytes ≡ frame body.now) }
{
    let mut out = Vec::new(alloc);
    put_counted(&mut out, body)?;
    Ok(Bytes::from_vec(out))
}

// Sends one message to a worker in one frame.
fn send_frame<F: Commands, L: Link<F>>(
    alloc: Global,
    way: &mut L,
    message: &Message,
) -> Result<(), Fault>
    requires counts { HasCounts message.now }
    requires short { length (spelling message.now) ≤ most_body }
    ensures sent { L.tells
        → OnOk result (Adds (framed message.now) (L.history way.old) (L.history way.new)) }
    ensures same { L.tells → received_in (L.history way.new) ≡ received_in (L.history way.old) }
    ensures fits { OnOk result (IsFramed message.now) }
    ensures honest { L.honest way.old → L.honest way.new }
    ensures cause { HasCause (L.count way.old) (L.count way.new) result }
{
    let body = write_message(alloc, message)?;
    let bytes = frame_of(alloc, body.as_slice())?;
    way.hand(bytes)
}

// All of a Put's frame that stands before a content of this length.
fn head_of(alloc: Global, key: Key, length: u32) -> Result<Bytes, Memory>
    requires { 17 + length ≤ most_body }
    ensures head { IfOk result (λ bytes. bytes ≡ put_head key length) }
    ensures fits { IsKey key }
{
    let mut out = Vec::new(alloc);
    put_u32(&mut out, 17 + length)?;
    put_u8(&mut out, 2)?;
    put_u64(&mut out, key.run)?;
    put_u32(&mut out, key.file.0)?;
    put_u32(&mut out, length)?;
    Ok(Bytes::from_vec(out))
}

// Sends a Put to a worker. The content is handed over as it stands, behind the rest of the frame, and
// isn't copied.
fn send_put<F: Commands, L: Link<F>>(
    alloc: Global,
    way: &mut L,
    key: Key,
    content: Bytes,
) -> Result<(), Fault>
    requires short { 17 + length content ≤ most_body }
    ensures sent { L.tells → OnOk result
        (Adds (framed (messages.Put key content)) (L.history way.old) (L.history way.new)) }
    ensures same { L.tells → received_in (L.history way.new) ≡ received_in (L.history way.old) }
    ensures fits { OnOk result (IsFramed (messages.Put key content)) }
    ensures honest { L.honest way.old → L.honest way.new }
    ensures cause { HasCause (L.count way.old) (L.count way.new) result }
{
    let head = head_of(alloc, key, content.as_slice().len() as u32)?;
    match way.send(head.as_slice()) {
        Ok(()) => way.hand(content),
        Err(fault) => Err(fault),
    }
}

/// Sends one message to a worker, over a link that stays honest where it is.
pub(crate) fn send<F: Commands, L: Link<F>>(
    alloc: Global,
    way: &mut L,
    message: Message,
) -> Result<(), Fault>
    requires counts { HasCounts message }
    requires short { length (spelling message) ≤ most_body }
    ensures sent { L.tells
        → OnOk result (Adds (framed message) (L.history way.old) (L.history way.new)) }
    ensures same { L.tells → received_in (L.history way.new) ≡ received_in (L.history way.old) }
    ensures fits { OnOk result (IsFramed message) }
    ensures honest { L.honest way.old → L.honest way.new }
    ensures cause { HasCause (L.count way.old) (L.count way.new) result }
{
    match message {
        Message::Put { key, content } => send_put(alloc, way, key, content),
        other => send_frame(alloc, way, &other),
    }
}

/// Contents of so many bytes are handed over as they stand. Shorter ones are copied into one piece.
const LONG_CONTENT: usize = 65_536;

// How many bytes these contents take, each behind its length.
fn size_of(contents: &[Bytes]) -> u32
    requires { length (flat_map counted contents.now) ≤ most_body }
    ensures { result ≡ length (flat_map counted contents.now) }
{
    let mut size = 0;
    for content in contents {
        size += 4 + content.as_slice().len() as u32;
    }
    size
}

// All of a result's frame that stands before its contents: these are so many, of so many bytes.
fn result_head(alloc: Global, attempt: AttemptNo, many: u32, size: u32) -> Result<Vec<u8>, Memory>
    requires { 14 + size ≤ most_body }
    ensures head { IfOk result (λ head. head.items ≡ result_head attempt many size) }
    ensures fits { attempt.0 < 2 ^ 64 }
{
    let mut head = Vec::new(alloc);
    put_u32(&mut head, 14 + size)?;
    put_u8(&mut head, 4)?;
    put_u64(&mut head, attempt.0)?;
    put_u8(&mut head, 0)?;
    put_u32(&mut head, many)?;
    Ok(head)
}

// The next content goes behind this piece, which waits: with it, or at a later call.
fn say_content<F: Commands, U: Link<F>>(
    alloc: Global,
    link: &mut U,
    piece: Vec<u8>,
    content: Bytes,
) -> Result<Vec<u8>, Fault>
    requires { length content < 2 ^ 32 }
    ensures saying { (first : List Passed) (whole rest : List ℕ) → U.tells
        → IsSaying F.gives F.may_fail first whole (piece.items ++ (counted content ++ rest))
        (U.history link.old)
        → IsSayingBy F.gives F.may_fail first whole (λ piece. piece.items ++ rest)
        (U.history link.new) result }
    ensures closed { U.is_closed link.new ≡ U.is_closed link.old }
    ensures cause { HasCause (U.count link.old) (U.count link.new) result }
{
    let mut piece = piece;
    put_u32(&mut piece, content.as_slice().len() as u32)?;
    if content.as_slice().len() < LONG_CONTENT {
        put_bytes(&mut piece, content.as_slice())?;
        return Ok(piece);
    }
    match link.hand(Bytes::from_vec(piece)) {
        Ok(()) => {}
        Err(fault) => return Err(fault),
    }
    match link.hand(content) {
        Ok(()) => Ok(Vec::new(alloc)),
        Err(fault) => Err(fault),
    }
}

// The contents go behind this piece, each behind its length.
fn say_contents<F: Commands, U: Link<F>>(
    alloc: Global,
    link: &mut U,
    head: Vec<u8>,
    contents: Rows<Bytes>,
) -> Result<(), Fault>
    requires { length (flat_map counted contents) ≤ most_body }
    ensures saying { (first : List Passed) (whole : List ℕ) → U.tells
        → IsSaying F.gives F.may_fail first whole (head.items ++ flat_map counted contents)
        (U.history link.old)
        → IsSayingBy F.gives F.may_fail first whole (λ _. []) (U.history link.new) result }
    ensures closed { U.is_closed link.new ≡ U.is_closed link.old }
    ensures cause { HasCause (U.count link.old) (U.count link.new) result }
{
    let mut piece = head;
    for content in contents.into_vec() {
        match say_content(alloc, link, piece, content) {
            Ok(more) => piece = more,
            Err(fault) => return Err(fault),
        }
    }
    link.hand(Bytes::from_vec(piece))
}

// Says that an attempt succeeded. Its long contents are handed over, and aren't copied.
fn say_result<F: Commands, U: Link<F>>(
    alloc: Global,
    link: &mut U,
    attempt: AttemptNo,
    contents: Rows<Bytes>,
) -> Result<(), Fault>
    requires told { CanBeTold (messages.Done attempt (outcomes.Success contents)) }
    ensures one { SaysOne F.gives F.may_fail U.tells
        (messages.Done attempt (outcomes.Success contents)) (U.history link.old)
        (U.history link.new) result }
    ensures closed { U.is_closed link.new ≡ U.is_closed link.old }
    ensures cause { HasCause (U.count link.old) (U.count link.new) result }
{
    let size = size_of(contents.as_slice());
    let head = result_head(alloc, attempt, contents.len() as u32, size)?;
    say_contents(alloc, link, head, contents)
}

// Says one message in one piece.
fn say_plain<F: Commands, U: Link<F>>(
    alloc: Global,
    link: &mut U,
    message: Message,
) -> Result<(), Fault>
    requires told { CanBeTold message }
    ensures one { SaysOne F.gives F.may_fail U.tells message (U.history link.old)
        (U.history link.new) result }
    ensures closed { U.is_closed link.new ≡ U.is_closed link.old }
    ensures cause { HasCause (U.count link.old) (U.count link.new) result }
{
    say(alloc, link, &message)
}

// Says one message.
fn say_one<F: Commands, U: Link<F>>(
    alloc: Global,
    link: &mut U,
    message: Message,
) -> Result<(), Fault>
    requires told { CanBeTold message }
    ensures one { SaysOne F.gives F.may_fail U.tells message (U.history link.old)
        (U.history link.new) result }
    ensures closed { U.is_closed link.new ≡ U.is_closed link.old }
    ensures cause { HasCause (U.count link.old) (U.count link.new) result }
{
    match message {
        Message::Done {
            attempt,
            outcome: Outcome::Success(contents),
        } => say_result(alloc, link, attempt, contents),
        other => say_plain(alloc, link, other),
    }
}

/// Says these messages, in order.
pub(crate) fn say_all<F: Commands, U: Link<F>>(
    alloc: Global,
    link: &mut U,
    messages: Rows<Message>,
) -> Result<(), Fault>
    requires told { Each CanBeTold messages }
    ensures said { (said : List Said) → U.tells
        → IsRightLink F.gives F.may_fail (U.history link.old) said
        → Each (MaySay F.gives F.may_fail (received_in (U.history link.old))) messages
        → SaysAll F.gives F.may_fail messages said (U.history link.new) result }
    ensures sent { U.tells → SendsAll result messages (U.history link.old)
        (U.history link.new) }
    ensures none { messages ≡ [] → result ≡ Ok tt }
    ensures closed { U.is_closed link.new ≡ U.is_closed link.old }
    ensures cause { HasCause (U.count link.old) (U.count link.new) result }
{
    for message in messages.into_vec() {
        match say_one(alloc, link, message) {
            Ok(()) => {}
            Err(fault) => return Err(fault),
        }
    }
    Ok(())
}
