//! What is said to a peer.
ghost use Rattle.std.specs.Prelude.{◌≡◌, ◌≤◌, length, IfOk};
ghost use Rattle.flow_types.specs.declared.messages.Message.TheVariants as messages;
ghost use Rattle.flow_types.specs.Plans.{most_bytes};
ghost use Rattle.message_forms.specs.Streams.{frame};
ghost use Rattle.wq_messages.specs.Spelling.{HasCounts, IsKey, most_body, spelling};
ghost use Rattle.peers.specs.Sends.{Sends, put_head};
ghost use Rattle.peers.specs.States.{GoesOn, MaySend, OnlyMemory};

use crate::Leave;
use byte_fields::{put_counted, put_u8, put_u32, put_u64};
use flow_types::{Bytes, Key, Memory, Message};
use links::Link;
use outside::Commands;
use std::alloc::Global;
use wq_messages::write_message;

// A body behind its length.
fn frame_of(alloc: Global, body: &[u8]) -> Result<Bytes, Memory>
    requires { length body.now ≤ most_body }
    ensures { IfOk result (λ bytes. bytes ≡ frame body.now) }
{
    let mut out = Vec::new(alloc);
    put_counted(&mut out, body)?;
    Ok(Bytes::from_vec(out))
}

/// Says one message.
pub(crate) fn say<F: Commands, L: Link<F>>(
    alloc: Global,
    way: &mut L,
    message: &Message,
) -> Result<(), Leave>
    requires counts { HasCounts message.now }
    requires short { length (spelling message.now) ≤ most_body }
    ensures sends { L.tells → Sends result message.now (L.history way.old) (L.history way.new) }
    ensures on { GoesOn L.honest L.sure L.offers way.old way.new }
    ensures closed { L.is_closed way.new ≡ L.is_closed way.old }
    ensures cause { MaySend (L.count way.old) (L.count way.new) result }
    ensures sure { L.sure way.old → OnlyMemory result }
{
    let body = write_message(alloc, message)?;
    let bytes = frame_of(alloc, body.as_slice())?;
    match way.hand(bytes) {
        Ok(()) => Ok(()),
        Err(fault) => Err(Leave::of(fault)),
    }
}

// All of a Put's frame that stands before its content.
fn head_of(alloc: Global, key: Key, length: u32) -> Result<Bytes, Memory>
    requires { length ≤ most_bytes }
    ensures head { IfOk result (λ bytes. bytes ≡ put_head key length) }
    ensures fits { IsKey key }
{
    let mut out = Vec::new(alloc);
    put_u32(&mut out, 17 + length)?;
    put_u8(&mut out, 2)?;
    put_u64(&mut out, key.run)?;
    put_u32(&mut out, key.file.0)?;
    put_u32(&mut out, length)?;
    Ok(Bytes::from_vec(out))
}

/// Says a Put. The content is handed over as it stands, behind the rest of the frame, and isn't
/// copied.
pub(crate) fn say_put<F: Commands, L: Link<F>>(
    alloc: Global,
    way: &mut L,
    key: Key,
    content: Bytes,
) -> Result<(), Leave>
    requires short { length content ≤ most_bytes }
    ensures sends { L.tells → Sends result (messages.Put key content) (L.history way.old)
        (L.history way.new) }
    ensures on { GoesOn L.honest L.sure L.offers way.old way.new }
    ensures closed { L.is_closed way.new ≡ L.is_closed way.old }
    ensures cause { MaySend (L.count way.old) (L.count way.new) result }
    ensures sure { L.sure way.old → OnlyMemory result }
{
    let head = head_of(alloc, key, content.as_slice().len() as u32)?;
    if let Err(fault) = way.send(head.as_slice()) {
        return Err(Leave::of(fault));
    }
    match way.hand(content) {
        Ok(()) => Ok(()),
        Err(fault) => Err(Leave::of(fault)),
    }
}
