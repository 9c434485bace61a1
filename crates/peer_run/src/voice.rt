//! What a peer says to its parent.
ghost use Rattle.std.specs.Prelude.{◌≡◌, ◌≤◌, ◌∷◌, ◌++◌, [], List, Ok, length, IfOk, OnOk};
ghost use Rattle.flow_types.specs.declared.messages.Message.{Message as Sent};
ghost use Rattle.message_forms.specs.Streams.{frame, framed};
ghost use Rattle.outside.specs.Causes.{HasCause};
ghost use Rattle.links.specs.Passings.{received_in, Transmits};
ghost use Rattle.links.specs.Peers.{IsRightLink, MaySay, Says};
ghost use Rattle.wq_messages.specs.Spelling.{spelling, HasCounts, most_body};
ghost use Rattle.peer_run.specs.Says.{CanBeTold, Each, SaysAll, SendsAll};

use byte_fields::put_counted;
use flow_types::{Bytes, Memory, Message, Rows};
use links::Link;
use outside::{Commands, Fault};
use std::alloc::Global;
use wq_messages::write_message;

// A body behind its length.
fn frame_of(alloc: Global, body: &[u8]) -> Result<Bytes, Memory>
    requires { length body.now ≤ most_body }
    ensures { IfOk result (λ bytes. bytes ≡ frame body.now) }
{
    let mut out = Vec::new(alloc);
    put_counted(&mut out, body)?;
    Ok(Bytes::from_vec(out))
}

/// Says one message. Whatever comes of it, a link that was right so far is honest.
pub fn say<F: Commands, L: Link<F>>(
    alloc: Global,
    link: &mut L,
    message: &Message,
) -> Result<(), Fault>
    requires counts { HasCounts message.now }
    requires short { length (spelling message.now) ≤ most_body }
    ensures said { (said : List Sent) → L.tells
        → IsRightLink F.gives F.may_fail (L.history link.old) said
        → MaySay F.gives F.may_fail (received_in (L.history link.old)) message.now
        → Says F.gives F.may_fail message.now said (L.history link.new) result }
    ensures sent { L.tells → Transmits result (framed message.now) (L.history link.old)
        (L.history link.new) }
    ensures closed { L.is_closed link.new ≡ L.is_closed link.old }
    ensures cause { HasCause (L.count link.old) (L.count link.new) result }
{
    let body = write_message(alloc, message)?;
    let bytes = frame_of(alloc, body.as_slice())?;
    link.hand(bytes)
}

/// Says the one message that there may be.
pub(crate) fn say_first<F: Commands, L: Link<F>>(
    alloc: Global,
    link: &mut L,
    messages: &[Message],
) -> Result<(), Fault>
    requires few { length messages.now ≤ 1 }
    requires told { Each CanBeTold messages.now }
    ensures said { (said : List Sent) → L.tells
        → IsRightLink F.gives F.may_fail (L.history link.old) said
        → Each (MaySay F.gives F.may_fail (received_in (L.history link.old))) messages.now
        → SaysAll F.gives F.may_fail messages.now said (L.history link.new) result }
    ensures sent { L.tells → SendsAll result messages.now (L.history link.old)
        (L.history link.new) }
    ensures none { messages.now ≡ [] → result ≡ Ok tt }
    ensures closed { L.is_closed link.new ≡ L.is_closed link.old }
    ensures cause { HasCause (L.count link.old) (L.count link.new) result }
{
    match messages.first() {
        Some(message) => say(alloc, link, message),
        None => Ok(()),
    }
}
