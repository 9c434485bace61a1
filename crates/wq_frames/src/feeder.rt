//! A feeder: bytes in, in any pieces, and messages out.
ghost use Rattle.std.specs.Prelude.{◌≡◌, OnOk, OnErr, IfOk, IsOk, [], true, Err, length};
ghost use Rattle.wq_frames.specs.Heard.{gave_message, Shows};
ghost use Rattle.wq_messages.specs.Reading.{message_of};
ghost use Rattle.wq_messages.specs.Views.{HasMessage, shown};

use crate::codec::{FrameCodec, FrameFault};
use bytes::BytesMut;
use flow_types::Memory;
use std::alloc::Global;
use std::marker::Model;
use thiserror::Error;
use tokio_util::codec::Decoder;
use wq_messages::{MessageFault, View, read_message, view_of};

/// Why no more messages come.
#[derive(Clone, Copy, Debug, PartialEq, Eq, Error)]
pub enum FeedFault {
    /// A frame's length is above the limit.
    #[error("a frame of {0} bytes")]
    TooLong(u32),
    /// A frame's body is no message.
    #[error("bad message: {0}")]
    Bad(MessageFault),
    /// There is no memory for the next message.
    #[error("out of memory")]
    Memory,
}

/// What came out of the bytes fed so far.
pub enum Heard<'a> {
    /// The next message.
    Message(View<'a>),
    /// The bytes left are less than a whole frame.
    NotYet,
}

/// A stream of messages that comes in pieces. It stops for good at its first fault.
#[derive(Drop)]
pub struct Feeder {
    buffer: BytesMut,
    body: BytesMut,
    stop: Option<FeedFault>,
    alloc: Global,
}

impl Model for Feeder {
    ghost use Rattle.wq_frames.specs.Streams.{Stream};

    ghost Value = { Stream };

    ghost view = { λ f. record { rest = f.buffer.items; body = f.body.items; stop = f.stop } };
}

// The answer of a step, with the message of the body that it took.
fn shown_step(step: Result<bool, FeedFault>, body: &BytesMut) -> Result<Heard<'_>, FeedFault>
    requires { IfOk step (λ taken. taken ≡ true → HasMessage body.now.items) }
    ensures answer { gave_message result ≡ step }
    ensures shows { Shows result body.now.items }
{
    if step? {
        Ok(Heard::Message(view_of(body.as_slice())))
    } else {
        Ok(Heard::NotYet)
    }
}

impl Feeder {
    ghost use Rattle.wq_frames.specs.Streams.{Stream, at_rest, fed, let_go, with_body, stopped, heard_as, heard_by, AdvancesFrom};

    /// A stream of which nothing came. It takes no memory.
    pub fn new(alloc: Global) -> Result<Feeder, Memory>
        ensures empty { IfOk result (λ f. f ≡ at_rest [] []) }
        ensures succeeds { IsOk result }
    {
        Ok(Feeder {
            buffer: BytesMut::new(alloc),
            body: BytesMut::new(alloc),
            stop: None,
            alloc,
        })
    }

    /// Takes the next piece of the stream and lets go of the message heard last. Where there is no
    /// memory it takes nothing; after a fault it changes nothing.
    pub fn feed(&mut self, piece: &[u8]) -> Result<(), Memory>
        ensures ok { OnOk result (self.new ≡ fed self.old piece.now) }
        ensures err { OnErr result (self.new ≡ let_go self.old) }
    {
        if self.stop.is_some() {
            return Ok(());
        }
        // While a body lives, the buffer has two owners, and would be copied as a whole to grow.
        self.body = BytesMut::new(self.alloc);
        match self.buffer.extend_from_slice(piece) {
            Ok(()) => Ok(()),
            Err(_) => Err(Memory),
        }
    }

    /// How many bytes no frame took yet.
    pub fn left(&self) -> usize
        ensures { result ≡ length self.now.rest }
    {
        self.buffer.len()
    }

    /// The bytes that no frame took yet.
    pub fn rest(&self) -> &[u8]
        ensures { result.now ≡ self.now.rest }
    {
        self.buffer.as_slice()
    }

    // No message comes from now on.
    fn stop_at(&mut self, fault: FeedFault) -> Result<bool, FeedFault>
        ensures answer { result ≡ Err fault }
        ensures stream { self.new ≡ stopped fault self.old }
    {
        self.stop = Some(fault);
        Err(fault)
    }

    // Keeps the body that was taken, and stops where it is no message.
    fn hear(&mut self, body: BytesMut) -> Result<bool, FeedFault>
        ensures answer { result ≡ heard_as (message_of body.items) }
        ensures stream { self.new
            ≡ heard_by (message_of body.items) (with_body body.items self.old) }
        ensures message { IfOk result (λ taken. taken ≡ true → HasMessage self.new.body) }
    {
        self.body = body;
        match read_message(self.body.as_slice()) {
            Ok(_) => Ok(true),
            Err(fault) => self.stop_at(FeedFault::Bad(fault)),
        }
    }

    /// Takes the next message off the front, and answers whether there was one. At a fault it stops
    /// for good: what was fed stays, but for the frame of a body that is no message.
    pub fn advance(&mut self) -> Result<bool, FeedFault>
        ensures step { AdvancesFrom self.old.stop self.old result self.new }
        ensures message { IfOk result (λ taken. taken ≡ true → HasMessage self.new.body) }
    {
        if let Some(fault) = self.stop {
            return Err(fault);
        }
        match FrameCodec.decode(&mut self.buffer) {
            Ok(None) => Ok(false),
            Ok(Some(body)) => self.hear(body),
            Err(FrameFault::TooLong(length)) => self.stop_at(FeedFault::TooLong(length)),
            Err(FrameFault::Memory) => self.stop_at(FeedFault::Memory),
        }
    }

    /// The message that was taken last.
    pub fn heard(&self) -> View<'_>
        requires { HasMessage self.now.body }
        ensures { result ≡ shown self.now.body }
    {
        view_of(self.body.as_slice())
    }

    /// The next message, or NotYet where the bytes left are less than a whole frame. Where
    /// something is to be known of the feeder afterwards, as in a loop, call `advance` and `heard`.
    pub fn next(&mut self) -> Result<Heard<'_>, FeedFault>
        ensures { (after : Stream) × AdvancesFrom self.old.stop self.old (gave_message result) after
            × Shows result after.body }
    {
        let step = self.advance();
        shown_step(step, &self.body)
    }
}
