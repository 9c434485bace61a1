//! A peer at its link.
ghost use Rattle.std.specs.Prelude.{◌≡◌, ◌≤◌, [], false, true, None, Some, List, Option, Ok, IsOk, IfOk, IfErr, OnOk, OnErr, length};
ghost use Rattle.byte_fields.specs.Laws.{IsBytes};
ghost use Rattle.flow_types.specs.declared.job.Task.{Task as TaskValue};
ghost use Rattle.flow_types.specs.declared.messages.Message.{Message as Said};
ghost use Rattle.flow_types.specs.declared.messages.Message.TheVariants as messages;
ghost use Rattle.flow_types.specs.Plans.{most_bytes};
ghost use Rattle.link_session.specs.Keys.{contains_key, forgotten, key_of, lacking};
ghost use Rattle.link_session.specs.Sessions.{closed_where, is_open, place, started};
ghost use Rattle.links.specs.Honesty.{IsOrderly};
ghost use Rattle.links.specs.Ill.{Misspeaks};
ghost use Rattle.links.specs.Passings.{received_in, sent_in};
ghost use Rattle.message_forms.specs.Streams.{IsAmong};
ghost use Rattle.wq_frames.specs.Frames.{front, part};
ghost use Rattle.wq_frames.specs.Streams.{fed, let_go};
ghost use Rattle.wq_messages.specs.Spelling.{HasCounts, most_body, spelling};
ghost use Rattle.peers.specs.Hears.{Hears, IsCalm, ServesOn, Turns};
ghost use Rattle.peers.specs.Provides.{Provides};
ghost use Rattle.peers.specs.Sends.{ServesAfter, ServesWhere, StaysServed};
ghost use Rattle.peers.specs.Serves.{IsNew, IsSettled, IsStillOwed, Serves};
ghost use Rattle.peers.specs.States.{GoesOn, MayListen, MaySend, OnlyMemory, PassesOn, Rests};
ghost use Rattle.peers.specs.States.{Settled, new_peer, no_key};
ghost use Rattle.peers.specs.Strangers.{is_stranger, may_greet};

use crate::voice::{say, say_put};
use crate::{Leave, Listened, Told};
use flow_types::{AttemptNo, Bytes, FileNo, Key, Memory, Message, Rows, Task};
use link_session::{Session, SessionFault};
use links::{Got, Link};
use outside::Commands;
use std::alloc::Global;
use std::marker::{Model, PhantomData};
use wq_frames::{FeedFault, Feeder};
use wq_messages::View;

/// A peer at its link, with the bytes that came and that no message took, and the session.
#[derive(Drop)]
pub struct Peer<F: Commands, L: Link<F>> {
    way: L,
    feeder: Feeder,
    session: Session,
    of: PhantomData<F>,
}

impl<F: Commands, L: Link<F>> Model for Peer<F, L> {
    ghost use Rattle.byte_fields.specs.Laws.{IsBytes};
    ghost use Rattle.peers.specs.States.{PeerState};

    ghost Value = { PeerState L };

    ghost view = { λ p. record { way = p.way; feed = p.feeder; session = p.session } };

    ghost invariant = { λ p. IsBytes p.feeder.rest };
}

// Whether bytes begin as a hello's frame does, as far as they came: a length of 35, and the kind 1.
fn may_greet(bytes: &[u8]) -> bool
    ensures { result ≡ may_greet bytes.now }
{
    let head = b"\x00\x00\x00\x23\x01";
    let first = &bytes[..bytes.len().min(head.len())];
    head.as_slice().starts_with(first)
}

// Whether no message was heard in the session, and these bytes, which came, can't begin with a
// hello.
fn is_strange(session: &Session, bytes: &[u8]) -> bool
    ensures { result ≡ is_stranger session.now.stage bytes.now }
{
    session.awaits_hello() && !may_greet(bytes)
}

// Takes a piece, and lets go of the message heard last.
fn take(feeder: &mut Feeder, piece: &[u8]) -> Result<(), Memory>
    ensures ok { OnOk result (feeder.new ≡ fed feeder.old piece.now) }
    ensures err { OnErr result (feeder.new ≡ let_go feeder.old) }
    ensures bytes { IsBytes feeder.old.rest → IsBytes feeder.new.rest }
{
    feeder.feed(piece)
}

// What a message means by the session.
fn meaning(alloc: Global, session: &mut Session, message: &View<'_>) -> Result<Told, Leave>
    ensures { Turns session.old message.now result session.new }
{
    match session.on_message(message) {
        Ok(word) => match Told::of(alloc, word, message) {
            Ok(told) => Ok(told),
            Err(_) => Err(Leave::Memory),
        },
        Err(SessionFault::Unexpected) => Err(Leave::Unexpected),
        Err(SessionFault::Memory) => Err(Leave::Memory),
    }
}

impl<F: Commands, L: Link<F>> Peer<F, L> {
    /// A peer at this link, over which nothing has passed, in a session of this run. Where memory
    /// is wanting the link comes back.
    pub fn new(alloc: Global, way: L, run: u64) -> Result<Peer<F, L>, L>
        ensures ok { IfOk result (λ peer. peer ≡ new_peer way run) }
        ensures back { IfErr result (λ back. back ≡ way) }
        ensures serves { IfOk result (λ peer. L.history way ≡ []
            → Serves F.gives F.may_fail (L.history peer.way) peer.feed peer.session [] [] None) }
    {
        match Feeder::new(alloc) {
            Ok(feeder) => Ok(Peer {
                way,
                feeder,
                session: Session::new(alloc, run),
                of: PhantomData,
            }),
            Err(_) => Err(way),
        }
    }

    /// The link.
    pub fn into_way(self) -> L
        ensures { result ≡ self.way }
    {
        self.way
    }

    /// How often the link was idle since bytes last passed.
    pub fn idles(&self) -> u64
        ensures { result ≡ L.idle_count self.now.way }
    {
        self.way.idles()
    }

    /// The link's count of failures.
    pub fn faults(&self) -> u64
        ensures { result ≡ L.count self.now.way }
    {
        self.way.faults()
    }

    /// Whether the attempt is open. One that is open while nothing whole is left to be heard is
    /// unanswered, and none is where nothing is owed, as where a sure link is idle.
    pub fn has(&self, attempt: AttemptNo) -> bool
        ensures open { result ≡ is_open attempt self.now.session.attempts }
        ensures owed { (said heard : List Said) → L.tells
            → Serves F.gives F.may_fail (L.history self.now.way) self.now.feed self.now.session
            said heard None
            → front self.now.feed.rest ≡ part → result ≡ true
            → IsStillOwed F.gives F.may_fail (L.history self.now.way) attempt }
        ensures settled { (said heard : List Said) → L.tells
            → Serves F.gives F.may_fail (L.history self.now.way) self.now.feed self.now.session
            said heard None
            → Provides self.now.session.known said None []
            → front self.now.feed.rest ≡ part
            → IsSettled F.gives F.may_fail (L.history self.now.way)
            → result ≡ false }
    {
        self.session.has(attempt)
    }

    /// How many bytes the link took that haven't gone out.
    pub fn behind(&self) -> u64
        ensures sure { L.sure self.now.way → result ≡ 0 }
    {
        self.way.behind()
    }

    /// Whether no message was heard and the bytes that came can't begin with a hello. Their first
    /// five tell it, long before a whole frame is there.
    pub fn is_stranger(&self) -> bool
        ensures exactly { result ≡ is_stranger self.now.session.stage self.now.feed.rest }
        ensures stranger { (said heard : List Said) → L.tells
            → Serves F.gives F.may_fail (L.history self.now.way) self.now.feed self.now.session
            said heard None
            → result ≡ true
            → Misspeaks (sent_in (L.history self.now.way)) (received_in (L.history self.now.way)) }
        ensures sure { (said heard : List Said) → L.tells
            → Serves F.gives F.may_fail (L.history self.now.way) self.now.feed self.now.session
            said heard None
            → IsOrderly (sent_in (L.history self.now.way)) (received_in (L.history self.now.way))
            → result ≡ false }
    {
        is_strange(&self.session, self.feeder.rest())
    }

    /// Whether `listen` would answer at once with more than that nothing came.
    pub fn ready(&mut self) -> bool
        ensures { self.new ≡ self.old }
    {
        self.way.ready()
    }

    /// Waits a while for bytes. After an error the link is to be left.
    pub fn listen(&mut self, alloc: Global) -> Result<Listened, Leave>
        ensures session { self.new.session ≡ self.old.session }
        ensures serves { (said heard : List Said) (waiting : Option TaskValue) → L.tells
            → Serves F.gives F.may_fail (L.history self.old.way) self.old.feed self.old.session
            said heard waiting
            → StaysServed F.gives F.may_fail said heard waiting result
            (L.history self.new.way) self.new.feed self.new.session }
        ensures going { self.old.feed.stop ≡ None → self.new.feed.stop ≡ None }
        ensures rests { IfOk result (Rests (L.idle_count self.old.way)
            (L.idle_count self.new.way) self.old.feed self.new.feed) }
        ensures kept { L.tells → PassesOn (L.history self.old.way) (L.history self.new.way) }
        ensures on { GoesOn L.honest L.sure L.offers self.old.way self.new.way }
        ensures cause { MayListen (L.is_closed self.old.way) (L.is_closed self.new.way)
            (L.count self.old.way) (L.count self.new.way) result }
        ensures sure { L.sure self.old.way → OnlyMemory result }
        ensures owes { L.sure self.old.way → L.tells
            → IfOk result (Settled (L.history self.new.way)) }
    {
        match self.way.recv(alloc) {
            Ok(Got::Piece(piece)) => match take(&mut self.feeder, piece.as_slice()) {
                Ok(()) => Ok(Listened::Piece),
                Err(_) => Err(Leave::Memory),
            },
            Ok(Got::Idle) => Ok(Listened::Idle(self.way.idles())),
            Ok(Got::Closed) => Err(Leave::Closed),
            Err(fault) => Err(Leave::of(fault)),
        }
    }

    /// What the next whole message means, where one is there. After an error the link is to be
    /// left.
    pub fn hear(&mut self, alloc: Global) -> Result<Told, Leave>
        ensures way { self.new.way ≡ self.old.way }
        ensures hears { self.old.feed.stop ≡ None
            → Hears self.old.feed self.old.session result self.new.feed self.new.session }
        ensures serves { (said heard : List Said) → L.tells
            → Serves F.gives F.may_fail (L.history self.old.way) self.old.feed self.old.session
            said heard None
            → ServesOn F.gives F.may_fail (L.history self.new.way) said heard result
            self.new.feed self.new.session }
        ensures sure { (said heard : List Said) → L.tells
            → Serves F.gives F.may_fail (L.history self.old.way) self.old.feed self.old.session
            said heard None
            → IsOrderly (sent_in (L.history self.old.way)) (received_in (L.history self.old.way))
            → IsCalm result }
    {
        match self.feeder.advance() {
            Ok(true) => {
                let message = self.feeder.heard();
                meaning(alloc, &mut self.session, &message)
            }
            Ok(false) => Ok(Told::Nothing),
            Err(FeedFault::Memory) => Err(Leave::Memory),
            Err(FeedFault::TooLong(_)) => Err(Leave::Bad),
            Err(FeedFault::Bad(_)) => Err(Leave::Bad),
        }
    }

    /// Opens the attempt of a task, and answers the files of its inputs that the peer wasn't sent.
    /// Each is put, in this order, and then the task is asked.
    pub fn open(&mut self, task: &Task) -> Result<Rows<FileNo>, Memory>
        requires { is_open task.now.attempt self.old.session.attempts ≡ false }
        ensures files { IfOk result (λ files. files
            ≡ lacking self.old.session.known task.now.run task.now.inputs) }
        ensures ok { OnOk result
            (self.new ≡ record self.old { session = started self.old.session task.now }) }
        ensures err { OnErr result (self.new ≡ self.old) }
        ensures serves { OnOk result ((said heard : List Said) → L.tells
            → Serves F.gives F.may_fail (L.history self.old.way) self.old.feed self.old.session
            said heard None
            → IsNew task.now.attempt said
            → Serves F.gives F.may_fail (L.history self.new.way) self.new.feed self.new.session
            said heard (Some task.now)) }
    {
        self.session.start(task)
    }

    /// Puts a content. It is handed over, so that what the link can't send at once isn't copied.
    /// After an error the link is to be left.
    pub fn put(&mut self, alloc: Global, key: Key, content: Bytes) -> Result<(), Leave>
        requires short { length content ≤ most_bytes }
        ensures feed { self.new.feed ≡ self.old.feed }
        ensures session { self.new.session ≡ self.old.session }
        ensures serves { (said heard : List Said) (waiting : Option TaskValue) → L.tells
            → Serves F.gives F.may_fail (L.history self.old.way) self.old.feed self.old.session
            said heard waiting
            → ServesAfter F.gives F.may_fail (messages.Put key content) said heard waiting
            result (L.history self.new.way) self.new.feed self.new.session }
        ensures kept { L.tells → PassesOn (L.history self.old.way) (L.history self.new.way) }
        ensures on { GoesOn L.honest L.sure L.offers self.old.way self.new.way }
        ensures closed { L.is_closed self.new.way ≡ L.is_closed self.old.way }
        ensures cause { MaySend (L.count self.old.way) (L.count self.new.way) result }
        ensures sure { L.sure self.old.way → OnlyMemory result }
    {
        say_put(alloc, &mut self.way, key, content)
    }

    /// Asks for a task. After an error the link is to be left.
    pub fn ask(&mut self, alloc: Global, task: Task) -> Result<(), Leave>
        requires counts { HasCounts (messages.Task task) }
        requires short { length (spelling (messages.Task task)) ≤ most_body }
        ensures feed { self.new.feed ≡ self.old.feed }
        ensures session { self.new.session ≡ self.old.session }
        ensures serves { (said heard : List Said) → L.tells
            → Serves F.gives F.may_fail (L.history self.old.way) self.old.feed self.old.session
            said heard (Some task)
            → ServesAfter F.gives F.may_fail (messages.Task task) said heard None
            result (L.history self.new.way) self.new.feed self.new.session }
        ensures again { (said heard : List Said) → L.tells
            → Serves F.gives F.may_fail (L.history self.old.way) self.old.feed self.old.session
            said heard None
            → IsAmong (messages.Task task) said
            → ServesAfter F.gives F.may_fail (messages.Task task) said heard None
            result (L.history self.new.way) self.new.feed self.new.session }
        ensures kept { L.tells → PassesOn (L.history self.old.way) (L.history self.new.way) }
        ensures on { GoesOn L.honest L.sure L.offers self.old.way self.new.way }
        ensures closed { L.is_closed self.new.way ≡ L.is_closed self.old.way }
        ensures cause { MaySend (L.count self.old.way) (L.count self.new.way) result }
        ensures sure { L.sure self.old.way → OnlyMemory result }
    {
        say(alloc, &mut self.way, &Message::Task(task))
    }

    /// Closes an attempt, and tells the peer where it was open; it answers whether it was. After
    /// an error the link is to be left.
    pub fn cancel(&mut self, alloc: Global, attempt: AttemptNo) -> Result<bool, Leave>
        ensures was { IfOk result (λ was. was ≡ is_open attempt self.old.session.attempts) }
        ensures feed { self.new.feed ≡ self.old.feed }
        ensures session { self.new.session
            ≡ closed_where self.old.session (place attempt self.old.session.attempts) }
        ensures gone { is_open attempt self.new.session.attempts ≡ false }
        ensures none { is_open attempt self.old.session.attempts ≡ false
            → (result ≡ Ok false) × (self.new ≡ self.old) }
        ensures serves { (said heard : List Said) (waiting : Option TaskValue) → L.tells
            → Serves F.gives F.may_fail (L.history self.old.way) self.old.feed self.old.session
            said heard waiting
            → ServesWhere F.gives F.may_fail (messages.Cancel attempt) said heard waiting
            result (L.history self.new.way) self.new.feed self.new.session }
        ensures kept { L.tells → PassesOn (L.history self.old.way) (L.history self.new.way) }
        ensures on { GoesOn L.honest L.sure L.offers self.old.way self.new.way }
        ensures closed { L.is_closed self.new.way ≡ L.is_closed self.old.way }
        ensures cause { MaySend (L.count self.old.way) (L.count self.new.way) result }
        ensures sure { L.sure self.old.way → OnlyMemory result }
    {
        if !self.session.cancel(attempt) {
            return Ok(false);
        }
        match say(alloc, &mut self.way, &Message::Cancel { attempt }) {
            Ok(()) => Ok(true),
            Err(leave) => Err(leave),
        }
    }

    /// Tells the peer that a file of the session's run is gone, where it was sent; it answers
    /// whether it was. After an error the link is to be left.
    pub fn unlink(&mut self, alloc: Global, file: FileNo) -> Result<bool, Leave>
        ensures was { IfOk result (λ was. was
            ≡ contains_key (key_of self.old.session.run file) self.old.session.known) }
        ensures feed { self.new.feed ≡ self.old.feed }
        ensures session { self.new.session ≡ record self.old.session {
          known = forgotten self.old.session.known (key_of self.old.session.run file);
        } }
        ensures none { contains_key (key_of self.old.session.run file) self.old.session.known
            ≡ false → (result ≡ Ok false) × (self.new.way ≡ self.old.way) }
        ensures serves { (said heard : List Said) (waiting : Option TaskValue) → L.tells
            → Serves F.gives F.may_fail (L.history self.old.way) self.old.feed self.old.session
            said heard waiting
            → ServesWhere F.gives F.may_fail
            (messages.Unlink (key_of self.old.session.run file)) said heard waiting
            result (L.history self.new.way) self.new.feed self.new.session }
        ensures kept { L.tells → PassesOn (L.history self.old.way) (L.history self.new.way) }
        ensures on { GoesOn L.honest L.sure L.offers self.old.way self.new.way }
        ensures closed { L.is_closed self.new.way ≡ L.is_closed self.old.way }
        ensures cause { MaySend (L.count self.old.way) (L.count self.new.way) result }
        ensures sure { L.sure self.old.way → OnlyMemory result }
    {
        if !self.session.dropped(file) {
            return Ok(false);
        }
        let key = Key {
            run: self.session.run(),
            file,
        };
        match say(alloc, &mut self.way, &Message::Unlink { key }) {
            Ok(()) => Ok(true),
            Err(leave) => Err(leave),
        }
    }

    /// Sends on what the link took. It is to be called about once a second. After an error the link
    /// is to be left: so it is where in so many calls in a row the peer took nothing.
    pub fn flush(&mut self, patience: u64) -> Result<(), Leave>
        ensures feed { self.new.feed ≡ self.old.feed }
        ensures session { self.new.session ≡ self.old.session }
        ensures same { L.tells → L.history self.new.way ≡ L.history self.old.way }
        ensures serves { (said heard : List Said) (waiting : Option TaskValue) → L.tells
            → Serves F.gives F.may_fail (L.history self.old.way) self.old.feed self.old.session
            said heard waiting
            → Serves F.gives F.may_fail (L.history self.new.way) self.new.feed self.new.session
            said heard waiting }
        ensures kept { L.tells → PassesOn (L.history self.old.way) (L.history self.new.way) }
        ensures on { GoesOn L.honest L.sure L.offers self.old.way self.new.way }
        ensures idles { L.idle_count self.new.way ≡ L.idle_count self.old.way }
        ensures closed { L.is_closed self.new.way ≡ L.is_closed self.old.way }
        ensures cause { MaySend (L.count self.old.way) (L.count self.new.way) result }
        ensures sure { L.sure self.old.way → IsOk result }
    {
        match self.way.flush(patience) {
            Ok(_) => Ok(()),
            Err(fault) => Err(Leave::of(fault)),
        }
    }

    /// Says something that changes nothing, an Unlink of a key that no content has, so that the
    /// system notices where the peer is gone. After an error the link is to be left.
    pub fn probe(&mut self, alloc: Global) -> Result<(), Leave>
        ensures feed { self.new.feed ≡ self.old.feed }
        ensures session { self.new.session ≡ self.old.session }
        ensures serves { (said heard : List Said) (waiting : Option TaskValue) → L.tells
            → Serves F.gives F.may_fail (L.history self.old.way) self.old.feed self.old.session
            said heard waiting
            → ServesAfter F.gives F.may_fail (messages.Unlink no_key) said heard waiting
            result (L.history self.new.way) self.new.feed self.new.session }
        ensures kept { L.tells → PassesOn (L.history self.old.way) (L.history self.new.way) }
        ensures on { GoesOn L.honest L.sure L.offers self.old.way self.new.way }
        ensures closed { L.is_closed self.new.way ≡ L.is_closed self.old.way }
        ensures cause { MaySend (L.count self.old.way) (L.count self.new.way) result }
        ensures sure { L.sure self.old.way → OnlyMemory result }
    {
        let key = Key {
            run: u64::MAX,
            file: FileNo(u32::MAX),
        };
        say(alloc, &mut self.way, &Message::Unlink { key })
    }

    /// Tells the peer that the work is over. After an error the link is to be left.
    pub fn bye(&mut self, alloc: Global) -> Result<(), Leave>
        ensures feed { self.new.feed ≡ self.old.feed }
        ensures session { self.new.session ≡ self.old.session }
        ensures serves { (said heard : List Said) (waiting : Option TaskValue) → L.tells
            → Serves F.gives F.may_fail (L.history self.old.way) self.old.feed self.old.session
            said heard waiting
            → ServesAfter F.gives F.may_fail messages.Bye said heard waiting
            result (L.history self.new.way) self.new.feed self.new.session }
        ensures kept { L.tells → PassesOn (L.history self.old.way) (L.history self.new.way) }
        ensures on { GoesOn L.honest L.sure L.offers self.old.way self.new.way }
        ensures closed { L.is_closed self.new.way ≡ L.is_closed self.old.way }
        ensures cause { MaySend (L.count self.old.way) (L.count self.new.way) result }
        ensures sure { L.sure self.old.way → OnlyMemory result }
    {
        say(alloc, &mut self.way, &Message::Bye)
    }
}
