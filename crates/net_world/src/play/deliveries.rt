//! Messages that come to their receivers.
ghost use Rattle.std.specs.Prelude.{◌≡◌, ◌<◌, find, length, position, slice_get, IfOk, IfSome, OnOk, Some};
ghost use Rattle.link_session.specs.Sessions.{told};
ghost use Rattle.net_world.specs.Hearings.{word_in};
ghost use Rattle.net_world.specs.Plays.{Turns};
ghost use Rattle.world_laws.specs.Worlds.{at_peer, delivered, delivery_logged, message_logged};
ghost use Rattle.world_peers.specs.Company.{link_at};
ghost use Rattle.world_laws.specs.Worlds.{to_master, to_other, to_peer};

use crate::play::evictions::link_of;
use crate::play::{Line, Play};
use flow_types::{Memory, Message};
use link_session::{Session, SessionFault, Word};
use world_contents::copy_message;
use world_peers::{Party, body_of, link_at};
use wq_messages::{View, read_message};

impl Play {
    // A message comes to a peer that has a link.
    fn to_peer(&mut self, peer: u32, message: Message) -> Result<(), Memory>
        ensures { OnOk result (Turns (λ P O w. to_peer w peer message
            (find (at_peer peer) w.connections) (slice_get w.peers peer)) self.old self.new) }
    {
        if link_of(&self.lines, peer).is_none() {
            return Ok(());
        }
        let Some(member) = self.peers.get_mut(peer as usize) else {
            return Ok(());
        };
        let doing = member.hear(message)?;
        self.carry_out(peer, doing)
    }

    // A message of one peer comes to another, if there is a session.
    fn to_other(&mut self, from: u32, to: u32, message: Message) -> Result<(), Memory>
        ensures { OnOk result (Turns (λ P O w. to_other w from to message (slice_get w.peers to))
            self.old self.new) }
    {
        let link = link_at(self.peers.as_slice(), to, from);
        let Some(member) = self.peers.get_mut(to as usize) else {
            return Ok(());
        };
        let doing = member.hear_peer(self.alloc, from, link, message)?;
        self.carry_out(to, doing)
    }

    // A message comes to the master from a peer that has a link.
    fn to_master(&mut self, peer: u32, message: &Message) -> Result<(), Memory>
        ensures { OnOk result (Turns (λ P O w. to_master P w message.now
            (find (at_peer peer) w.connections)) self.old self.new) }
    {
        let Some(at) = line_of(&self.lines, peer) else {
            return Ok(());
        };
        let body = body_of(self.alloc, message)?;
        let Ok(view) = read_message(body.as_slice()) else {
            return Err(Memory);
        };
        let Some(line) = self.lines.get_mut(at) else {
            return Ok(());
        };
        let link = line.link;
        match hear(line, &view)? {
            Some(word) => {
                self.log_end(message, &word)?;
                self.follow(link, peer, word)
            }
            None => Ok(()),
        }
    }

    // A message of the bag, which stays there, comes to its receiver.
    pub(crate) fn deliver(&mut self, at: usize) -> Result<(), Memory>
        ensures { OnOk result (Turns (λ P O w. delivered P w (slice_get w.bag at))
            self.old self.new) }
    {
        let Some(sent) = self.bag.get(at) else {
            return Ok(());
        };
        let from = sent.from;
        let to = sent.to;
        let message = copy_message(self.alloc, &sent.message)?;
        match from {
            Party::Master => match to {
                Party::Master => Ok(()),
                Party::Peer(peer) => self.to_peer(peer, message),
            },
            Party::Peer(peer) => match to {
                Party::Master => self.to_master(peer, &message),
                Party::Peer(to) => self.to_other(peer, to, message),
            },
        }
    }

    // What a message logs that comes from a peer that has a link.
    fn log_message(&mut self, peer: u32, message: &Message) -> Result<(), Memory>
        ensures { OnOk result (Turns (λ P O w. message_logged P w message.now
            (find (at_peer peer) w.connections)) self.old self.new) }
    {
        let Some(at) = line_of(&self.lines, peer) else {
            return Ok(());
        };
        let body = body_of(self.alloc, message)?;
        let Ok(view) = read_message(body.as_slice()) else {
            return Err(Memory);
        };
        let Some(line) = self.lines.get(at) else {
            return Ok(());
        };
        let mut session = line.session.copy()?;
        match tell(&mut session, &view)? {
            Some(word) => self.log_end(message, &word),
            None => Ok(()),
        }
    }

    // What a delivery logs.
    pub(crate) fn log_delivery(&mut self, at: usize) -> Result<(), Memory>
        ensures { OnOk result (Turns (λ P O w. delivery_logged P w (slice_get w.bag at))
            self.old self.new) }
    {
        let Some(sent) = self.bag.get(at) else {
            return Ok(());
        };
        let from = sent.from;
        let to = sent.to;
        let message = copy_message(self.alloc, &sent.message)?;
        match from {
            Party::Master => Ok(()),
            Party::Peer(peer) => match to {
                Party::Master => self.log_message(peer, &message),
                Party::Peer(_) => Ok(()),
            },
        }
    }
}

// Where the link of a peer stands.
fn line_of(lines: &[Line], peer: u32) -> Option<usize>
    ensures place { result ≡ position (at_peer peer) lines.now }
    ensures within { IfSome result (λ at. at < length lines.now) }
{
    lines.iter().position(|line| line.peer == peer)
}

// A session hears a message; answers what it means, unless it is unexpected.
fn tell(session: &mut Session, view: &View<'_>) -> Result<Option<Word>, Memory>
    ensures word { IfOk result (λ word. word ≡ word_in (told session.old view.now).answer) }
    ensures session { OnOk result (session.new ≡ (told session.old view.now).state) }
{
    match session.on_message(view) {
        Ok(word) => Ok(Some(word)),
        Err(SessionFault::Unexpected) => Ok(None),
        Err(SessionFault::Memory) => Err(Memory),
    }
}

// The session of a link hears a message; answers what it means, unless it is unexpected.
fn hear(line: &mut Line, view: &View<'_>) -> Result<Option<Word>, Memory>
    ensures word { IfOk result (λ word. word ≡ word_in (told line.old.session view.now).answer) }
    ensures line { OnOk result (line.new
        ≡ record line.old { session = (told line.old.session view.now).state }) }
{
    tell(&mut line.session, view)
}
