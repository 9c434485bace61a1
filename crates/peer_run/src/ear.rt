//! What a peer hears over a link.
ghost use Rattle.std.specs.Prelude.{◌≡◌, ◌+◌, ◌-◌, ◌++◌, [], None, IfOk, OnOk, IfErr, length};
ghost use Rattle.wq_messages.specs.Views.{HasMessage, shown};
ghost use Rattle.peer_run.specs.Ends.{Advanced, Takes};

use crate::Halt;
use flow_types::{Memory, Message};
use std::alloc::Global;
use std::marker::Model;
use wq_frames::{FeedFault, Feeder};
use wq_messages::View;

/// The bytes that came over a link and that no message took, and how many came in all.
#[derive(Drop)]
pub struct Ear {
    feeder: Feeder,
    fed: u64,
}

impl Model for Ear {
    ghost use Rattle.std.specs.Prelude.{◌≤◌, length};
    ghost use Rattle.byte_fields.specs.Laws.{IsBytes};
    ghost use Rattle.peer_run.specs.Works.{EarState};

    ghost Value = { EarState };

    ghost view = { λ e. record {
      rest = e.feeder.rest;
      body = e.feeder.body;
      stop = e.feeder.stop;
      fed = e.fed;
    } };

    ghost invariant = { λ e. (length e.feeder.rest ≤ e.fed) × IsBytes e.feeder.rest };
}

impl Ear {
    /// Nothing came yet.
    pub fn new(alloc: Global) -> Result<Ear, Memory>
        ensures { IfOk result (λ ear. ear ≡ record { rest = []; body = []; stop = None; fed = 0 }) }
    {
        let feeder = Feeder::new(alloc)?;
        Ok(Ear { feeder, fed: 0 })
    }

    /// The byte at which the next message begins.
    pub fn at(&self) -> u64
        ensures { result ≡ self.now.fed - length self.now.rest }
    {
        self.fed - self.feeder.left() as u64
    }

    /// Takes a piece. Where more came than can be counted, memory is wanting.
    pub fn feed(&mut self, piece: &[u8]) -> Result<(), Memory>
        requires { self.old.stop ≡ None }
        ensures { OnOk result ((self.new.rest ≡ self.old.rest ++ piece.now)
            × (self.new.stop ≡ None) × (self.new.fed ≡ self.old.fed + length piece.now)) }
    {
        let Some(fed) = self.fed.checked_add(piece.len() as u64) else {
            return Err(Memory);
        };
        self.feeder.feed(piece)?;
        self.fed = fed;
        Ok(())
    }

    /// Takes the next frame, if a whole one is there. After an error nothing more is to be taken.
    pub fn advance(&mut self) -> Result<bool, FeedFault>
        requires { self.old.stop ≡ None }
        ensures { Advanced self.old result self.new }
    {
        self.feeder.advance()
    }

    /// The message of the frame that was taken last.
    pub fn heard(&self) -> View<'_>
        requires { HasMessage self.now.body }
        ensures { result ≡ shown self.now.body }
    {
        self.feeder.heard()
    }

    // The same, for itself.
    fn message(&self, alloc: Global) -> Result<Message, Memory>
        requires { HasMessage self.now.body }
        ensures { IfOk result (λ message. message ≡ shown self.now.body) }
    {
        self.heard().to_message(alloc)
    }

    /// Takes the next message, if a whole one is there.
    pub fn next(&mut self, alloc: Global) -> Result<Option<Message>, Halt>
        requires { self.old.stop ≡ None }
        ensures { Takes self.old result self.new }
    {
        let at = self.at();
        match self.advance() {
            Ok(true) => match self.message(alloc) {
                Ok(message) => Ok(Some(message)),
                Err(_) => Err(Halt::Memory),
            },
            Ok(false) => Ok(None),
            Err(FeedFault::Memory) => Err(Halt::Memory),
            Err(FeedFault::TooLong(_)) => Err(Halt::Bad { at }),
            Err(FeedFault::Bad(_)) => Err(Halt::Bad { at }),
        }
    }
}
