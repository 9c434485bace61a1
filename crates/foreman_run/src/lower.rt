//! A link to a worker.
ghost use Rattle.std.specs.Prelude.{◌≡◌, ◌≤◌, ◌⊎◌, false, true, List, IfOk, IfErr, Ok};
ghost use Rattle.flow_types.specs.declared.messages.Message.{Message as Said};
ghost use Rattle.links.specs.Ill.{most_idles_before_hello};
ghost use Rattle.peer_run.specs.Ends.{Advanced};
ghost use Rattle.peer_run.specs.Says.{CanBeTold};
ghost use Rattle.wq_messages.specs.Views.{HasMessage, shown};
ghost use Rattle.wq_messages.specs.Heads.{head_of};
ghost use Rattle.foreman_run.specs.Lost.{most_refusals, refused_by, seen_of};
ghost use Rattle.foreman_run.specs.Lowers.{CareState, HearsOn, IsHeld, Went, new_lower, probe};
ghost use Rattle.foreman_run.specs.Met.{Roll};

use crate::care::Care;
use crate::voice::send;
use flow_types::{FileNo, Key, LinkNo, Message};
use links::{Got, Link};
use outside::{Commands, Fault};
use peer_run::Ear;
use std::alloc::Global;
use std::marker::{Model, PhantomData};
use wq_frames::FeedFault;
use wq_messages::View;

/// How many seconds in a row a worker may take no byte of what waits for it.
const MOST_STUCK_SECONDS: u64 = 600;

// What a worker is sent to see whether it is still there. It changes nothing.
fn probe() -> Message
    ensures { result ≡ probe }
{
    let key = Key {
        run: u64::MAX,
        file: FileNo(u32::MAX),
    };
    Message::Unlink { key }
}

/// A link to a worker, under its number, whether it is to be left, and whether that is for want of
/// memory.
#[derive(Drop)]
pub(crate) struct Lower<F: Commands, L: Link<F>> {
    link: LinkNo,
    way: L,
    ear: Ear,
    care: Care,
    gone: bool,
    starved: bool,
    of: PhantomData<F>,
}

impl<F: Commands, L: Link<F>> Model for Lower<F, L> {
    ghost use Rattle.std.specs.Prelude.{◌≡◌, false, None};
    ghost use Rattle.foreman_run.specs.Lowers.{LowerState};

    ghost Value = { LowerState L };

    ghost view = { λ l. record {
      link = l.link;
      way = l.way;
      ear = l.ear;
      care = l.care;
      gone = l.gone;
      starved = l.starved;
    } };

    ghost invariant = { λ l. l.gone ≡ false → l.ear.stop ≡ None };
}

impl<F: Commands, L: Link<F>> Lower<F, L> {
    /// A link over which nothing has passed. Where memory is wanting it comes back.
    pub fn new(alloc: Global, link: LinkNo, way: L) -> Result<Lower<F, L>, L>
        ensures ok { IfOk result (λ lower. lower ≡ new_lower link way) }
        ensures back { IfErr result (λ back. back ≡ way) }
    {
        match Ear::new(alloc) {
            Ok(ear) => Ok(Lower {
                link,
                way,
                ear,
                care: Care::new(alloc),
                gone: false,
                starved: false,
                of: PhantomData,
            }),
            Err(_) => Err(way),
        }
    }

    /// Its number.
    pub fn link(&self) -> LinkNo
        ensures { result ≡ self.now.link }
    {
        self.link
    }

    /// Whether it is to be left.
    pub fn is_gone(&self) -> bool
        ensures { result ≡ self.now.gone }
    {
        self.gone
    }

    /// Whether it is to be left for want of memory.
    pub fn is_starved(&self) -> bool
        ensures { result ≡ self.now.starved }
    {
        self.starved
    }

    /// It is to be left.
    pub fn leave(&mut self)
        ensures { self.new ≡ record self.old { gone = true } }
    {
        self.gone = true;
    }

    // It is to be left, since memory was wanting.
    fn starve(&mut self)
        ensures { self.new ≡ record self.old { gone = true; starved = true } }
    {
        self.gone = true;
        self.starved = true;
    }

    // It is to be left, since a call of the link failed so.
    fn fail(&mut self, fault: Fault)
        ensures failed { fault ≡ Fault.Failed → self.new ≡ record self.old { gone = true } }
        ensures memory { fault ≡ Fault.Memory
            → self.new ≡ record self.old { gone = true; starved = true } }
    {
        match fault {
            Fault::Failed => self.leave(),
            Fault::Memory => self.starve(),
        }
    }

    /// The link.
    pub fn into_way(self) -> L
        ensures { result ≡ self.way }
    {
        self.way
    }

    /// Whether its first message came.
    pub fn is_greeted(&self) -> bool {
        self.care.is_greeted()
    }

    /// Sends a message, unless the link is to be left. Where that fails it is.
    pub fn send(&mut self, alloc: Global, message: Message)
        requires told { CanBeTold message }
        ensures link { self.new.link ≡ self.old.link }
        ensures held { (roll : Roll) (heard : List Said) → Went roll.down self.old.link message →
            IsHeld L.tells (seen_of L.history L.is_closed L.count L.idle_count) roll heard self.old
            → IsHeld L.tells (seen_of L.history L.is_closed L.count L.idle_count) roll heard
            self.new }
        ensures comes { L.tells → HearsOn (L.history self.old.way) (L.history self.new.way) }
        ensures honest { L.honest self.old.way → L.honest self.new.way }
    {
        if self.gone {
            return;
        }
        self.care.send(&message);
        match send(alloc, &mut self.way, message) {
            Ok(()) => {}
            Err(fault) => self.fail(fault),
        }
    }

    /// Takes the bytes that are there, if there are some or it is a turn to ask for them, and answers
    /// whether there was anything. Where it closes or fails it is to be left.
    pub fn listen(&mut self, alloc: Global, turn: bool) -> bool
        ensures link { self.new.link ≡ self.old.link }
        ensures held { (roll : Roll) (heard : List Said) → IsHeld L.tells
            (seen_of L.history L.is_closed L.count L.idle_count) roll heard self.old → IsHeld
            L.tells (seen_of L.history L.is_closed L.count L.idle_count) roll heard self.new }
        ensures comes { L.tells → HearsOn (L.history self.old.way) (L.history self.new.way) }
        ensures honest { L.honest self.old.way → L.honest self.new.way }
    {
        if self.gone || (!self.way.ready() && !turn) {
            return false;
        }
        match self.way.recv(alloc) {
            Ok(Got::Piece(piece)) => {
                self.care.take(piece.as_slice().len());
                if self.ear.feed(piece.as_slice()).is_err() {
                    self.gone = true;
                    self.starved = true;
                }
                true
            }
            Ok(Got::Idle) => false,
            Ok(Got::Closed) => {
                self.leave();
                true
            }
            Err(fault) => {
                self.fail(fault);
                true
            }
        }
    }

    // Sends on what waits. Where it has waited too long the link is to be left.
    fn push_on(&mut self)
        ensures link { self.new.link ≡ self.old.link }
        ensures held { (roll : Roll) (heard : List Said) → IsHeld L.tells
            (seen_of L.history L.is_closed L.count L.idle_count) roll heard self.old → IsHeld
            L.tells (seen_of L.history L.is_closed L.count L.idle_count) roll heard self.new }
        ensures comes { L.tells → HearsOn (L.history self.old.way) (L.history self.new.way) }
        ensures honest { L.honest self.old.way → L.honest self.new.way }
    {
        if self.gone {
            return;
        }
        match self.way.flush(MOST_STUCK_SECONDS) {
            Ok(_) => {}
            Err(fault) => self.fail(fault),
        }
    }

    // Sees whether a worker is still there to which nothing went for long.
    fn see(&mut self, alloc: Global)
        ensures link { self.new.link ≡ self.old.link }
        ensures held { (roll : Roll) (heard : List Said) → IsHeld L.tells
            (seen_of L.history L.is_closed L.count L.idle_count) roll heard self.old → IsHeld
            L.tells (seen_of L.history L.is_closed L.count L.idle_count) roll heard self.new }
        ensures comes { L.tells → HearsOn (L.history self.old.way) (L.history self.new.way) }
        ensures honest { L.honest self.old.way → L.honest self.new.way }
    {
        if self.care.pass_second() && self.way.behind() == 0 {
            self.send(alloc, probe());
        }
    }

    /// A second has passed: sends on what waits, and sees whether the worker is still there.
    pub fn check(&mut self, alloc: Global)
        ensures link { self.new.link ≡ self.old.link }
        ensures held { (roll : Roll) (heard : List Said) → IsHeld L.tells
            (seen_of L.history L.is_closed L.count L.idle_count) roll heard self.old → IsHeld
            L.tells (seen_of L.history L.is_closed L.count L.idle_count) roll heard self.new }
        ensures comes { L.tells → HearsOn (L.history self.old.way) (L.history self.new.way) }
        ensures honest { L.honest self.old.way → L.honest self.new.way }
    {
        self.push_on();
        self.see(alloc);
    }

    /// Takes the next message, and answers whether a whole one was there. Where what is there is
    /// none, or can't become the first one, or the first one is late, the link is to be left.
    pub fn advance(&mut self) -> bool
        ensures link { self.new.link ≡ self.old.link }
        ensures way { self.new.way ≡ self.old.way }
        ensures taken { result ≡ true → (self.old.gone ≡ false) × (self.new.gone ≡ false)
            × Advanced self.old.ear (Ok true) self.new.ear
            × (self.new.care ≡ record self.old.care { greeted = true }) }
        ensures held { result ≡ false → (roll : Roll) (heard : List Said) → IsHeld L.tells
            (seen_of L.history L.is_closed L.count L.idle_count) roll heard self.old → IsHeld
            L.tells (seen_of L.history L.is_closed L.count L.idle_count) roll heard self.new }
    {
        if self.gone {
            return false;
        }
        match self.ear.advance() {
            Ok(true) => {
                self.care.greet();
                true
            }
            Ok(false) => {
                self.wait_on();
                false
            }
            Err(FeedFault::Memory) => {
                self.gone = true;
                self.starved = true;
                false
            }
            Err(FeedFault::TooLong(_)) => {
                self.gone = true;
                false
            }
            Err(FeedFault::Bad(_)) => {
                self.gone = true;
                false
            }
        }
    }

    // There is no whole message. Where it is the first one that can't come any more, or not in time,
    // the link is to be left.
    fn wait_on(&mut self)
        ensures same { self.new ≡ record self.old { gone = self.new.gone } }
        ensures left { self.new.gone ≡ true → (self.old.gone ≡ true) ⊎ ((self.old.care.greeted ≡ false)
            × ((39 ≤ self.old.care.early)
            ⊎ (most_idles_before_hello ≤ L.idle_count self.old.way))) }
    {
        if self.care.is_stranger() || self.care.is_late(self.way.idles()) {
            self.leave();
        }
    }

    /// Notes the message that was taken last, and answers whether the worker can't run what it is
    /// asked for. Then the link is to be left.
    pub fn tires(&mut self) -> bool
        requires { HasMessage self.old.ear.body }
        ensures same { self.new ≡ record self.old { care = self.new.care; gone = self.new.gone } }
        ensures greeted { self.new.care.greeted ≡ self.old.care.greeted }
        ensures refused { self.new.care.refused
            ≤ refused_by self.old.care.refused (head_of (shown self.old.ear.body)) }
        ensures kept { result ≡ false → self.new.gone ≡ self.old.gone }
        ensures left { result ≡ true → (self.new.gone ≡ true)
            × (most_refusals ≤ self.new.care.refused) }
    {
        let head = self.ear.heard().head();
        if self.care.hear(head) {
            self.leave();
            return true;
        }
        false
    }

    /// The message that was taken last.
    pub fn heard(&self) -> View<'_>
        requires { HasMessage self.now.ear.body }
        ensures { result ≡ shown self.now.ear.body }
    {
        self.ear.heard()
    }
}
