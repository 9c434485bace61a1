//! A link in memory, by a list of its answers.
ghost use Rattle.std.specs.Prelude.{◌≡◌, ◌≤◌, [], ◌∷◌, Some, Ok, is_ok, if◌then◌else◌};
ghost use Rattle.std.specs.Prelude.{IfOk, IsErrOf, OnOk, OnErr};
ghost use Rattle.std.specs.Option.{option_copied};
ghost use Rattle.flow_types.specs.declared.numbers.Amounts.{Amounts};
ghost use Rattle.flow_types.specs.Plans.{most_input_bytes};
ghost use Rattle.outside.specs.Causes.{HasCause};
ghost use Rattle.links.specs.Honesty.{IsAtLeast, IsHonestSoFar, IsSureAnswer};
ghost use Rattle.message_forms.specs.Streams.{IsFramed};
ghost use Rattle.links.specs.Passings.{sent_in, received_in, Transmits, Receives, IsFull};
ghost use Rattle.links.specs.Passings.{idles_after, closed_after};
ghost use Rattle.mem_links.specs.MemLinks.{fresh_link, new_link, serving_link};
ghost use Rattle.mem_links.specs.MemLinks.{awaits_call, awaits_send, next_given};
ghost use Rattle.mem_links.specs.MemLinks.{has_news, waits, Flushes};
ghost use Rattle.mem_links.specs.MemLinks.{Idles, Takes, Sends, SendsBy};
ghost use Rattle.mem_links.specs.declared.mem_link.LinkStep.TheVariants as steps;
ghost use Rattle.mem_links.specs.Servers.{hello};
ghost use Rattle.mem_links.specs.Serving.{IsHonestLink, IsSureLink, OffersLink};

use crate::hearing::frame_of;
use crate::server::Server;
use crate::traffic::Traffic;
use flow_types::{Amounts, Bytes, Memory, Message, Rows};
use links::{Got, Link};
use outside::{Commands, Fault, failed};
use std::alloc::Global;
use std::collections::VecDeque;
use std::marker::Model;

/// What a link does next.
#[derive(Drop)]
pub enum LinkStep {
    /// It gives these bytes. None are as an idle answer.
    Give(Bytes),
    /// It is idle.
    Idle,
    /// The other end closes it.
    Close,
    /// A `recv` fails.
    Fail,
    /// The next `send` fails, and sends nothing. Until then the link is idle.
    FailSend,
    /// A byte waits to go out, which the other end takes at the next `flush`. Until then the link is
    /// idle.
    Behind,
    /// The next `flush` fails. Until then a byte waits to go out, and the link is idle.
    FailFlush,
}

/// A link that takes its steps one after the other, and is idle after the last. Where it serves,
/// its answers to what is sent stand behind the steps.
#[derive(Drop)]
pub struct MemLink {
    alloc: Global,
    steps: VecDeque<LinkStep>,
    traffic: Traffic,
    server: Option<Server>,
    closed: bool,
    faults: u64,
    idles: u64,
}

impl Model for MemLink {
    ghost use Rattle.mem_links.specs.MemLinks.{LinkState};

    ghost Value = { LinkState };

    ghost view = { λ s. record {
      steps = s.steps.items;
      history = s.traffic;
      closed = s.closed;
      faults = s.faults;
      idles = s.idles;
      server = s.server;
    } };
}

impl MemLink {
    /// A link with these steps, over which nothing has passed.
    pub fn new(alloc: Global, steps: Rows<LinkStep>) -> MemLink
        ensures { result ≡ new_link steps }
    {
        MemLink {
            alloc,
            steps: VecDeque::from_vec(steps.into_vec()),
            traffic: Traffic::new(alloc),
            server: None,
            closed: false,
            faults: 0,
            idles: 0,
        }
    }

    /// A link that serves as a worker would whose commands leave each output empty. It gives a
    /// Hello of these amounts first, which one job may take whole, and answers each Task whose
    /// inputs were all put; with nothing left to give it is idle.
    pub fn serving(alloc: Global, total: Amounts, cache: u64) -> Result<MemLink, Memory>
        ensures fresh { IfOk result (λ link. link ≡ serving_link total cache) }
        ensures framed { IfOk result (λ link. IsFramed (hello total cache)) }
        ensures offers { (least : Amounts) → IsAtLeast least total → most_input_bytes ≤ cache
            → IfOk result (OffersLink least) }
    {
        let hello = Message::Hello {
            total,
            largest: total,
            cache,
        };
        let frame = frame_of(alloc, &hello)?;
        MemLink::giving_first(alloc, frame, Server::new(alloc, total, cache))
    }

    // A link that serves, and gives these bytes first.
    fn giving_first(alloc: Global, frame: Bytes, server: Server) -> Result<MemLink, Memory>
        ensures { IfOk result (λ link. link ≡ fresh_link (steps.Give frame ∷ []) (Some server)) }
    {
        let mut steps = VecDeque::new(alloc);
        if steps.push_back(LinkStep::Give(frame)).is_err() {
            return Err(Memory);
        }
        Ok(MemLink {
            alloc,
            steps,
            traffic: Traffic::new(alloc),
            server: Some(server),
            closed: false,
            faults: 0,
            idles: 0,
        })
    }

    // Notes what is sent. A server hears it, and its answers stand behind the steps.
    fn pass_on(&mut self, bytes: &[u8]) -> Result<(), Memory>
        ensures ok { OnOk result (Sends self.old.server bytes.now self.old self.new) }
        ensures err { OnErr result (self.new ≡ self.old) }
    {
        let Some(server) = self.server.as_ref() else {
            self.traffic.send(bytes)?;
            self.idles = 0;
            return Ok(());
        };
        let (server, mut gives) = server.after(self.alloc, bytes)?;
        if self.steps.reserve(gives.len()).is_err() {
            return Err(Memory);
        }
        self.traffic.send(bytes)?;
        let _ = self.steps.append(&mut gives);
        self.server = Some(server);
        self.idles = 0;
        Ok(())
    }

    /// All that was sent.
    pub fn sent(&self) -> &[u8]
        ensures { result.now ≡ sent_in self.now.history }
    {
        self.traffic.sent()
    }

    // Sends the bytes, or fails where the first step says so.
    fn transmit(&mut self, bytes: &[u8]) -> Result<(), Fault>
        ensures step { SendsBy (awaits_send self.old.steps) bytes.now self.old result self.new }
        ensures history { Transmits result bytes.now self.old.history self.new.history }
        ensures idles { self.new.idles ≡ (if is_ok result then 0 else self.old.idles) }
        ensures closed { self.new.closed ≡ self.old.closed }
        ensures cause { HasCause self.old.faults self.new.faults result }
    {
        if first_awaits_send(&self.steps) {
            let _ = self.steps.pop_front();
            return Err(failed(&mut self.faults));
        }
        self.pass_on(bytes)?;
        Ok(())
    }

    // Takes the first step.
    fn take_step(&mut self) -> Result<Got, Fault>
        ensures step { Takes self.old.steps self.old result self.new }
        ensures history { Receives result self.old.history self.new.history }
        ensures full { IfOk result IsFull }
        ensures idles { self.new.idles ≡ idles_after result self.old.idles }
        ensures closed { self.new.closed ≡ closed_after result self.old.closed }
        ensures cause { HasCause self.old.faults self.new.faults result }
    {
        if first_awaits_call(&self.steps) {
            return self.idle();
        }
        if let Some(bytes) = first_given(&self.steps) {
            self.traffic.receive(bytes.as_slice())?;
        }
        match self.steps.pop_front() {
            Some(LinkStep::Give(bytes)) if !bytes.as_slice().is_empty() => {
                self.idles = 0;
                Ok(Got::Piece(bytes))
            }
            Some(LinkStep::Close) => {
                self.closed = true;
                Ok(Got::Closed)
            }
            Some(LinkStep::Fail) => Err(failed(&mut self.faults)),
            _ => self.idle(),
        }
    }

    // Takes one of the bytes that wait to go out, or fails where the first step says so.
    fn flush_step(&mut self) -> Result<u64, Fault>
        ensures step { Flushes self.old.steps self.old result self.new }
        ensures history { self.new.history ≡ self.old.history }
        ensures idles { self.new.idles ≡ self.old.idles }
        ensures closed { self.new.closed ≡ self.old.closed }
        ensures cause { HasCause self.old.faults self.new.faults result }
    {
        if count_behind(&self.steps) == 0 {
            return Ok(0);
        }
        match self.steps.pop_front() {
            Some(LinkStep::FailFlush) => Err(failed(&mut self.faults)),
            _ => Ok(count_behind(&self.steps)),
        }
    }

    // Nothing came. A count at its last value is want of memory.
    fn idle(&mut self) -> Result<Got, Fault>
        ensures { Idles self.old result self.new }
    {
        if self.idles == u64::MAX {
            return Err(Fault::Memory);
        }
        self.idles += 1;
        Ok(Got::Idle)
    }
}

impl<F: Commands> Link<F> for MemLink {
    ghost tells = { Unit {0} };

    ghost history = { λ link. link.history };

    ghost honest = { λ link. IsHonestLink F.gives F.may_fail link };

    ghost sure = { λ link. IsSureLink F.gives F.may_fail link };

    ghost offers = { λ link amounts. OffersLink amounts link };

    ghost count = { λ link. link.faults };

    ghost idle_count = { λ link. link.idles };

    ghost is_closed = { λ link. link.closed };

    ghost honest_is = { λ link is. (tt, is.honest) };

    ghost sure_is = { λ link is. (is.honest, is.orderly) };

    ghost offers_is = { λ link amounts is. is.offered };

    fn send(&mut self, bytes: &[u8]) -> Result<(), Fault>
        ensures step { SendsBy (awaits_send self.old.steps) bytes.now self.old result self.new }
        ensures history { Transmits result bytes.now self.old.history self.new.history }
        ensures idles { self.new.idles ≡ (if is_ok result then 0 else self.old.idles) }
        ensures closed { self.new.closed ≡ self.old.closed }
        ensures honest { IsHonestLink F.gives F.may_fail self.old
            → IsHonestLink F.gives F.may_fail self.new }
        ensures sure { IsSureLink F.gives F.may_fail self.old
            → IsSureLink F.gives F.may_fail self.new × (IsErrOf result Fault.Failed → ⊥) }
        ensures offers { (amounts : Amounts)
            → OffersLink amounts self.old → OffersLink amounts self.new }
        ensures cause { HasCause self.old.faults self.new.faults result }
    {
        self.transmit(bytes)
    }

    fn hand(&mut self, bytes: Bytes) -> Result<(), Fault>
        ensures step { SendsBy (awaits_send self.old.steps) bytes self.old result self.new }
        ensures history { Transmits result bytes self.old.history self.new.history }
        ensures idles { self.new.idles ≡ (if is_ok result then 0 else self.old.idles) }
        ensures closed { self.new.closed ≡ self.old.closed }
        ensures honest { IsHonestLink F.gives F.may_fail self.old
            → IsHonestLink F.gives F.may_fail self.new }
        ensures sure { IsSureLink F.gives F.may_fail self.old
            → IsSureLink F.gives F.may_fail self.new × (IsErrOf result Fault.Failed → ⊥) }
        ensures offers { (amounts : Amounts)
            → OffersLink amounts self.old → OffersLink amounts self.new }
        ensures cause { HasCause self.old.faults self.new.faults result }
    {
        self.transmit(bytes.as_slice())
    }

    fn behind(&self) -> u64
        ensures answer { result ≡ waits self.now.steps }
        ensures sure { IsSureLink F.gives F.may_fail self.now → result ≡ 0 }
    {
        count_behind(&self.steps)
    }

    fn flush(&mut self, _patience: u64) -> Result<u64, Fault>
        ensures step { Flushes self.old.steps self.old result self.new }
        ensures history { self.new.history ≡ self.old.history }
        ensures idles { self.new.idles ≡ self.old.idles }
        ensures closed { self.new.closed ≡ self.old.closed }
        ensures honest { IsHonestLink F.gives F.may_fail self.old
            → IsHonestLink F.gives F.may_fail self.new }
        ensures sure { IsSureLink F.gives F.may_fail self.old
            → IsSureLink F.gives F.may_fail self.new × (result ≡ Ok 0) }
        ensures offers { (amounts : Amounts)
            → OffersLink amounts self.old → OffersLink amounts self.new }
        ensures cause { HasCause self.old.faults self.new.faults result }
    {
        self.flush_step()
    }

    fn recv(&mut self, _alloc: Global) -> Result<Got, Fault>
        ensures step { Takes self.old.steps self.old result self.new }
        ensures history { Receives result self.old.history self.new.history }
        ensures full { IfOk result IsFull }
        ensures idles { self.new.idles ≡ idles_after result self.old.idles }
        ensures closed { self.new.closed ≡ closed_after result self.old.closed }
        ensures honest { IsHonestLink F.gives F.may_fail self.old
            → IsHonestLink F.gives F.may_fail self.new × IsHonestSoFar F.gives F.may_fail
            (sent_in self.new.history) (received_in self.new.history) }
        ensures sure { IsSureLink F.gives F.may_fail self.old
            → IsSureLink F.gives F.may_fail self.new × IsSureAnswer (sent_in self.old.history)
            (received_in self.old.history) result }
        ensures offers { (amounts : Amounts)
            → OffersLink amounts self.old → OffersLink amounts self.new }
        ensures cause { HasCause self.old.faults self.new.faults result }
    {
        self.take_step()
    }

    fn ready(&mut self) -> bool
        ensures answer { result ≡ has_news self.old.steps }
        ensures link { self.new ≡ self.old }
    {
        first_is_news(&self.steps)
    }

    fn faults(&self) -> u64
        ensures { result ≡ self.now.faults }
    {
        self.faults
    }

    fn idles(&self) -> u64
        ensures { result ≡ self.now.idles }
    {
        self.idles
    }

    fn closed(&self) -> bool
        ensures { result ≡ self.now.closed }
    {
        self.closed
    }
}

fn first_awaits_send(steps: &VecDeque<LinkStep>) -> bool
    ensures { result ≡ awaits_send steps.now.items }
{
    matches!(steps.front(), Some(LinkStep::FailSend))
}

// Whether the first of the steps is for another call than `recv`.
fn first_awaits_call(steps: &VecDeque<LinkStep>) -> bool
    ensures { result ≡ awaits_call steps.now.items }
{
    matches!(
        steps.front(),
        Some(LinkStep::FailSend | LinkStep::Behind | LinkStep::FailFlush)
    )
}

// Whether a `recv` answers more than that nothing came.
fn first_is_news(steps: &VecDeque<LinkStep>) -> bool
    ensures { result ≡ has_news steps.now.items }
{
    match steps.front() {
        Some(LinkStep::Give(bytes)) => !bytes.as_slice().is_empty(),
        Some(LinkStep::Close | LinkStep::Fail) => true,
        _ => false,
    }
}

// How many bytes wait to go out.
fn count_behind(steps: &VecDeque<LinkStep>) -> u64
    ensures { result ≡ waits steps.now.items }
{
    match steps.front() {
        Some(LinkStep::Behind | LinkStep::FailFlush) => 1,
        _ => 0,
    }
}

// What the first of the steps gives, if it gives anything.
fn first_given(steps: &VecDeque<LinkStep>) -> Option<&Bytes>
    ensures { option_copied result ≡ next_given steps.now.items }
{
    match steps.front() {
        Some(LinkStep::Give(bytes)) => {
            if bytes.as_slice().is_empty() {
                return None;
            }
            Some(bytes)
        }
        _ => None,
    }
}
