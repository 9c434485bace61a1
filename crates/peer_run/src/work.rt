//! A worker at its link.
ghost use Rattle.std.specs.Prelude.{◌≡◌, ◌≤◌, ◌<◌, ◌-◌, ◌++◌, ℕ, Bool, List, false, None, Some, Ok, length};
ghost use Rattle.flow_types.specs.declared.job.Start.{Start as StartValue};
ghost use Rattle.wq_messages.specs.Spelling.{HasCounts};
ghost use Rattle.worker_core.specs.Workers.{Worker as WorkerValue};
ghost use Rattle.worker_pool.specs.Steers.{AllDue};
ghost use Rattle.worker_pool.specs.declared.hand.Tally.{Tally};
ghost use Rattle.peer_run.specs.Ends.{Goes, HasBroken, HasLeft, Takes, leaving};
ghost use Rattle.peer_run.specs.Works.{AtWork, EarState, IsRunning, IsShapedPool, way_of};

use crate::Halt;
use crate::ear::Ear;
use crate::pace::Pace;
use crate::voice::say_first;
use flow_types::{Message, Start};
use links::{Dial, Got, Link};
use outside::{Commands, Fault};
use std::alloc::Global;
use std::sync::Wait;
use worker_core::{Acts, WorkerCore};
use worker_pool::{Pool, Terms};
use wq_messages::PeerFault;

// How many seconds the parent may take no byte of what is there for it. Nobody is left for being slow.
const PATIENCE: u64 = 1_000_000_000;

// The same, once the parent has said that the work is over.
const LAST_PATIENCE: u64 = 20;

pub(crate) fn halt_by(fault: Fault) -> Halt
    ensures link { fault ≡ Fault.Failed → result ≡ Halt.Link }
    ensures memory { fault ≡ Fault.Memory → result ≡ Halt.Memory }
{
    match fault {
        Fault::Failed => Halt::Link,
        Fault::Memory => Halt::Memory,
    }
}

// Hands the one job that there may be to the pool.
fn give_first<B: Terms, W: Wait>(rt: &W, pool: &mut Pool<B>, starts: Vec<Start>)
    requires few { length starts.items ≤ 1 }
    requires room { length pool.old.waiting < 64 }
    ensures waiting { pool.new.waiting ≡ pool.old.waiting ++ starts.items }
    ensures heard { pool.new.heard ≡ pool.old.heard }
    ensures line { pool.new.line ≡ pool.old.line }
{
    let mut starts = starts;
    if let Some(start) = starts.pop() {
        pool.give(rt, start);
    }
}

/// Does what a message asks for, which began at this byte, and answers whether the work is over.
fn obey<B: Terms, W: Wait, F: Commands, L: Link<F>>(
    rt: &W,
    alloc: Global,
    link: &mut L,
    core: &mut WorkerCore,
    pool: &mut Pool<B>,
    message: Message,
    at: u64,
) -> Result<bool, Halt>
    requires room { length pool.old.waiting < 64 }
    requires counts { HasCounts message }
    ensures goes { (first : WorkerValue) (faults : ℕ) (ear next : EarState)
        → at ≡ ear.fed - length ear.rest → Takes ear (Ok (Some message)) next
        → AtWork F.gives F.may_fail L.tells B.fits first faults
        (way_of L.history L.is_closed L.count link.old) ear core.old
        pool.old.waiting pool.old.heard false
        → Goes result (AtWork F.gives F.may_fail L.tells B.fits first faults
        (way_of L.history L.is_closed L.count link.new) next core.new
        pool.new.waiting pool.new.heard)
        (HasLeft F.gives F.may_fail L.tells B.fits first faults
        (way_of L.history L.is_closed L.count link.new) pool.new.heard) }
    ensures line { pool.new.line ≡ pool.old.line }
{
    let Acts { send, start, bye } = match core.on_message(message) {
        Ok(acts) => acts,
        Err(PeerFault::Unexpected) => return Err(Halt::Bad { at }),
        Err(PeerFault::Memory) => return Err(Halt::Memory),
    };
    if let Err(fault) = say_first(alloc, link, send.as_slice()) {
        return Err(halt_by(fault));
    }
    give_first(rt, pool, start.into_vec());
    Ok(bye)
}

/// Takes the bytes that are there, if there are some.
fn listen<B: Terms, F: Commands, L: Link<F>>(
    alloc: Global,
    link: &mut L,
    ear: &mut Ear,
) -> Result<(), Halt>
    requires { ear.old.stop ≡ None }
    ensures goes { (first : WorkerValue) (faults : ℕ) (before : EarState) (core : WorkerValue)
        (waiting : List StartValue) (heard : Tally) → Takes before (Ok None) ear.old
        → AtWork F.gives F.may_fail L.tells B.fits first faults
        (way_of L.history L.is_closed L.count link.old) before core waiting heard false
        → Goes result (λ _. AtWork F.gives F.may_fail L.tells B.fits first faults
        (way_of L.history L.is_closed L.count link.new) ear.new core waiting heard false)
        (HasLeft F.gives F.may_fail L.tells B.fits first faults
        (way_of L.history L.is_closed L.count link.new) heard) }
{
    match link.recv(alloc) {
        Ok(Got::Piece(piece)) => match ear.feed(piece.as_slice()) {
            Ok(()) => Ok(()),
            Err(_) => Err(Halt::Memory),
        },
        Ok(Got::Idle) => Ok(()),
        Ok(Got::Closed) => Err(Halt::Closed),
        Err(fault) => Err(halt_by(fault)),
    }
}

// What a look at a link found.
#[derive(Clone, Copy)]
struct Glance {
    // Something is there to be heard.
    ready: bool,
    // Some of what the link took went out.
    sent: bool,
}

// Sends on what the link took, and looks whether something is there to be heard.
fn look<F: Commands, L: Link<F>>(link: &mut L) -> Glance
    ensures { link.new ≡ link.old }
{
    let behind = link.behind();
    let ready = link.ready();
    let sent = link.behind() != behind;
    Glance { ready, sent }
}

/// Takes the bytes that are there, or else rests, where less than a message is there. At a turn it
/// asks for bytes in any case.
fn await_more<B: Terms, F: Commands, L: Link<F>, D: Dial<F>>(
    alloc: Global,
    link: &mut L,
    ear: &mut Ear,
    pace: &mut Pace<'_, D>,
    out: usize,
    turn: bool,
) -> Result<(), Halt>
    requires { ear.old.stop ≡ None }
    ensures goes { (first : WorkerValue) (faults : ℕ) (before : EarState) (core : WorkerValue)
        (waiting : List StartValue) (heard : Tally) → Takes before (Ok None) ear.old
        → AtWork F.gives F.may_fail L.tells B.fits first faults
        (way_of L.history L.is_closed L.count link.old) before core waiting heard false
        → Goes result (λ _. AtWork F.gives F.may_fail L.tells B.fits first faults
        (way_of L.history L.is_closed L.count link.new) ear.new core waiting heard false)
        (HasLeft F.gives F.may_fail L.tells B.fits first faults
        (way_of L.history L.is_closed L.count link.new) heard) }
{
    let Glance { ready, sent } = look::<F, L>(link);
    if ready || turn {
        return listen::<B, F, L>(alloc, link, ear);
    }
    if !sent {
        pace.rest::<F>(out);
    }
    Ok(())
}

/// Does what the next message asks for, or waits for more bytes, and answers whether the work is
/// over.
fn attend<B: Terms, W: Wait, F: Commands, L: Link<F>, D: Dial<F>>(
    rt: &W,
    alloc: Global,
    link: &mut L,
    ear: &mut Ear,
    core: &mut WorkerCore,
    pool: &mut Pool<B>,
    pace: &mut Pace<'_, D>,
    turn: bool,
) -> Result<bool, Halt>
    requires room { length pool.old.waiting < 64 }
    requires going { ear.old.stop ≡ None }
    ensures goes { (first : WorkerValue) (faults : ℕ)
        → AtWork F.gives F.may_fail L.tells B.fits first faults
        (way_of L.history L.is_closed L.count link.old) ear.old core.old
        pool.old.waiting pool.old.heard false
        → Goes result (AtWork F.gives F.may_fail L.tells B.fits first faults
        (way_of L.history L.is_closed L.count link.new) ear.new core.new
        pool.new.waiting pool.new.heard)
        (HasLeft F.gives F.may_fail L.tells B.fits first faults
        (way_of L.history L.is_closed L.count link.new) pool.new.heard) }
    ensures line { pool.new.line ≡ pool.old.line }
{
    let at = ear.at();
    match ear.next(alloc) {
        Ok(Some(message)) => obey(rt, alloc, link, core, pool, message, at),
        Ok(None) => match await_more::<B, F, L, D>(alloc, link, ear, pace, pool.out(), turn) {
            Ok(()) => Ok(false),
            Err(halt) => Err(halt),
        },
        Err(halt) => Err(halt),
    }
}

/// Tells how one job ended, where one has, and answers whether one had.
fn hear<B: Terms, F: Commands, L: Link<F>>(
    alloc: Global,
    link: &mut L,
    core: &mut WorkerCore,
    pool: &mut Pool<B>,
) -> Result<bool, Halt>
    requires running { AllDue (IsRunning core.old) pool.old.waiting }
    requires shaped { IsShapedPool B.fits }
    ensures goes { (first : WorkerValue) (faults : ℕ) (ear : EarState) (left : Bool)
        → AtWork F.gives F.may_fail L.tells B.fits first faults
        (way_of L.history L.is_closed L.count link.old) ear core.old
        pool.old.waiting pool.old.heard left
        → Goes result (λ _. AtWork F.gives F.may_fail L.tells B.fits first faults
        (way_of L.history L.is_closed L.count link.new) ear core.new
        pool.new.waiting pool.new.heard left)
        (HasBroken F.gives F.may_fail L.tells B.fits first faults
        (way_of L.history L.is_closed L.count link.new) pool.new.heard left) }
    ensures line { pool.new.line ≡ pool.old.line }
{
    let Some(report) = pool.hear() else {
        return Ok(false);
    };
    let Ok(acts) = core.on_report(report.attempt, report.outcome) else {
        return Err(Halt::Memory);
    };
    match say_first(alloc, link, acts.send.as_slice()) {
        Ok(()) => Ok(true),
        Err(fault) => Err(halt_by(fault)),
    }
}

fn leaving(left: bool, halt: Halt) -> Halt
    ensures { result ≡ leaving left halt }
{
    match halt {
        Halt::Link if left => Halt::Bye,
        _ => halt,
    }
}

/// At a turn it sends on what the link took. The parent is left where it took nothing for too long.
fn send_on<B: Terms, F: Commands, L: Link<F>>(
    link: &mut L,
    turn: bool,
    left: bool,
) -> Result<(), Halt>
    ensures goes { (first : WorkerValue) (faults : ℕ) (ear : EarState) (core : WorkerValue)
        (waiting : List StartValue) (heard : Tally)
        → AtWork F.gives F.may_fail L.tells B.fits first faults
        (way_of L.history L.is_closed L.count link.old) ear core waiting heard left
        → Goes result (λ _. AtWork F.gives F.may_fail L.tells B.fits first faults
        (way_of L.history L.is_closed L.count link.new) ear core waiting heard left)
        (HasBroken F.gives F.may_fail L.tells B.fits first faults
        (way_of L.history L.is_closed L.count link.new) heard left) }
{
    if !turn {
        return Ok(());
    }
    let patience = if left { LAST_PATIENCE } else { PATIENCE };
    match link.flush(patience) {
        Ok(_) => Ok(()),
        Err(fault) => Err(halt_by(fault)),
    }
}

// Sends on what the link took, and rests where nothing went. It hears nothing.
fn rest<F: Commands, L: Link<F>, D: Dial<F>>(link: &mut L, pace: &mut Pace<'_, D>, out: usize)
    ensures { link.new ≡ link.old }
{
    if !look::<F, L>(link).sent {
        pace.rest::<F>(out);
    }
}

/// Hears messages and the ends of jobs until the work is over, all jobs have ended and what was said
/// has gone out, or until it can't go on.
pub(crate) fn serve<B: Terms, W: Wait, F: Commands, L: Link<F>, D: Dial<F>>(
    rt: &W,
    alloc: Global,
    link: &mut L,
    ear: &mut Ear,
    core: &mut WorkerCore,
    pool: &mut Pool<B>,
    pace: &mut Pace<'_, D>,
) -> Halt
    requires shaped { IsShapedPool B.fits }
    requires works { (first : WorkerValue) × (faults : ℕ)
        × AtWork F.gives F.may_fail L.tells B.fits first faults
        (way_of L.history L.is_closed L.count link.old) ear.old core.old
        pool.old.waiting pool.old.heard false }
    ensures leaves { (first : WorkerValue) (faults : ℕ)
        → AtWork F.gives F.may_fail L.tells B.fits first faults
        (way_of L.history L.is_closed L.count link.old) ear.old core.old
        pool.old.waiting pool.old.heard false
        → HasLeft F.gives F.may_fail L.tells B.fits first faults
        (way_of L.history L.is_closed L.count link.new) pool.new.heard result }
    ensures line { pool.new.line ≡ pool.old.line }
{
    let mut left = false;
    for _ in rt.forever() {
        if pool.seen().is_none() {
            return Halt::Memory;
        }
        match hear::<B, F, L>(alloc, link, core, pool) {
            Ok(true) => continue,
            Ok(false) => {}
            Err(halt) => return leaving(left, halt),
        }
        let turn = pace.has_turn();
        if let Err(halt) = send_on::<B, F, L>(link, turn, left) {
            return leaving(left, halt);
        }
        if left && pool.out() == 0 && link.behind() == 0 {
            return Halt::Bye;
        }
        if left || pool.out() >= 64 {
            rest::<F, L, D>(link, pace, pool.out());
            continue;
        }
        match attend(rt, alloc, link, ear, core, pool, pace, turn) {
            Ok(bye) => left = bye,
            Err(halt) => return halt,
        }
    }
    unreachable!()
}
