//! The top call of a foreman.
ghost use Rattle.std.specs.Prelude.{◌≡◌, [], Bool, ℕ, false, true, None, map, string_bytes};
ghost use Rattle.command_words.specs.Peers.{foreman_options_of};
ghost use Rattle.links.specs.Halls.{IsFresh};
ghost use Rattle.peer_run.specs.declared.cause.PeerCause.{PeerCause as Cause};
ghost use Rattle.peer_run.specs.Causes.{foreman_line_of, status_of};
ghost use Rattle.peer_run.specs.Ended.{IsPrinted};
ghost use Rattle.peer_run.specs.Works.{way_of};
ghost use Rattle.foreman_run.specs.Lost.{seen_of};
ghost use Rattle.foreman_run.specs.Ended.{AreHandedBack, EndsBy, cause_by};
ghost use Rattle.foreman_run.specs.Ends.{StopsOver, stop_by};
ghost use Rattle.foreman_run.specs.Hosts.{LetsGo};
ghost use Rattle.foreman_run.specs.Met.{hello};
ghost use Rattle.foreman_run.specs.Tied.{Book, new_book, with_hall};
ghost use Rattle.foreman_run.specs.Works.{IsAtHall, Works};

use crate::company::Company;
use crate::hosting::dismiss;
use crate::rounds::serve;
use crate::stop::Stop;
use command_words::{WordsFault, read_foreman_words};
use flow_types::{Amounts, Message};
use foreman_core::ForemanCore;
use links::{Dial, Hall, Link};
use outside::{Commands, Fault, Sink};
use peer_run::{Ear, Halt, PeerCause, PeerEnded, say, tell};
use std::alloc::Global;
use std::sync::Wait;
use std::thread::Threads;

// Why it ended, and the link to its parent.
#[derive(Drop)]
struct Ending<U> {
    cause: PeerCause,
    link: Option<U>,
}

impl<U> Ending<U> {
    ghost use Rattle.std.specs.Prelude.{None};

    // There was no link.
    fn early(cause: PeerCause) -> Ending<U>
        ensures { (result.cause ≡ cause) × (result.link ≡ None) }
    {
        Ending { cause, link: None }
    }
}

fn hello() -> Message
    ensures { result ≡ hello }
{
    let nothing = Amounts {
        cores: 0,
        memory: 0,
        disk: 0,
    };
    Message::Hello {
        total: nothing,
        largest: nothing,
        cache: 0,
    }
}

// Where a link couldn't be handed back after the work was over, memory was wanting.
fn stop_by(stop: Stop, whole: bool) -> Stop
    ensures { result ≡ stop_by whole stop }
{
    match stop {
        Stop::Left(Halt::Bye) if !whole => Stop::Left(Halt::Memory),
        _ => stop,
    }
}

// A foreman that has said its hello makes its rounds, and lets its workers go.
fn serve_all<W: Threads + Wait + Sync, F: Commands, U: Link<F>, H: Hall<F>>(
    rt: &W,
    alloc: Global,
    parent: &mut U,
    ear: &mut Ear,
    core: &mut ForemanCore,
    hall: &mut H,
) -> Stop
    requires works { IsAtHall F.gives F.may_fail U.tells H.Way.tells
        (seen_of H.Way.history H.Way.is_closed H.Way.count H.Way.idle_count) H.Way.honest (H.got
        hall.old) 0 (way_of U.history U.is_closed U.count parent.old) ear.old core.old [] }
    requires listens { H.listens hall.old }
    ensures stops { (trusted : Bool) (cap : ℕ) (book : Book H.Way) → (trusted ≡ true → H.honest
        hall.old) → Works F.gives F.may_fail U.tells trusted H.Way.tells
        (seen_of H.Way.history H.Way.is_closed H.Way.count H.Way.idle_count) H.Way.honest cap
        (with_hall book (H.got hall.old) 0) (way_of U.history U.is_closed U.count parent.old)
        ear.old core.old [] [] [] false → StopsOver F.gives F.may_fail U.tells trusted H.Way.tells
        (seen_of H.Way.history H.Way.is_closed H.Way.count H.Way.idle_count) cap book (H.got
        hall.new) (H.given hall.old) (H.given hall.new) (way_of U.history U.is_closed U.count
        parent.new) [] result }
    ensures hosts { LetsGo (H.count hall.old) (H.count hall.new) (H.got hall.old)
        (H.got hall.new) (H.given hall.old) (H.given hall.new) result }
{
    let mut company = Company::new(alloc);
    let stop = serve(rt, alloc, parent, ear, core, &mut company, hall);
    let is_over = stop == Stop::Left(Halt::Bye);
    let whole = dismiss::<F, H>(alloc, company, hall, is_over);
    stop_by(stop, whole)
}

// A foreman over a new link to its parent, with its workers to come to this port.
fn work<W: Threads + Wait + Sync, F: Commands, U: Link<F>, H: Hall<F>>(
    rt: &W,
    alloc: Global,
    parent: &mut U,
    hall: &mut H,
    port: u16,
    cap: u64,
) -> Stop
    requires fresh { IsFresh U.history U.count U.idle_count U.is_closed parent.old }
    ensures stops { (trusted : Bool) → (trusted ≡ true → H.honest hall.old) → StopsOver F.gives
        F.may_fail U.tells trusted H.Way.tells
        (seen_of H.Way.history H.Way.is_closed H.Way.count H.Way.idle_count) cap (new_book (H.got
        hall.old)) (H.got hall.new) (H.given hall.old) (H.given hall.new) (way_of U.history
        U.is_closed U.count parent.new) [] result }
    ensures hosts { LetsGo (H.count hall.old) (H.count hall.new) (H.got hall.old)
        (H.got hall.new) (H.given hall.old) (H.given hall.new) result }
{
    match hall.listen(port) {
        Ok(()) => {}
        Err(Fault::Failed) => return Stop::Hall,
        Err(Fault::Memory) => return Stop::Left(Halt::Memory),
    }
    let mut core = ForemanCore::new(alloc, cap);
    let Ok(mut ear) = Ear::new(alloc) else {
        return Stop::Left(Halt::Memory);
    };
    match say(alloc, parent, &hello()) {
        Ok(()) => serve_all(rt, alloc, parent, &mut ear, &mut core, hall),
        Err(fault) => Stop::of(fault),
    }
}

fn cause_by(after: u64, before: u64, now: u64, stop: Stop) -> PeerCause
    ensures { result ≡ cause_by after before now stop }
{
    match stop {
        Stop::Left(Halt::Bye) => PeerCause::Bye,
        Stop::Left(Halt::Closed) => PeerCause::Closed,
        Stop::Left(Halt::Link) => PeerCause::LinkFault { before: 0, after },
        Stop::Left(Halt::Bad { at }) => PeerCause::BadMessage { at },
        Stop::Left(Halt::Memory) => PeerCause::Memory,
        Stop::Hall => PeerCause::HallFault { before, after: now },
    }
}

// Works for a parent, as the words say, and prints nothing.
fn work_for<F: Commands, W: Threads + Wait + Sync, D: Dial<F>, H: Hall<F>>(
    rt: &W,
    alloc: Global,
    words: &[String],
    dial: &mut D,
    hall: &mut H,
) -> Ending<D::Way>
    ensures ended { EndsBy F.gives F.may_fail D.Way.tells (H.honest hall.old) H.Way.tells
        (seen_of H.Way.history H.Way.is_closed H.Way.count H.Way.idle_count) (way_of D.Way.history
        D.Way.is_closed D.Way.count) (foreman_options_of (map string_bytes words.now)) (D.count
        dial.old) (D.count dial.new) (H.count hall.old) (H.count hall.new) (H.got hall.old) (H.got
        hall.new) (H.given hall.old) (H.given hall.new) result.link result.cause }
    ensures back { AreHandedBack (H.count hall.old) (H.count hall.new) (H.got hall.old)
        (H.got hall.new) (H.given hall.old) (H.given hall.new) result.cause }
{
    let options = match read_foreman_words(alloc, words) {
        Ok(options) => options,
        Err(WordsFault::Usage) => return Ending::early(PeerCause::Usage),
        Err(WordsFault::Memory) => return Ending::early(PeerCause::Memory),
    };
    let before = dial.faults();
    let mut link = match dial.dial(alloc, options.host.as_str(), options.port) {
        Ok(link) => link,
        Err(Fault::Memory) => return Ending::early(PeerCause::Memory),
        Err(Fault::Failed) => {
            let after = dial.faults();
            return Ending::early(PeerCause::DialFault { before, after });
        }
    };
    let hall_before = hall.faults();
    let cap = options.cache as u64 * 1_048_576;
    let stop = work(rt, alloc, &mut link, hall, options.listening, cap);
    let cause = cause_by(link.faults(), hall_before, hall.faults(), stop);
    Ending {
        cause,
        link: Some(link),
    }
}

/// Works for a parent, which is a master or a foreman, with the workers that come: connects to the
/// parent and lets workers connect, as the words say, hands what it is asked for out to its workers,
/// and passes up what they tell, until it is told that the work is over. Then it lets its workers go,
/// and prints one line on why it ended.
pub fn foreman_top<F: Commands, W: Threads + Wait + Sync, D: Dial<F>, H: Hall<F>, O: Sink>(
    rt: &W,
    alloc: Global,
    words: &[String],
    dial: &mut D,
    hall: &mut H,
    out: &mut O,
) -> PeerEnded<D::Way>
    ensures status { result.status ≡ status_of result.cause }
    ensures ended { (cause : Cause) × EndsBy F.gives F.may_fail D.Way.tells (H.honest hall.old)
        H.Way.tells (seen_of H.Way.history H.Way.is_closed H.Way.count H.Way.idle_count) (way_of
        D.Way.history D.Way.is_closed D.Way.count) (foreman_options_of (map string_bytes words.now))
        (D.count dial.old) (D.count dial.new) (H.count hall.old) (H.count hall.new) (H.got hall.old)
        (H.got hall.new) (H.given hall.old) (H.given hall.new) result.link cause × AreHandedBack
        (H.count hall.old) (H.count hall.new) (H.got hall.old) (H.got hall.new) (H.given hall.old)
        (H.given hall.new) cause × IsPrinted O.tells (O.count out.old) (O.count out.new) (O.bytes
        out.old) (O.bytes out.new) (foreman_line_of cause) cause result.cause }
{
    let Ending { cause, link } = work_for::<F, W, D, H>(rt, alloc, words, dial, hall);
    let cause = tell(cause, cause.foreman_line(), out);
    PeerEnded {
        status: cause.status(),
        cause,
        link,
    }
}
