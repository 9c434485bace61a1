//! The top call of a worker.
ghost use Rattle.std.specs.Prelude.{◌≡◌, ◌<◌, length, map, string_bytes, sum_by};
ghost use Rattle.command_words.specs.Peers.{worker_options_of};
ghost use Rattle.peer_run.specs.declared.cause.PeerCause.{PeerCause as Cause};
ghost use Rattle.peer_run.specs.Causes.{cause_of, line_of, status_of};
ghost use Rattle.peer_run.specs.Ended.{EndsBy, IsPrinted};
ghost use Rattle.peer_run.specs.Works.{way_of};

use crate::pace::Pace;
use crate::pool::work;
use crate::printing::tell;
use crate::{Halt, PeerCause};
use command_words::{WordsFault, read_worker_words};
use links::{Dial, Link};
use outside::{Commands, Fault, Runner, Sink};
use ringing::Ringing;
use std::alloc::Global;
use std::sync::Wait;
use std::thread::Threads;
use worker_pool::Gate;

/// How a peer's call ended.
#[derive(Drop)]
pub struct PeerEnded<L> {
    /// The exit status.
    pub status: u8,
    /// Why it ended.
    pub cause: PeerCause,
    /// The link to its parent, where there was one.
    pub link: Option<L>,
}

// Why it ended, and its link.
#[derive(Drop)]
struct Left<L> {
    cause: PeerCause,
    link: Option<L>,
}

impl<L> Left<L> {
    ghost use Rattle.std.specs.Prelude.{None};

    // There was no link.
    fn early(cause: PeerCause) -> Left<L>
        ensures { (result.cause ≡ cause) × (result.link ≡ None) }
    {
        Left { cause, link: None }
    }
}

fn cause_of(after: u64, halt: Halt) -> PeerCause
    ensures { result ≡ cause_of after halt }
{
    match halt {
        Halt::Bye => PeerCause::Bye,
        Halt::Closed => PeerCause::Closed,
        Halt::Link => PeerCause::LinkFault { before: 0, after },
        Halt::Bad { at } => PeerCause::BadMessage { at },
        Halt::Memory => PeerCause::Memory,
    }
}

// Works for a parent, as the words say, and prints nothing.
fn work_for<F: Commands, W: Threads + Wait + Sync, D: Dial<F>, R: Runner<F>, G: Gate>(
    rt: &W,
    alloc: Global,
    words: &[String],
    dial: &mut D,
    runners: &mut [R],
    gate: &G,
) -> Left<D::Way>
    requires some { 0 < length runners.old }
    ensures ended { EndsBy F.gives F.may_fail D.Way.tells
        (way_of D.Way.history D.Way.is_closed D.Way.count) R.tells R.sure runners.old
        (worker_options_of (map string_bytes words.now)) (D.count dial.old) (D.count dial.new)
        (sum_by R.count runners.old) (sum_by R.count runners.new) result.link result.cause }
{
    let options = match read_worker_words(alloc, words) {
        Ok(options) => options,
        Err(WordsFault::Usage) => return Left::early(PeerCause::Usage),
        Err(WordsFault::Memory) => return Left::early(PeerCause::Memory),
    };
    let before = dial.faults();
    let mut link = match dial.dial(alloc, options.host.as_str(), options.port) {
        Ok(link) => link,
        Err(Fault::Memory) => return Left::early(PeerCause::Memory),
        Err(Fault::Failed) => {
            let after = dial.faults();
            return Left::early(PeerCause::DialFault { before, after });
        }
    };
    let cap = options.cache as u64 * 1_048_576;
    let ringer = dial.ringer();
    let told = ringer.is_some();
    let gate = Ringing::new(gate, ringer);
    let mut pace = Pace::new(dial, told);
    let halt = work(
        rt,
        alloc,
        &mut link,
        options.total,
        cap,
        runners,
        &gate,
        &mut pace,
    );
    let cause = cause_of(link.faults(), halt);
    Left {
        cause,
        link: Some(link),
    }
}

/// Works for a parent, which is a master or a foreman: connects to it, as the words say, runs what
/// it asks for by the runners, each behind the gate, until it says that the work is over, and
/// prints one line on why it ended.
pub fn worker_top<
    F: Commands,
    W: Threads + Wait + Sync,
    D: Dial<F>,
    R: Runner<F>,
    O: Sink,
    G: Gate,
>(
    rt: &W,
    alloc: Global,
    words: &[String],
    dial: &mut D,
    runners: &mut [R],
    gate: &G,
    out: &mut O,
) -> PeerEnded<D::Way>
    requires some { 0 < length runners.old }
    ensures status { result.status ≡ status_of result.cause }
    ensures ended { (cause : Cause) × EndsBy F.gives F.may_fail D.Way.tells
        (way_of D.Way.history D.Way.is_closed D.Way.count) R.tells R.sure runners.old
        (worker_options_of (map string_bytes words.now)) (D.count dial.old) (D.count dial.new)
        (sum_by R.count runners.old) (sum_by R.count runners.new) result.link cause
        × IsPrinted O.tells (O.count out.old) (O.count out.new) (O.bytes out.old) (O.bytes out.new)
        (line_of cause) cause result.cause }
{
    let Left { cause, link } = work_for::<F, W, D, R, G>(rt, alloc, words, dial, runners, gate);
    let cause = tell(cause, cause.worker_line(), out);
    PeerEnded {
        status: cause.status(),
        cause,
        link,
    }
}
