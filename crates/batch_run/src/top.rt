//! The top call.
ghost use Rattle.std.specs.Prelude.{◌≡◌, IfErr, IfOk, map, string_bytes};
ghost use Rattle.batch_run.specs.Batch.{asked_by, one_core, printed, status_of};
ghost use Rattle.batch_run.specs.Ends.{Ended, Ends, EndsWell, IsBrought, IsNotIdle, IsRefusal, Prints, Stops, WasIdle, most_idles};

use crate::cause::BatchCause;
use crate::lines::read_batch;
use crate::running::listen_and_run;
use crate::words::read_words;
use links::{Hall, Link};
use outside::{Commands, Fault, Sink, Site};
use std::alloc::Global;
use std::sync::Wait;

// Prints the lines.
fn print<O: Sink>(out: &mut O, text: &str) -> BatchCause
    ensures { Prints O.tells (O.count out.old) (O.count out.new) (O.bytes out.old)
        (O.bytes out.new) text.now result }
{
    let before = out.faults();
    match out.write(text.as_bytes()) {
        Ok(()) => BatchCause::Done,
        Err(Fault::Failed) => BatchCause::SinkFault {
            before,
            after: out.faults(),
        },
        Err(Fault::Memory) => BatchCause::Memory,
    }
}

// Does the commands, and answers what is to be printed of them.
fn run_batch<F: Commands, W: Wait, S: Site, H: Hall<F>>(
    rt: &W,
    alloc: Global,
    words: &[String],
    site: &mut S,
    hall: &mut H,
) -> Result<String, BatchCause>
    ensures ended { IfOk result (λ text. (e : Ended (IsBrought H.Way.tells
        (H.Way.tells × H.honest hall.old) F.gives F.may_fail H.Way.history) S.tells
        (record {
          asked = asked_by (map string_bytes words.now);
          files = S.files site.old;
          site_before = S.count site.old;
          site_now = S.count site.new;
          hall_before = H.count hall.old;
          hall_now = H.count hall.new;
        })) × (string_bytes text ≡ printed e.done)) }
    ensures stops { IfErr result (Stops S.tells
        (WasIdle H.Way.idle_count (H.idle_count hall.old) (H.idle_count hall.new) most_idles)
        (record {
          asked = asked_by (map string_bytes words.now);
          files = S.files site.old;
          site_before = S.count site.old;
          site_now = S.count site.new;
          hall_before = H.count hall.old;
          hall_now = H.count hall.new;
        })) }
    ensures unheard { IfErr result (λ cause. IsRefusal cause → hall.new ≡ hall.old) }
    ensures manned { H.manned hall.old one_core → IsNotIdle result }
    ensures files { S.tells → S.files site.new ≡ S.files site.old }
{
    let ask = match read_words(alloc, words) {
        Ok(ask) => ask,
        Err(cause) => return Err(cause),
    };
    let tasks = match read_batch(alloc, site, &ask.file) {
        Ok(tasks) => tasks,
        Err(cause) => return Err(cause),
    };
    listen_and_run::<F, W, H>(rt, alloc, hall, ask.port, tasks)
}

// Does the commands and prints their lines.
fn run<F: Commands, W: Wait, S: Site, H: Hall<F>, O: Sink>(
    rt: &W,
    alloc: Global,
    words: &[String],
    site: &mut S,
    hall: &mut H,
    out: &mut O,
) -> BatchCause
    ensures ends { Ends (IsBrought H.Way.tells (H.Way.tells × H.honest hall.old) F.gives F.may_fail
        H.Way.history) S.tells O.tells
        (WasIdle H.Way.idle_count (H.idle_count hall.old) (H.idle_count hall.new) most_idles)
        (record {
          asked = asked_by (map string_bytes words.now);
          files = S.files site.old;
          site_before = S.count site.old;
          site_now = S.count site.new;
          hall_before = H.count hall.old;
          hall_now = H.count hall.new;
        })
        (O.count out.old) (O.count out.new) (O.bytes out.old) (O.bytes out.new) result }
    ensures unheard { IsRefusal result → hall.new ≡ hall.old }
    ensures manned { H.manned hall.old one_core → S.count site.new ≡ S.count site.old
        → H.count hall.new ≡ H.count hall.old → O.count out.new ≡ O.count out.old
        → EndsWell result }
    ensures files { S.tells → S.files site.new ≡ S.files site.old }
{
    match run_batch::<F, W, S, H>(rt, alloc, words, site, hall) {
        Ok(text) => print(out, text.as_str()),
        Err(cause) => cause,
    }
}

/// Does the commands of a file by the workers that come to a port, and prints a line for each in the
/// order of the file: its number and the bytes of `out`, or that it failed. Nothing is printed where
/// the status isn't 0, but that a sink that fails may have taken a first part.
pub fn submit_top<F: Commands, W: Wait, S: Site, H: Hall<F>, O: Sink>(
    rt: &W,
    alloc: Global,
    words: &[String],
    site: &mut S,
    hall: &mut H,
    out: &mut O,
) -> (u8, BatchCause)
    ensures status { result.0 ≡ status_of result.1 }
    ensures ends { Ends (IsBrought H.Way.tells (H.Way.tells × H.honest hall.old) F.gives F.may_fail
        H.Way.history) S.tells O.tells
        (WasIdle H.Way.idle_count (H.idle_count hall.old) (H.idle_count hall.new) most_idles)
        (record {
          asked = asked_by (map string_bytes words.now);
          files = S.files site.old;
          site_before = S.count site.old;
          site_now = S.count site.new;
          hall_before = H.count hall.old;
          hall_now = H.count hall.new;
        })
        (O.count out.old) (O.count out.new) (O.bytes out.old) (O.bytes out.new) result.1 }
    ensures unheard { IsRefusal result.1 → hall.new ≡ hall.old }
    ensures manned { H.manned hall.old one_core → S.count site.new ≡ S.count site.old
        → H.count hall.new ≡ H.count hall.old → O.count out.new ≡ O.count out.old
        → EndsWell result.1 }
    ensures files { S.tells → S.files site.new ≡ S.files site.old }
{
    let cause = run::<F, W, S, H, O>(rt, alloc, words, site, hall, out);
    (cause.status(), cause)
}
