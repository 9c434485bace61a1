//! The call of `makeflow` over runners that are given back.
ghost use Rattle.std.specs.Prelude.{◌≡◌, ◌<◌, length};
ghost use Rattle.worker_pool.specs.Crews.{AllTell};
ghost use Rattle.master_run.specs.Objects.{hall_words, link_words, site_words, stand};
ghost use Rattle.master_run.specs.Tops.{TopEnds};

use links::Hall;
use master_run::{Ended, makeflow_top};
use outside::{Clock, Commands, Runner, Sink, Site};
use std::alloc::Global;
use std::sync::Wait;
use std::thread::Threads;
use worker_pool::Gate;

/// Does what `makeflow` does over these runners, and gives them back.
pub(crate) fn run_alone<
    F: Commands,
    W: Threads + Wait + Sync,
    S: Site,
    H: Hall<F>,
    R: Runner<F>,
    C: Clock,
    O: Sink,
    G: Gate,
>(
    rt: &W,
    alloc: Global,
    words: &[String],
    env: &[(String, String)],
    site: S,
    hall: &mut H,
    runners: Vec<R>,
    gate: &G,
    clock: &C,
    out: &mut O,
) -> (Ended<S>, Vec<R>)
    requires some { 0 < length runners.items }
    ensures ends { TopEnds (record { gives = F.gives; may_fail = F.may_fail })
        (site_words S.tells S.files S.may_leave S.moment S.images_since S.count)
        (hall_words (link_words H.Way.tells H.Way.history H.Way.count H.Way.idle_count
        H.Way.is_closed) H.listens H.given H.got H.honest H.sure H.manned H.count H.idle_count)
        (record { sure = R.sure; count = R.count; failures = R.failures })
        (record { tells = O.tells; bytes = O.bytes; count = O.count })
        words.now env.now (stand site hall.old runners.items out.old)
        (stand result.0.site hall.new result.1.items out.new)
        result.0.cause result.0.records (AllTell R.tells runners.items) result.0.status }
    ensures count { length result.1.items ≡ length runners.items }
{
    let mut runners = runners;
    let ended = makeflow_top::<F, W, S, H, R, C, O, G>(
        rt,
        alloc,
        words,
        env,
        site,
        hall,
        runners.as_mut_slice(),
        gate,
        clock,
        out,
    );
    (ended, runners)
}
