//! The call of `makeflow` over runners that ask an archive first.
ghost use Rattle.std.specs.Prelude.{◌≡◌, ◌≤◌, ◌<◌, [], All, length};
ghost use Rattle.std.specs.Vec.{vec_capacity};
ghost use Rattle.flow_types.specs.declared.job.Job.{Job as JobValue};
ghost use Rattle.result_archive.specs.Moments.{IsTrusted};
ghost use Rattle.master_run.specs.Objects.{hall_words, link_words, site_words, stand};
ghost use Rattle.master_run.specs.Tops.{TopEnds};

use crate::plain::run_alone;
use crate::top::ArchiveEnded;
use flow_types::Name;
use links::Hall;
use master_run::{Ended, makeflow_top};
use outside::{Clock, Commands, Runner, Sink, Site};
use result_archive::{ArchiveRunner, OnSite, Trust, Vault, cover, uncover};
use std::alloc::Global;
use std::sync::{Mutex, Wait};
use std::thread::Threads;
use worker_pool::Gate;

// The runners over the archive, the call, and all back.
fn call_over<
    F: Commands,
    W: Threads + Wait + Sync,
    S: Site,
    H: Hall<F>,
    R: Runner<F>,
    C: Clock,
    O: Sink,
    G: Gate,
    A: Site,
    T: Trust + Send + Sync,
>(
    rt: &W,
    alloc: Global,
    words: &[String],
    env: &[(String, String)],
    site: S,
    vault: &Mutex<Vault<OnSite<A>, T>>,
    hall: &mut H,
    runners: Vec<R>,
    back: Vec<R>,
    gate: &G,
    clock: &C,
    out: &mut O,
) -> (Ended<S>, Vec<R>)
    requires some { 0 < length runners.items }
    requires empty { back.items ≡ [] }
    requires room { length runners.items ≤ vec_capacity back }
    requires gives { T.trusts → T.gives ≡ F.gives }
    requires tells { T.trusts → (job : JobValue) → All (λ r. R.tells r job) runners.items }
    ensures ends { TopEnds (record { gives = F.gives; may_fail = F.may_fail })
        (site_words S.tells S.files S.may_leave S.moment S.images_since S.count)
        (hall_words (link_words H.Way.tells H.Way.history H.Way.count H.Way.idle_count
        H.Way.is_closed) H.listens H.given H.got H.honest H.sure H.manned H.count H.idle_count)
        (record { sure = R.sure; count = R.count; failures = R.failures })
        (record { tells = O.tells; bytes = O.bytes; count = O.count })
        words.now env.now (stand site hall.old runners.items out.old)
        (stand result.0.site hall.new result.1.items out.new)
        result.0.cause result.0.records (λ job. T.trusts) result.0.status }
    ensures count { length result.1.items ≡ length runners.items }
{
    let mut runners = runners;
    let Ok(room) = Vec::with_capacity(alloc, runners.len()) else {
        return run_alone::<F, W, S, H, R, C, O, G>(
            rt, alloc, words, env, site, hall, runners, gate, clock, out,
        );
    };
    let mut over: Vec<ArchiveRunner<'_, F, W, R, A, T>> = room;
    let mut back = back;
    cover(rt, vault, &mut runners, &mut over);
    let ended = makeflow_top::<F, W, S, H, ArchiveRunner<'_, F, W, R, A, T>, C, O, G>(
        rt,
        alloc,
        words,
        env,
        site,
        hall,
        over.as_mut_slice(),
        gate,
        clock,
        out,
    );
    uncover(&mut over, &mut back);
    (ended, back)
}

/// The call over the archive in this folder of the store.
pub(crate) fn run_over<
    F: Commands,
    W: Threads + Wait + Sync,
    S: Site,
    H: Hall<F>,
    R: Runner<F>,
    C: Clock,
    O: Sink,
    G: Gate,
    A: Site,
    T: Trust + Send + Sync,
>(
    rt: &W,
    alloc: Global,
    words: &[String],
    env: &[(String, String)],
    site: S,
    store: A,
    folder: Name,
    hall: &mut H,
    runners: Vec<R>,
    back: Vec<R>,
    gate: &G,
    clock: &C,
    out: &mut O,
) -> ArchiveEnded<S, R, A>
    requires some { 0 < length runners.items }
    requires short { length folder ≤ 900 }
    requires empty { back.items ≡ [] }
    requires room { length runners.items ≤ vec_capacity back }
    requires trusted { T.trusts
        → IsTrusted A.tells T.gives T.born A.moment A.images_since folder store }
    requires place { T.trusts → folder ≡ T.dir }
    requires gives { T.trusts → T.gives ≡ F.gives }
    requires tells { T.trusts → (job : JobValue) → All (λ r. R.tells r job) runners.items }
    ensures ends { TopEnds (record { gives = F.gives; may_fail = F.may_fail })
        (site_words S.tells S.files S.may_leave S.moment S.images_since S.count)
        (hall_words (link_words H.Way.tells H.Way.history H.Way.count H.Way.idle_count
        H.Way.is_closed) H.listens H.given H.got H.honest H.sure H.manned H.count H.idle_count)
        (record { sure = R.sure; count = R.count; failures = R.failures })
        (record { tells = O.tells; bytes = O.bytes; count = O.count })
        words.now env.now (stand site hall.old runners.items out.old)
        (stand result.ended.site hall.new result.runners.items out.new)
        result.ended.cause result.ended.records (λ job. T.trusts) result.ended.status }
    ensures count { length result.runners.items ≡ length runners.items }
    ensures trusted { T.trusts
        → IsTrusted A.tells T.gives T.born A.moment A.images_since T.dir result.store }
{
    let vault = Mutex::new(Vault::<OnSite<A>, T>::new(OnSite { site: store }, folder));
    let (ended, runners) = call_over::<F, W, S, H, R, C, O, G, A, T>(
        rt, alloc, words, env, site, &vault, hall, runners, back, gate, clock, out,
    );
    let OnSite { site } = vault.into_inner().into_store();
    ArchiveEnded {
        ended,
        runners,
        store: site,
    }
}
