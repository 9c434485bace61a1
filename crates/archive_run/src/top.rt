//! The top call.
ghost use Rattle.std.specs.Prelude.{◌≡◌, ◌≤◌, ◌<◌, [], List, ℕ, Some, None, drop, length, take};
ghost use Rattle.worker_pool.specs.Crews.{AllTell};
ghost use Rattle.outside.specs.Files.{Files};
ghost use Rattle.result_archive.specs.Entries.{IsFaithful};
ghost use Rattle.master_run.specs.Objects.{hall_words, link_words, site_words, stand};
ghost use Rattle.master_run.specs.Tops.{TopEnds};
ghost use Rattle.archive_run.specs.Archives.{CanTrust, folder_of};

use crate::folder::{flow_words, folder_of, program_of};
use crate::over::run_over;
use crate::plain::run_alone;
use flow_types::{Memory, Name, Rows};
use links::Hall;
use master_run::Ended;
use outside::{Clock, Commands, Runner, Sink, Site};
use report::Cause;
use std::alloc::Global;
use std::marker::Brand;
use std::sync::Wait;
use std::thread::Threads;
use worker_pool::Gate;

/// How a call over an archive ended.
#[derive(Drop)]
pub struct ArchiveEnded<S: Site, R, A: Site> {
    /// How the flow's call ended.
    pub ended: Ended<S>,
    /// The runners, in their order.
    pub runners: Vec<R>,
    /// The store of the archive, as the call left it.
    pub store: A,
}

// The call without an archive.
fn run_plain<
    F: Commands,
    W: Threads + Wait + Sync,
    S: Site,
    H: Hall<F>,
    R: Runner<F>,
    C: Clock,
    O: Sink,
    G: Gate,
    A: Site,
>(
    rt: &W,
    alloc: Global,
    words: &[String],
    env: &[(String, String)],
    site: S,
    store: A,
    hall: &mut H,
    runners: Vec<R>,
    gate: &G,
    clock: &C,
    out: &mut O,
) -> ArchiveEnded<S, R, A>
    requires some { 0 < length runners.items }
    ensures ends { TopEnds (record { gives = F.gives; may_fail = F.may_fail })
        (site_words S.tells S.files S.may_leave S.moment S.images_since S.count)
        (hall_words (link_words H.Way.tells H.Way.history H.Way.count H.Way.idle_count
        H.Way.is_closed) H.listens H.given H.got H.honest H.sure H.manned H.count H.idle_count)
        (record { sure = R.sure; count = R.count; failures = R.failures })
        (record { tells = O.tells; bytes = O.bytes; count = O.count })
        words.now env.now (stand site hall.old runners.items out.old)
        (stand result.ended.site hall.new result.runners.items out.new)
        result.ended.cause result.ended.records
        (AllTell R.tells runners.items) result.ended.status }
    ensures count { length result.runners.items ≡ length runners.items }
    ensures store { result.store ≡ store }
{
    let (ended, runners) = run_alone::<F, W, S, H, R, C, O, G>(
        rt, alloc, words, env, site, hall, runners, gate, clock, out,
    );
    ArchiveEnded {
        ended,
        runners,
        store,
    }
}

// The call with an archive, or without one where there is no room for the way back.
fn run_with<
    F: Commands,
    W: Threads + Wait + Sync,
    S: Site,
    H: Hall<F>,
    R: Runner<F>,
    C: Clock,
    O: Sink,
    G: Gate,
    A: Site,
>(
    rt: &W,
    alloc: Global,
    words: &[String],
    env: &[(String, String)],
    site: S,
    store: A,
    folder: Name,
    hall: &mut H,
    runners: Vec<R>,
    gate: &G,
    clock: &C,
    out: &mut O,
) -> ArchiveEnded<S, R, A>
    requires some { 0 < length runners.items }
    requires short { length folder ≤ 900 }
    ensures ends { TopEnds (record { gives = F.gives; may_fail = F.may_fail })
        (site_words S.tells S.files S.may_leave S.moment S.images_since S.count)
        (hall_words (link_words H.Way.tells H.Way.history H.Way.count H.Way.idle_count
        H.Way.is_closed) H.listens H.given H.got H.honest H.sure H.manned H.count H.idle_count)
        (record { sure = R.sure; count = R.count; failures = R.failures })
        (record { tells = O.tells; bytes = O.bytes; count = O.count })
        words.now env.now (stand site hall.old runners.items out.old)
        (stand result.ended.site hall.new result.runners.items out.new)
        result.ended.cause result.ended.records
        (λ job. CanTrust A.tells A.may_leave F.gives R.tells folder store runners.items)
        result.ended.status }
    ensures count { length result.runners.items ≡ length runners.items }
    ensures faithful { CanTrust A.tells A.may_leave F.gives R.tells folder store runners.items
        → (image : Files) → A.images_since result.store (A.moment store) image
        → IsFaithful F.gives folder image }
{
    match Vec::with_capacity(alloc, runners.len()) {
        Ok(back) => run_over::<F, W, S, H, R, C, O, G, A, Brand>(
            rt, alloc, words, env, site, store, folder, hall, runners, back, gate, clock, out,
        ),
        Err(_) => run_plain::<F, W, S, H, R, C, O, G, A>(
            rt, alloc, words, env, site, store, hall, runners, gate, clock, out,
        ),
    }
}

// The end of a call for whose folder's name there is no memory: nothing was done.
fn unbegun<S: Site, R, A: Site>(
    alloc: Global,
    site: S,
    store: A,
    runners: Vec<R>,
) -> ArchiveEnded<S, R, A>
    ensures status { result.ended.status ≡ 8 }
    ensures cause { result.ended.cause ≡ Cause.Memory }
    ensures records { result.ended.records ≡ [] }
    ensures site { result.ended.site ≡ site }
    ensures store { result.store ≡ store }
    ensures runners { result.runners.items ≡ runners.items }
{
    let cause = Cause::Memory;
    let ended = Ended {
        status: cause.status(),
        cause,
        site,
        records: Rows::new(alloc),
    };
    ArchiveEnded {
        ended,
        runners,
        store,
    }
}

/// Does what `makeflow` does for the words behind the second one, which names the folder of the
/// archive. A job that the archive has is answered from it, and what succeeds is kept there.
///
/// Where the site and the store are one folder, neither FILE, the log nor a file of the flow may be
/// that folder or lie under it: then the one would change the other's files.
pub fn archive_top<
    F: Commands,
    W: Threads + Wait + Sync,
    S: Site,
    H: Hall<F>,
    R: Runner<F>,
    C: Clock,
    O: Sink,
    G: Gate,
    A: Site,
>(
    rt: &W,
    alloc: Global,
    words: &[String],
    env: &[(String, String)],
    site: S,
    store: A,
    hall: &mut H,
    runners: Vec<R>,
    gate: &G,
    clock: &C,
    out: &mut O,
) -> ArchiveEnded<S, R, A>
    requires some { 0 < length runners.items }

    // All that a call of `makeflow` promises of the words behind the folder's name. Of each job the
    // runners tell where the archive and they can be trusted.
    ensures ends { (folder : List ℕ) → folder_of words.now ≡ Some folder
        → TopEnds (record { gives = F.gives; may_fail = F.may_fail })
        (site_words S.tells S.files S.may_leave S.moment S.images_since S.count)
        (hall_words (link_words H.Way.tells H.Way.history H.Way.count H.Way.idle_count
        H.Way.is_closed) H.listens H.given H.got H.honest H.sure H.manned H.count H.idle_count)
        (record { sure = R.sure; count = R.count; failures = R.failures })
        (record { tells = O.tells; bytes = O.bytes; count = O.count })
        (drop 1 words.now) env.now (stand site hall.old runners.items out.old)
        (stand result.ended.site hall.new result.runners.items out.new)
        result.ended.cause result.ended.records
        (λ job. CanTrust A.tells A.may_leave F.gives R.tells folder store runners.items)
        result.ended.status }

    // Without a folder's name the call is that of `makeflow` without words, which is refused, and
    // the archive isn't touched.
    ensures no_folder { folder_of words.now ≡ None
        → TopEnds (record { gives = F.gives; may_fail = F.may_fail })
        (site_words S.tells S.files S.may_leave S.moment S.images_since S.count)
        (hall_words (link_words H.Way.tells H.Way.history H.Way.count H.Way.idle_count
        H.Way.is_closed) H.listens H.given H.got H.honest H.sure H.manned H.count H.idle_count)
        (record { sure = R.sure; count = R.count; failures = R.failures })
        (record { tells = O.tells; bytes = O.bytes; count = O.count })
        (take 1 words.now) env.now (stand site hall.old runners.items out.old)
        (stand result.ended.site hall.new result.runners.items out.new)
        result.ended.cause result.ended.records
        (AllTell R.tells runners.items) result.ended.status }
    ensures untouched { folder_of words.now ≡ None → result.store ≡ store }

    // The runners come back.
    ensures count { length result.runners.items ≡ length runners.items }

    // Where they can, the store is faithful in every image that a crash might have left at any
    // moment since the entry, and so in each that one may leave now.
    ensures faithful { (folder : List ℕ) → folder_of words.now ≡ Some folder
        → CanTrust A.tells A.may_leave F.gives R.tells folder store runners.items
        → (image : Files) → A.images_since result.store (A.moment store) image
        → IsFaithful F.gives folder image }
{
    match folder_of(alloc, words) {
        Ok(Some(folder)) => run_with::<F, W, S, H, R, C, O, G, A>(
            rt,
            alloc,
            flow_words(words),
            env,
            site,
            store,
            folder,
            hall,
            runners,
            gate,
            clock,
            out,
        ),
        Ok(None) => run_plain::<F, W, S, H, R, C, O, G, A>(
            rt,
            alloc,
            program_of(words),
            env,
            site,
            store,
            hall,
            runners,
            gate,
            clock,
            out,
        ),
        Err(Memory) => unbegun(alloc, site, store, runners),
    }
}
