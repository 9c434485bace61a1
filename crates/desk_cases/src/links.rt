//! Links: `join CORES CACHE`, `totals LINK CORES CACHE`, `leave LINK`, `lives LINK` and `busy LINK`. A
//! link is one place, and has 4,096 megabytes of memory and of disk beside its cores.
use crate::words::{first, number, place, said, small, told, whether};
use desk_bench::Bench;
use flow_types::{Amounts, LinkNo};
use run_history::JoinRefused;
use std::alloc::{AllocError, Global};

// The amounts and the cache that a line says.
fn stated(line: &str) -> Option<(Amounts, u64)> {
    let (cores, cache) = first(line);
    Some((place(small(cores)?), number(cache)?))
}

fn join(alloc: Global, bench: &mut Bench, line: &str) -> Result<String, AllocError> {
    let Some((total, cache)) = stated(line) else {
        return said(alloc, "no number");
    };
    match bench.join(total, cache) {
        Ok(link) => format!(in alloc; "link {}", link.0),
        Err(why) => told(alloc, &why),
    }
}

fn shown_change(
    alloc: Global,
    reply: Option<Result<(), JoinRefused>>,
) -> Result<String, AllocError> {
    match reply {
        Some(Ok(())) => said(alloc, "changed"),
        Some(Err(why)) => told(alloc, &why),
        None => said(alloc, "no such link"),
    }
}

fn totals(
    alloc: Global,
    bench: &mut Bench,
    link: LinkNo,
    line: &str,
) -> Result<String, AllocError> {
    match stated(line) {
        Some((total, cache)) => shown_change(alloc, bench.totals(link, total, cache)),
        None => said(alloc, "no number"),
    }
}

fn leave(alloc: Global, bench: &mut Bench, link: LinkNo) -> Result<String, AllocError> {
    let left = bench.leave(link);
    said(alloc, if left { "left" } else { "may not leave" })
}

// Does what a line says with a link that is there.
fn of_one(alloc: Global, bench: &mut Bench, kind: &str, line: &str) -> Result<String, AllocError> {
    let (word, rest) = first(line);
    let Some(link) = small(word) else {
        return said(alloc, "no number");
    };
    let link = LinkNo(link);
    match kind {
        "totals" => totals(alloc, bench, link, rest),
        "leave" => leave(alloc, bench, link),
        "busy" => whether(alloc, bench.busy(link)),
        _ => whether(alloc, bench.lives(link)),
    }
}

/// Does what a line of this kind says with a link.
pub fn of_link(
    alloc: Global,
    bench: &mut Bench,
    kind: &str,
    line: &str,
) -> Result<String, AllocError> {
    match kind {
        "join" => join(alloc, bench, line),
        _ => of_one(alloc, bench, kind, line),
    }
}
