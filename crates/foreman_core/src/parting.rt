//! What becomes of workers and attempts where a link is lost.
ghost use Rattle.std.specs.Prelude.{◌≡◌, [], ◌∷◌, ◌++◌, filter, map, not, IfOk, OnOk};
ghost use Rattle.std.specs.List.{list_any};
ghost use Rattle.foreman_core.specs.Foremen.{could_hold, is_last, off_link, others};

use crate::copies::renumber;
use crate::links::{Below, Spot, Upstream};
use crate::room::{could_hold, is_placed_at};
use flow_types::{LinkNo, Memory, Task};
use std::alloc::Global;
use worker_cache::Cache;

// Whether some worker could hold the task.
fn any_holds(cache: &Cache, task: &Task, links: &[Below]) -> Result<bool, Memory>
    ensures { IfOk result (λ holds. holds
        ≡ list_any (could_hold cache.now.rows task.now) links.now) }
{
    for b in links {
        if could_hold(cache, task, b)? {
            return Ok(true);
        }
    }
    Ok(false)
}

// Whether some worker could hold the task, but that at the link.
fn any_other_holds(
    cache: &Cache,
    task: &Task,
    links: &[Below],
    link: LinkNo,
) -> Result<bool, Memory>
    ensures { IfOk result (λ holds. holds
        ≡ list_any (could_hold cache.now.rows task.now) (others link links.now)) }
{
    for b in links {
        if b.link.0 == link.0 {
            continue;
        }
        if could_hold(cache, task, b)? {
            return Ok(true);
        }
    }
    Ok(false)
}

// Whether some worker could hold the task, and none but that at the link.
fn is_last(cache: &Cache, links: &[Below], link: LinkNo, task: &Task) -> Result<bool, Memory>
    ensures { IfOk result (λ last. last
        ≡ is_last cache.now.rows links.now (others link links.now) task.now) }
{
    if !any_holds(cache, task, links)? {
        return Ok(false);
    }
    let other = any_other_holds(cache, task, links, link)?;
    Ok(!other)
}

// One more attempt, equal to this one but for where it is placed.
fn add(
    alloc: Global,
    copies: &mut Vec<Upstream>,
    u: &Upstream,
    spot: Option<Spot>,
) -> Result<(), Memory>
    ensures { OnOk result (copies.new.items
        ≡ copies.old.items ++ record { task = u.now.task; spot = spot } ∷ []) }
{
    let task = renumber(alloc, &u.task, u.task.attempt)?;
    match copies.push(Upstream { task, spot }) {
        Ok(()) => Ok(()),
        Err(_) => Err(Memory),
    }
}

/// The attempts that no worker could hold any more, once that at the link is gone.
pub(crate) fn gone_of(
    alloc: Global,
    cache: &Cache,
    links: &[Below],
    link: LinkNo,
    attempts: &[Upstream],
) -> Result<Vec<Upstream>, Memory>
    ensures { IfOk result (λ gone. gone.items
        ≡ filter (λ u. is_last cache.now.rows links.now (others link links.now) u.task)
        attempts.now) }
{
    let mut gone = Vec::new(alloc);
    for u in attempts {
        if is_last(cache, links, link, &u.task)? {
            add(alloc, &mut gone, u, u.spot)?;
        }
    }
    Ok(gone)
}

// Where an attempt is placed, but not at the link.
fn spot_off(link: LinkNo, u: &Upstream) -> Option<Spot>
    ensures { record { task = u.now.task; spot = result } ≡ off_link link u.now }
{
    if is_placed_at(u, link) { None } else { u.spot }
}

/// The other attempts, not placed any more where they were placed at the link.
pub(crate) fn stay_of(
    alloc: Global,
    cache: &Cache,
    links: &[Below],
    link: LinkNo,
    attempts: &[Upstream],
) -> Result<Vec<Upstream>, Memory>
    ensures { IfOk result (λ stay. stay.items ≡ map (off_link link)
        (filter (λ u. not (is_last cache.now.rows links.now (others link links.now) u.task))
        attempts.now)) }
{
    let mut stay = Vec::new(alloc);
    for u in attempts {
        if !is_last(cache, links, link, &u.task)? {
            add(alloc, &mut stay, u, spot_off(link, u))?;
        }
    }
    Ok(stay)
}
