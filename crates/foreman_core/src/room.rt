//! What fits where.
ghost use Rattle.std.specs.Prelude.{◌≡◌, ◌+◌, ◌<◌, length, IfOk};
ghost use Rattle.resource_pack.specs.Occupancy.{stated_row};
ghost use Rattle.foreman_core.specs.Foremen.{could_hold, fits_among, is_on, loads_among, row_of, task_bytes};
ghost use Rattle.foreman_core.specs.Rooms.{Occupies};
ghost use Rattle.worker_core.specs.Workers.{content_or_none, key_of};
ghost use Rattle.worker_cache.specs.Caches.{content_of};

use crate::links::{Below, Upstream};
use flow_types::{Key, LinkNo, Memory, Port, Task};
use resource_pack::{Occupied, Stated};
use worker_cache::Cache;

/// The most tasks that run on a link.
const MOST_TASKS: u32 = 64;

fn bytes_of(cache: &Cache, run: u64, input: &Port) -> u64
    ensures { result
        ≡ length (content_or_none (content_of (key_of run input.now.file) cache.now.rows)) }
{
    let file = input.file;
    match cache.get(Key { run, file }) {
        Some(content) => content.len() as u64,
        None => 0,
    }
}

/// The bytes of a task's inputs. More than can be counted are want of memory.
pub(crate) fn task_bytes(cache: &Cache, task: &Task) -> Result<u64, Memory>
    ensures { IfOk result (λ bytes. bytes ≡ task_bytes cache.now.rows task.now) }
{
    let mut total: u64 = 0;
    for input in task.inputs.as_slice() {
        match total.checked_add(bytes_of(cache, task.run, input)) {
            Some(more) => total = more,
            None => return Err(Memory),
        }
    }
    Ok(total)
}

pub(crate) fn is_placed_at(u: &Upstream, link: LinkNo) -> bool
    ensures { result ≡ is_on link u.now }
{
    match u.spot {
        Some(spot) => spot.link.0 == link.0,
        None => false,
    }
}

// What the attempts take that are placed with a worker, or nothing where as many are as may be.
fn occupied_at(cache: &Cache, attempts: &[Upstream], b: &Below) -> Result<Option<Occupied>, Memory>
    ensures { IfOk result (λ occupied. Occupies b.now.link.0 b.now.total
        (loads_among cache.now.rows b.now.link attempts.now) occupied) }
{
    let mut occupied = Occupied::nothing();
    let mut tasks: u32 = 0;
    for u in attempts {
        if !is_placed_at(u, b.link) {
            continue;
        }
        if tasks == MOST_TASKS {
            return Ok(None);
        }
        let bytes = task_bytes(cache, &u.task)?;
        occupied.add(b.link, b.total, u.task.needs, bytes);
        tasks += 1;
    }
    Ok(Some(occupied))
}

fn stated(b: &Below) -> Stated
    ensures { stated_row result ≡ row_of b.now }
{
    Stated {
        total: b.total,
        largest: b.largest,
        cache: Some(b.cache),
    }
}

/// Whether a task fits a worker beside those of the attempts that are placed there.
pub(crate) fn fits(
    cache: &Cache,
    attempts: &[Upstream],
    task: &Task,
    b: &Below,
) -> Result<bool, Memory>
    ensures { IfOk result (λ fits. fits ≡ fits_among cache.now.rows attempts.now task.now b.now) }
{
    let bytes = task_bytes(cache, task)?;
    match occupied_at(cache, attempts, b)? {
        Some(occupied) => Ok(occupied.has_room(b.link, stated(b), task.needs, bytes)),
        None => Ok(false),
    }
}

/// Whether a worker could hold a task.
pub(crate) fn could_hold(cache: &Cache, task: &Task, b: &Below) -> Result<bool, Memory>
    ensures { IfOk result (λ holds. holds ≡ could_hold cache.now.rows task.now b.now) }
{
    let bytes = task_bytes(cache, task)?;
    Ok(Occupied::nothing().has_room(b.link, stated(b), task.needs, bytes))
}
