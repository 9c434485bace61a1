//! What another thread does meanwhile.
ghost use Rattle.std.specs.Prelude.{◌≡◌};

use crate::hearing::hears_last;
use crate::words::yes_or_no;
use links::{Hall, Ring};
use mem_outside::Blank;
use real_links::{TcpHall, TcpLink};
use std::alloc::Global;
use std::rt::{Clock, HostRuntime};
use std::thread;
use std::thread::{Threads, join_mut};
use std::time::Duration;

// A wait that is too long for a case, and the milliseconds until it is ended.
const LONG_MILLIS: u64 = 20_000;

const RING_MILLIS: u64 = 50;

/// Whether a link hears all of a message and then the end, while the hall that was handed its other
/// end parts.
pub fn hears_while_parting<T: Threads + Clock + Sync>(
    rt: &T,
    alloc: Global,
    hall: &mut TcpHall<'_, HostRuntime>,
    end: &mut Option<TcpLink>,
    message: &[u8],
) -> &'static str
    ensures { hall.new ≡ hall.old }
{
    let Some(link) = end.as_mut() else {
        return "no link";
    };
    let (_, heard) = join_mut(
        rt,
        &mut ||
            ensures same { hall.exit.now ≡ hall.entry.now }
        { hall.part() },
        &mut || hears_last(rt, alloc, link, message),
    );
    yes_or_no(heard)
}

/// The same, while the other end sends its last words itself.
pub fn hears_last_words<T: Threads + Clock + Sync>(
    rt: &T,
    alloc: Global,
    end: &mut Option<TcpLink>,
    other: &mut Option<TcpLink>,
    message: &[u8],
) -> &'static str {
    let Some(sender) = end.as_mut() else {
        return "no link";
    };
    let Some(link) = other.as_mut() else {
        return "no link";
    };
    let (_, heard) = thread::join(
        rt,
        || sender.send_last(rt),
        || hears_last(rt, alloc, link, message),
    );
    yes_or_no(heard)
}

/// Whether a ring from another thread ends a rest of a hall, and no earlier.
pub fn is_rung<T: Threads + Clock + Sync>(
    rt: &T,
    hall: &mut TcpHall<'_, HostRuntime>,
) -> &'static str
    ensures { hall.new ≡ hall.old }
{
    let Some(ringer) = hall.ringer() else {
        return "no ringer";
    };
    let (_, passed) = join_mut(
        rt,
        &mut || {
            thread::sleep(rt, Duration::from_millis(RING_MILLIS));
            ringer.ring();
        },
        &mut || -> u64
            ensures same { hall.exit.now ≡ hall.entry.now }
        { Hall::<Blank>::rest(hall, LONG_MILLIS) },
    );
    if passed < RING_MILLIS {
        return "early";
    }
    if passed < LONG_MILLIS { "rung" } else { "late" }
}
