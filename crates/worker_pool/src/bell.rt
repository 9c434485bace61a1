//! Where threads wait for one another.
use std::sync::Wait;
use std::sync::atomic::{AtomicBool, AtomicU64, Ordering};
use std::time::Duration;

/// Tells of moves, and of the end.
#[derive(Drop)]
pub struct Bell {
    moves: AtomicU64,
    closed: AtomicBool,
}

impl Bell {
    /// A bell that told of nothing yet.
    pub fn new() -> Bell {
        Bell {
            moves: AtomicU64::new(0),
            closed: AtomicBool::new(false),
        }
    }

    /// Tells of a move.
    pub fn tell(&self) {
        self.moves.fetch_add(1, Ordering::SeqCst);
        self.moves.wake_all();
    }

    /// Ends all waits, also those to come.
    pub fn close(&self) {
        self.closed.store(true, Ordering::SeqCst);
        self.tell();
    }

    /// How many moves there were, or None after the end.
    pub fn seen(&self) -> Option<u64> {
        let moves = self.moves.load(Ordering::SeqCst);
        if self.closed.load(Ordering::SeqCst) {
            return None;
        }
        Some(moves)
    }

    /// Waits for a move since then, or for the end.
    pub fn wait_past<W: Wait>(&self, rt: &W, seen: u64) {
        for _ in rt.forever() {
            if self.moves.load(Ordering::SeqCst) != seen {
                break;
            }
            self.moves.park(rt, low_half(seen));
        }
    }

    /// Waits as `wait_past` does, but no longer than some milliseconds.
    pub fn wait_briefly<W: Wait>(&self, rt: &W, seen: u64) {
        let brief = Duration::from_millis(5);
        self.moves.park_timeout(rt, low_half(seen), brief);
    }
}

// What a thread that parks compares.
fn low_half(count: u64) -> u32 {
    (count % (1 << 32)) as u32
}
