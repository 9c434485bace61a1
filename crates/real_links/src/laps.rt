//! How much time went by.
use std::rt::Clock;
use std::time::Instant;

/// Tells how many milliseconds went by since it last told, or else since it was made.
#[derive(Drop)]
pub(crate) struct Laps {
    start: Option<Instant>,
    // Of the time since the start, so many milliseconds are told.
    told: u64,
}

impl Laps {
    /// The time begins now.
    pub fn new<C: Clock>(clock: &C) -> Laps {
        Laps {
            start: Instant::now(clock).ok(),
            told: 0,
        }
    }

    /// The milliseconds since the last call. Where the clock can't be read it tells the others.
    pub fn tell<C: Clock>(&mut self, clock: &C, others: u64) -> u64 {
        let Some(all) = self.since_start(clock) else {
            self.told = self.told.saturating_add(others);
            return others;
        };
        let passed = all.saturating_sub(self.told);
        self.told = all;
        passed
    }

    fn since_start<C: Clock>(&self, clock: &C) -> Option<u64> {
        let start = self.start?;
        let time = start.elapsed(clock).ok()?;
        u64::try_from(time.as_millis()).ok()
    }
}
