//! The clock of this machine.
use outside::Clock;
use std::time;

/// Tells the microseconds since the beginning of 1970, and 0 where the system has no such time.
#[derive(Drop)]
pub struct SystemClock<'a, R> {
    rt: &'a R,
}

impl<'a, R: time::Clock> SystemClock<'a, R> {
    /// The clock that the system shows.
    pub fn new(rt: &'a R) -> Self {
        SystemClock { rt }
    }
}

impl<'a, R: time::Clock + Sync> Clock for SystemClock<'a, R> {
    fn now(&self) -> u64 {
        match self.rt.since_1970() {
            Ok(time) => u64::try_from(time.as_micros()).unwrap_or(0),
            Err(_) => 0,
        }
    }
}
