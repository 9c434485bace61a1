//! When a worker rests, and when a second has gone by.
use links::Dial;
use outside::Commands;

// What a worker does once a second it does again after so many milliseconds.
const TURN_MILLIS: u64 = 1_000;

// How long it rests while jobs are out, where nothing ends its rests as they end.
const UNTOLD_MILLIS: u64 = 5;

/// How a worker waits: for its link and for its jobs' ends at once, by the dial that made the link.
#[derive(Drop)]
pub(crate) struct Pace<'a, D> {
    dial: &'a mut D,
    // The end of a job ends its rests.
    told: bool,
    // How many milliseconds went by since the last turn.
    passed: u64,
}

impl<'a, D> Pace<'a, D> {
    /// It waits by this dial, and is told of the ends of jobs or not.
    pub fn new(dial: &'a mut D, told: bool) -> Pace<'a, D> {
        Pace {
            dial,
            told,
            passed: 0,
        }
    }

    /// Rests until there is news or the next turn has come. So many jobs are out.
    pub fn rest<F: Commands>(&mut self, out: usize)
    where
        D: Dial<F>,
    {
        let mut millis = TURN_MILLIS.saturating_sub(self.passed);
        if out > 0 && !self.told {
            millis = millis.min(UNTOLD_MILLIS);
        }
        self.passed = self.passed.saturating_add(self.dial.rest(millis));
    }

    /// Whether a turn has come: a second went by since it last said so.
    pub fn has_turn(&mut self) -> bool {
        if self.passed < TURN_MILLIS {
            return false;
        }
        self.passed = 0;
        true
    }
}
