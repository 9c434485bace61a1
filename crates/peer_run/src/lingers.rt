//! A runner that tells late of commands that a signal ended.

use flow_types::{Failure, Job, Outcome};
use outside::{Commands, Fault, Runner};
use std::alloc::Global;
use std::sync::Wait;
use std::thread::Parker;
use std::time::Duration;

// Above this a status has the number of the signal that ended the command.
const SIGNALLED: i32 = 128;

// How long the end of a command by a signal is kept back.
const LINGER_MILLIS: u64 = 1_000;

/// Runs each job by another runner. Where a signal ended the command it answers a second later: a
/// batch system ends a worker and its commands together, and a worker that is ended too tells its
/// parent nothing of them, so that they are run elsewhere.
#[derive(Drop)]
pub struct Lingers<'a, W, R> {
    rt: &'a W,
    runner: R,
}

impl<'a, W, R> Lingers<'a, W, R> {
    /// It runs its jobs by this runner.
    pub fn new(rt: &'a W, runner: R) -> Lingers<'a, W, R> {
        Lingers { rt, runner }
    }
}

// Whether a signal ended the command.
fn is_signalled(ended: &Result<Outcome, Fault>) -> bool {
    match ended {
        Ok(Outcome::Failed(Failure::Status(status))) => *status > SIGNALLED,
        _ => false,
    }
}

impl<'a, F: Commands, W: Wait + Sync, R: Runner<F>> Runner<F> for Lingers<'a, W, R> {
    ghost tells = { λ lingers job. R.tells lingers.runner job };

    ghost sure = { λ lingers. R.sure lingers.runner };

    ghost count = { λ lingers. R.count lingers.runner };

    ghost failures = { λ lingers. R.failures lingers.runner };

    fn run(&mut self, alloc: Global, job: &Job) -> Result<Outcome, Fault> {
        let ended = self.runner.run(alloc, job);
        if is_signalled(&ended) {
            Parker::new().park_timeout(self.rt, Duration::from_millis(LINGER_MILLIS));
        }
        ended
    }

    fn faults(&self) -> u64 {
        self.runner.faults()
    }
}
