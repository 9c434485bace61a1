//! Two jobs of a pool run at once.
use crate::jobs::two_jobs;
use flow_types::{Job, Outcome};
use mem_outside::{Blank, BlankRunner};
use std::rt::HostRuntime;
use std::sync::atomic::{AtomicBool, Ordering};
use std::test::Fail;
use std::thread;
use worker_pool::{Gate, run_pool};

// How often the first job looks for the second.
const LOOKS: u64 = 100_000_000;

/// Holds the first job until a second one has begun, or until it has looked so often.
#[derive(Drop)]
pub struct MeetGate {
    first: AtomicBool,
    second: AtomicBool,
    met: AtomicBool,
}

impl MeetGate {
    /// No job came yet.
    pub fn new() -> MeetGate {
        MeetGate {
            first: AtomicBool::new(false),
            second: AtomicBool::new(false),
            met: AtomicBool::new(false),
        }
    }

    /// Whether the second job had begun while the first was held.
    pub fn met(&self) -> bool {
        self.met.load(Ordering::SeqCst)
    }
}

impl Gate for MeetGate {
    fn pass(&self, _job: &Job) {
        if self.first.swap(true, Ordering::SeqCst) {
            self.second.store(true, Ordering::SeqCst);
            return;
        }
        for _ in 0..LOOKS {
            if self.second.load(Ordering::SeqCst) {
                self.met.store(true, Ordering::SeqCst);
                return;
            }
            thread::yield_now();
        }
    }
}

#[test]
fn two_jobs_run_at_once(rt: HostRuntime) -> Result<(), Fail> {
    let alloc = rt.alloc();
    let jobs = two_jobs(alloc)?;
    let gate = MeetGate::new();
    let mut runners = [BlankRunner, BlankRunner];
    let reports = run_pool::<Blank, HostRuntime, BlankRunner, MeetGate>(
        &rt,
        alloc,
        runners.as_mut_slice(),
        &gate,
        jobs,
    )?;
    assert!(rt; gate.met());
    assert_eq!(rt; reports.len(), 2);
    for report in reports.as_slice() {
        assert!(rt; matches!(report.outcome, Outcome::Success(_)));
    }
    Ok(())
}
