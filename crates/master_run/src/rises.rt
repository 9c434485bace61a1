//! How often objects have failed, before a call and after it.
ghost use Rattle.std.specs.Prelude.{◌≡◌, ◌<◌, IfOk, length, map, sum};
ghost use Rattle.master_run.specs.Ends.{OneRose};

use flow_types::{Memory, Rows};
use outside::{Commands, Runner};
use std::alloc::Global;

/// How often the calls of an object had failed, and have by now.
#[derive(Clone, Copy, Debug, PartialEq, Eq)]
pub struct Rise {
    pub before: u64,
    pub after: u64,
}

/// How often each of the runners has failed so far.
pub fn counts_of<F: Commands, R: Runner<F>>(
    alloc: Global,
    runners: &[R],
) -> Result<Rows<u64>, Memory>
    ensures { IfOk result (λ counts. counts ≡ map R.count runners.now) }
{
    let mut counts = Rows::new(alloc);
    for runner in runners {
        if counts.push(runner.faults()).is_err() {
            return Err(Memory);
        }
    }
    Ok(counts)
}

/// Both counts of the first of the runners that has failed since. Where they failed so often then,
/// and more often in all by now, there is one.
pub fn first_rise<F: Commands, R: Runner<F>>(before: &[u64], runners: &[R]) -> Rise
    requires { length before.now ≡ length runners.now }
    ensures { sum before.now < sum (map R.count runners.now)
        → OneRose result.before result.after before.now (map R.count runners.now) }
{
    for (at, runner) in runners.iter().enumerate() {
        let after = runner.faults();
        if before[at] < after {
            return Rise {
                before: before[at],
                after,
            };
        }
    }
    Rise {
        before: 0,
        after: 0,
    }
}
