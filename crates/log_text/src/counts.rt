//! How many rules are in each state.
ghost use Rattle.std.specs.Prelude.{◌≡◌, ◌<◌, ◌≤◌, ◌+◌, ◌^◌, if◌then◌else◌};
ghost use Rattle.run_history.specs.Storage.{is_complete_state, is_failed_state};
ghost use Rattle.run_history.specs.Storage.{is_running_state, is_waiting_state};

use run_history::RuleState;

/// How many rules are in each state.
#[derive(Clone, Copy)]
pub(crate) struct Counts {
    pub(crate) waiting: u32,
    pub(crate) running: u32,
    pub(crate) complete: u32,
    pub(crate) failed: u32,
}

// The count where a rule may leave it and one may enter it.
fn moved(count: u32, leaves: bool, enters: bool) -> u32
    requires some { (if leaves then 1 else 0) ≤ count }
    requires few { count < 2 ^ 31 }
    ensures { result + (if leaves then 1 else 0) ≡ count + (if enters then 1 else 0) }
{
    count - u32::from(leaves) + u32::from(enters)
}

fn is_waiting(state: RuleState) -> bool
    ensures { result ≡ is_waiting_state state }
{
    matches!(state, RuleState::Waiting)
}

fn is_running(state: RuleState) -> bool
    ensures { result ≡ is_running_state state }
{
    matches!(state, RuleState::Running(_))
}

fn is_complete(state: RuleState) -> bool
    ensures { result ≡ is_complete_state state }
{
    matches!(state, RuleState::Complete)
}

/// The rule has failed.
pub(crate) fn is_failed(state: RuleState) -> bool
    ensures { result ≡ is_failed_state state }
{
    matches!(state, RuleState::Failed)
}

impl Counts {
    /// The counts where one rule went from one state into another.
    pub(crate) fn moved(self, from: RuleState, to: RuleState) -> Counts
        requires few_waiting { self.waiting < 2 ^ 31 }
        requires few_running { self.running < 2 ^ 31 }
        requires few_complete { self.complete < 2 ^ 31 }
        requires few_failed { self.failed < 2 ^ 31 }
        requires waits { (if is_waiting_state from then 1 else 0) ≤ self.waiting }
        requires runs { (if is_running_state from then 1 else 0) ≤ self.running }
        requires is_done { (if is_complete_state from then 1 else 0) ≤ self.complete }
        requires fails { (if is_failed_state from then 1 else 0) ≤ self.failed }
        ensures waiting { result.waiting + (if is_waiting_state from then 1 else 0)
            ≡ self.waiting + (if is_waiting_state to then 1 else 0) }
        ensures running { result.running + (if is_running_state from then 1 else 0)
            ≡ self.running + (if is_running_state to then 1 else 0) }
        ensures complete { result.complete + (if is_complete_state from then 1 else 0)
            ≡ self.complete + (if is_complete_state to then 1 else 0) }
        ensures failed { result.failed + (if is_failed_state from then 1 else 0)
            ≡ self.failed + (if is_failed_state to then 1 else 0) }
    {
        Counts {
            waiting: moved(self.waiting, is_waiting(from), is_waiting(to)),
            running: moved(self.running, is_running(from), is_running(to)),
            complete: moved(self.complete, is_complete(from), is_complete(to)),
            failed: moved(self.failed, is_failed(from), is_failed(to)),
        }
    }
}
