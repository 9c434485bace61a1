//! Laws of the walk, each the contract of a function that does nothing.
ghost use Rattle.safe_walks.specs.Laws.{AdmittedStartsKeepWalk, CallStaysSafe, ClaimMayGo};
ghost use Rattle.safe_walks.specs.Laws.{FirstMayStart, OneWalkAnswers, PeakIsWalked};
ghost use Rattle.safe_walks.specs.Laws.{RecordsKeepWalk, RunStaysSafe, SafeAdmitsOne};
ghost use Rattle.safe_walks.specs.Laws.{SafeRunHasRoom, SafeRunHasRule, WalkStaysUnderMore};

/// A walk that stays within a limit stays within a greater one.
pub fn walk_stays_under_more()
    ensures { WalkStaysUnderMore }
{}

/// A start that is admitted keeps the walk within the limit that it was admitted under.
pub fn admitted_start_keeps_the_walk()
    ensures { AdmittedStartsKeepWalk }
{}

/// A record that is allowed, starts no rule and begins no new part keeps the walk within.
pub fn record_keeps_the_walk()
    ensures { RecordsKeepWalk }
{}

/// From an empty part the walk stays within a limit exactly where the peak is at most the limit.
pub fn peak_is_walked()
    ensures { PeakIsWalked }
{}

/// Where no rule runs or has failed, nothing is wanted, some rule isn't complete and the walk stays
/// within the limit, a ready rule fits the storage and is admitted. So such a run doesn't end for
/// want of room.
pub fn safe_run_has_a_rule()
    ensures { SafeRunHasRule }
{}

/// Where no rule runs or has failed, nothing is wanted and the walk stays within the limit, the
/// first rule of the serial order that isn't complete is ready, fits the storage and is admitted.
pub fn first_may_start()
    ensures { FirstMayStart }
{}

/// Where no rule runs or has failed, nothing is wanted and some ready rule fits the storage, one
/// that does is admitted.
pub fn safe_admission_admits_one()
    ensures { SafeAdmitsOne }
{}

/// From a walk that stays within the limit of an opening, the run that it opens stays within it,
/// whatever is done, lost, failed or dropped, where it starts only what is admitted.
pub fn run_stays_safe()
    ensures { RunStaysSafe }
{}

/// The same of the records that a call adds, where they are legal with those before them and each
/// start of the call was admitted in the records before it.
pub fn call_stays_safe()
    ensures { CallStaysSafe }
{}

/// Where the walk stays within the limit, an end never answers that there is no room.
pub fn safe_run_has_room()
    ensures { SafeRunHasRoom }
{}

/// For a rule of the plan that isn't complete one walk answers what two walks answer.
pub fn one_walk_answers()
    ensures { OneWalkAnswers }
{}

/// A claim taken back keeps the walk within.
pub fn claim_may_go()
    ensures { ClaimMayGo }
{}
