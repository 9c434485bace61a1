//! A law of what tables tell, the contract of a function that does nothing.
ghost use Rattle.safe_storage.specs.Pacing.{ClaimedIsStarted};

/// The claimed rules of a walk are those that a table says were started and that aren't complete.
pub fn claimed_is_started()
    ensures { ClaimedIsStarted }
{}
