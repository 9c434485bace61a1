//! A law of sessions, the contract of a function that does nothing.
ghost use Rattle.link_session.specs.Laws.{StaleIsNotOpen};

/// Stale is said exactly where the hello was heard, nothing unexpected came since, and the message
/// is about an attempt that isn't open.
pub fn stale_words_are_of_closed_attempts()
    ensures { StaleIsNotOpen }
{}
