//! Laws of every foreman, each the contract of a function that does nothing.
ghost use Rattle.foreman_core.specs.Laws.{FirstIsRight, UpKeepsRight, DownKeepsRight, LostKeepsRight};

/// Whatever a foreman hears, in whatever order, what it tells of an attempt is told of a task that
/// it was given: that it came to no end, or the end that the worker told to which this very task
/// went. Each number below belongs to one attempt from above.
pub fn what_a_foreman_tells_is_right()
    ensures first { FirstIsRight }
    ensures up { UpKeepsRight }
    ensures down { DownKeepsRight }
    ensures lost { LostKeepsRight }
{}
