//! Worked command lines, which the definitions decide.
ghost use Rattle.command_words.specs.Examples.{CommandLines, NoCommandLines, PeerCommandLines};

/// Command lines of `makeflow`, and what they choose.
pub fn command_lines()
    ensures { CommandLines }
{}

/// Words that are no command line of `makeflow`.
pub fn words_that_are_no_command_line()
    ensures { NoCommandLines }
{}

/// Command lines of `work_queue_worker` and `work_queue_foreman`.
pub fn peer_command_lines()
    ensures { PeerCommandLines }
{}
