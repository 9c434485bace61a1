//! Worked command lines, which the definitions decide.
ghost use Rattle.show_words.specs.Examples.{CommandLines, NoCommandLines};

/// Command lines, and what they choose.
pub fn command_lines()
    ensures { CommandLines }
{}

/// Words that are no command line.
pub fn words_that_are_no_command_line()
    ensures { NoCommandLines }
{}
