//! A law of the printed log, as the contract of a function that does nothing.
ghost use Rattle.log_text.specs.Laws.{CountsAddUp};

/// Each rule is counted in one state.
pub fn counts_add_up()
    ensures { CountsAddUp }
{}
