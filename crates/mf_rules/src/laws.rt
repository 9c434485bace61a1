//! What holds of every flow that a text says, as contracts of empty functions.
ghost use Rattle.mf_rules.specs.Laws.{FlowsFitTheirLimits};

/// A flow that a Makeflow text says keeps the limits of commands, environments, amounts and stated
/// bounds.
pub fn flows_fit_their_limits()
    ensures { FlowsFitTheirLimits }
{}
