//! What holds of the flow, each the contract of a function that does nothing.
ghost use Rattle.worked_run.specs.Premises.{PremisesHold, RunsComplete};
ghost use Rattle.worked_run.specs.Worked.{IsRead, MakesContents};

/// The words and the text are read, and the serial run makes something of the source.
pub fn the_flow_computes()
    ensures read { IsRead }
    ensures made { MakesContents }
{}

/// All that the promises on contents and on the end of a run ask of a call holds together.
pub fn the_premises_hold()
    ensures premises { PremisesHold }
    ensures complete { RunsComplete }
{}
