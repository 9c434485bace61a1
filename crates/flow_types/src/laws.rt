//! Laws of the definitions, each the contract of a function that does nothing.
ghost use Rattle.flow_types.specs.Laws.{EveryRuleIsTaken, FormsAreNames, NamesGiveThemselves};
ghost use Rattle.flow_types.specs.Laws.{SerialIsFixed, SerialKeepsSources};

/// What a text gives as its name is a name in its one form, and such a name gives itself.
pub fn names_are_fixed()
    ensures forms { FormsAreNames }
    ensures again { NamesGiveThemselves }
{}

/// The serial run of a valid plan is a solution of its rules: it takes every rule, a made file has
/// what its rule's job gives over the run's own contents, and a source keeps its content.
pub fn serial_run_is_fixed()
    ensures made { SerialIsFixed }
    ensures sources { SerialKeepsSources }
    ensures whole { EveryRuleIsTaken }
{}
