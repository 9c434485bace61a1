//! Why a flow is no plan.
use flow_types::{Name, Rows, RuleNo, Text};

/// Why a flow is no plan. The first that stands in this order is answered, that of the least rule
/// first.
#[derive(Drop)]
pub enum GraphFault {
    /// More rules, files, or inputs or outputs of one rule than this limit.
    TooMany(u32),
    /// A text of this rule that is no name, as it stands.
    BadName(RuleNo, Text),
    NoOutput(RuleNo),
    /// Two ports of this rule have this remote name.
    SameName(RuleNo, Name),
    /// The first name, followed by a slash, begins the second; both are names of files, or remote
    /// names of one rule.
    NestedName(Name, Name),
    /// Two output ports make the file of this name.
    TwoMakers(Name, RuleNo, RuleNo),
    /// Each rule of this loop takes in what the next one makes, and the last what the first one
    /// makes.
    Cycle(Rows<RuleNo>),
    Memory,
}
