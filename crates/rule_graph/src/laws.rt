//! Laws of the definitions, each the contract of a function that does nothing.
ghost use Rattle.rule_graph.specs.Laws.{FaultlessPlansAreValid, SpellingTells};
ghost use Rattle.rule_graph.specs.Laws.{SerialOrderIsAnOrder, NothingLeftOverIsAnOrder};
ghost use Rattle.rule_graph.specs.Laws.{ValidPlansLeaveNothingOver};

/// Two valid plans with one spelling have the same commands, environments, ports, bounds and files;
/// only needs and local marks may differ.
pub fn spelling_tells_the_plan()
    ensures { SpellingTells }
{}

/// The serial order of a valid plan has each rule once, and each after the makers of its inputs.
/// Where a serial run leaves nothing over its order is such an order, and no loop is named; a valid
/// plan leaves nothing over.
pub fn serial_order_is_an_order()
    ensures order { SerialOrderIsAnOrder }
    ensures whole { NothingLeftOverIsAnOrder }
    ensures valid { ValidPlansLeaveNothingOver }
{}

/// The plan of a flow without a fault, none of whose commands, environments, amounts and stated
/// bounds passes its limit, is valid.
pub fn faultless_plans_are_valid()
    ensures { FaultlessPlansAreValid }
{}
