//! Worked texts, each with its flow or its fault.
ghost use Rattle.mf_rules.specs.Examples.{OneRule, ManyForms, FirstFaults};

/// What the definitions give for worked texts.
pub fn worked_flows()
    ensures one_rule { OneRule }
    ensures many_forms { ManyForms }
    ensures first_faults { FirstFaults }
{}
