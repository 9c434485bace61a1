//! Worked expressions, each with its flow or its fault, proved by computing. Nothing calls this.
ghost use Rattle.jx_flow.specs.Examples.{AllFields, FirstFaults};

/// What the definitions give for worked expressions.
pub fn worked_flows()
    ensures all_fields { AllFields }
    ensures first_faults { FirstFaults }
{}
