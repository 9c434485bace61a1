//! Laws of the meaning of expressions. Nothing runs here.
ghost use Rattle.jx_meaning.specs.Laws.{HasOneValue, HasOneFault, HasNoBoth};

/// A value is the only one, and so is the number of nodes.
pub fn a_value_is_the_only_one()
    ensures { HasOneValue }
{}

/// A first fault is the only one.
pub fn a_fault_is_the_only_one()
    ensures { HasOneFault }
{}

/// What has a value has no fault.
pub fn a_value_excludes_a_fault()
    ensures { HasNoBoth }
{}
