//! What it means that a hall is manned, as the contract of a function that does nothing.
ghost use Rattle.std.specs.Prelude.{◌≡◌};
ghost use Rattle.flow_types.specs.declared.numbers.Amounts.{Amounts};

use links::Hall;
use outside::Commands;

/// Each link that a manned hall gives offers what it is manned for.
pub(crate) fn manned_halls_are_staffed<F: Commands, H: Hall<F>>()
    ensures { (hall : H) (amounts : Amounts) → H.manned hall amounts → H.staffed hall amounts
        × (H.given hall ≡ 0) }
{}
