//! What it means that a link tells what its peer offers, as the contract of a function that does
//! nothing.
ghost use Rattle.flow_types.specs.declared.numbers.Amounts.{Amounts};
ghost use Rattle.links.specs.Honesty.{OffersAtLeast};
ghost use Rattle.links.specs.Passings.{received_in};

use links::Link;
use outside::Commands;

/// Each hello and totals that came over a link offers what its peer is told to offer.
pub(crate) fn offers_were_stated<F: Commands, L: Link<F>>()
    ensures { (link : L) (amounts : Amounts) → L.offers link amounts
        → OffersAtLeast amounts (received_in (L.history link)) }
{}
