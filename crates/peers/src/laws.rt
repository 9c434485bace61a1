//! Laws of links, each the contract of a function that does nothing.
ghost use Rattle.links.specs.Honesty.{IsOrderly};
ghost use Rattle.links.specs.Passings.{received_in, sent_in};
ghost use Rattle.peers.specs.Provides.{ProvidesAgain, ProvidesAsked, ProvidesDropped, ProvidesFirst, ProvidesHeard, ProvidesOpened, ProvidesPut, ProvidesSaid};
ghost use Rattle.peers.specs.Serves.{DueStaysDue, WasHonest, WhatIsSaidWentOut};

use links::Link;
use outside::Commands;

/// A link that tells that it is honest was so at every moment.
pub fn honest_links_were_honest<F: Commands, L: Link<F>>()
    ensures { (link : L) → L.honest link
        → L.tells × WasHonest F.gives F.may_fail (L.history link) }
{}

/// A link that tells that it is sure is honest, and what came over it is in order.
pub fn sure_links_are_orderly<F: Commands, L: Link<F>>()
    ensures { (link : L) → L.sure link → L.honest link
        × IsOrderly (sent_in (L.history link)) (received_in (L.history link)) }
{}

/// What was put stays due where what is put next is due, and where another message is said.
pub fn what_is_due_stays_due()
    ensures { DueStaysDue }
{}

/// Where what a session lacks is put before its task is asked, each task is said behind all that it
/// takes in.
pub fn tasks_come_behind_their_inputs()
    ensures first { ProvidesFirst }
    ensures opened { ProvidesOpened }
    ensures put { ProvidesPut }
    ensures said { ProvidesSaid }
    ensures asked { ProvidesAsked }
    ensures again { ProvidesAgain }
    ensures heard { ProvidesHeard }
    ensures dropped { ProvidesDropped }
{}

/// What was said to a served peer went out whole, and what was heard of it came whole.
pub fn what_is_said_went_out<F: Commands>()
    ensures { WhatIsSaidWentOut F.gives F.may_fail }
{}
