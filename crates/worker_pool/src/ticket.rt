//! A ticket goes out with each start, and comes back with its report. So a report is of a start
//! that was given and not heard.
ghost use Rattle.std.specs.Prelude.{◌≡◌, true, Some, IfOk};
ghost use Rattle.crossbeam_queue.specs.Passes.{view, IsPassOf, IsSamePass};
ghost use Rattle.flow_types.specs.declared.job.Start.{Start};
ghost use Rattle.worker_pool.specs.Tickets.{TookOut, granting, ticket_of, redeeming, fresh};
ghost use Rattle.worker_pool.specs.declared.entry.Entry.{Entry};

use crate::entry::View;
use crossbeam_queue::protocol::{Join, Lesson, Protocol, Split};
use crossbeam_queue::{Pass, RuledArrayQueue};
use flow_types::Start;
use std::alloc::{AllocError, Global};
use std::marker::{Brand, PhantomData};

/// The tickets that are out are those that the chief waits for. Nothing lies in the queue itself.
pub struct Ticketed;

impl Protocol<u8, View> for Ticketed {
    ghost use Rattle.worker_pool.specs.Tickets.{Kept, fresh};

    ghost holds = { λ items views. Kept views };

    ghost first = { fresh };
}

/// The start that a ticket is made for. Each call picks it.
pub trait Naming {
    ghost start: { Start };
}

impl Naming for Brand {
    ghost use Rattle.worker_pool.specs.Tickets.{nothing};

    ghost start = { nothing };
}

// A ticket goes out.
struct Grants<N> {
    of: PhantomData<N>,
}

impl<N: Naming> Split<View> for Grants<N> {
    ghost use Rattle.worker_pool.specs.Tickets.{granting, ticket_of};

    ghost left = { granting N.start };

    ghost right = { ticket_of N.start };
}

// A ticket comes back.
struct Return;

impl Join<View> for Return {
    ghost use Rattle.worker_pool.specs.Tickets.{redeeming, spent};

    ghost both = { redeeming };

    ghost spent = { spent };
}

// What came back was out.
struct Took;

impl Lesson<u8, View> for Took {
    ghost use Rattle.worker_pool.specs.Tickets.{TookOut};

    ghost fact = { λ v items. TookOut v };
}

/// A queue in which nothing ever lies: its rule speaks of the tickets alone.
pub type Tickets = RuledArrayQueue<u8, View, Ticketed>;

/// The chief's pass, or a ticket.
pub type Ticket = Pass<u8, View>;

/// The tickets of a pool, none of which is out, and the chief's pass.
pub fn new_tickets(alloc: Global) -> Result<(Tickets, Ticket), AllocError>
    ensures { IfOk result (λ made. IsPassOf made.0 made.1 × (view made.1 ≡ fresh)) }
{
    Tickets::ruled(alloc, 1)
}

// A ticket for the start that is picked.
fn grant_as<N: Naming>(tickets: &Tickets, chief: &mut Ticket, start: &Start) -> Ticket
    requires chief { IsPassOf tickets.now chief.old × ((view chief.old).chief ≡ true) }
    requires start { start.now ≡ N.start }
    ensures same { IsSamePass chief.old chief.new × IsPassOf tickets.now result }
    ensures views { (view chief.new ≡ granting start.now (view chief.old))
        × (view result ≡ ticket_of start.now (view chief.old)) }
{
    let _start = start;
    tickets.another::<Grants<N>>(chief)
}

/// A ticket for this start.
pub fn grant(tickets: &Tickets, chief: &mut Ticket, start: &Start) -> Ticket
    requires chief { IsPassOf tickets.now chief.old × ((view chief.old).chief ≡ true) }
    ensures same { IsSamePass chief.old chief.new × IsPassOf tickets.now result }
    ensures views { (view chief.new ≡ granting start.now (view chief.old))
        × (view result ≡ ticket_of start.now (view chief.old)) }
{
    grant_as::<Brand>(tickets, chief, start)
}

/// Takes a ticket back. Its start was given and not heard.
pub fn redeem(tickets: &Tickets, chief: &mut Ticket, ticket: Ticket)
    requires chief { IsPassOf tickets.now chief.old × ((view chief.old).chief ≡ true) }
    requires ticket { IsPassOf tickets.now ticket
        × ((entry : Entry) × ((view ticket).ticket ≡ Some entry)) }
    ensures same { IsSamePass chief.old chief.new }
    ensures views { view chief.new ≡ redeeming (view chief.old) (view ticket) }
    ensures took { TookOut (view chief.new) }
{
    tickets.absorb::<Return>(chief, ticket);
    tickets.learn_as::<Took>(chief);
}
