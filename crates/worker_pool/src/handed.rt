//! A start on its way to a runner.
ghost use Rattle.std.specs.Prelude.{◌≡◌};
ghost use Rattle.worker_pool.specs.Tickets.{IsTicketOf};

use crate::terms::Terms;
use crate::ticket::Ticket;
use flow_types::Start;
use std::marker::{Model, PhantomData};

/// A start with the ticket that was made for it. To a contract it is the start.
#[derive(Drop)]
pub struct Handed<B: Terms> {
    start: Start,
    ticket: Ticket,
    of: PhantomData<B>,
}

impl<B: Terms> Model for Handed<B> {
    ghost use Rattle.flow_types.specs.declared.job.Start.{Start};
    ghost use Rattle.worker_pool.specs.Tickets.{IsTicketOf};

    ghost Value = { Start };

    ghost view = { λ h. h.start };

    ghost invariant = { λ h. IsTicketOf B.tickets h.ticket h.start };
}

impl<B: Terms> Handed<B> {
    /// The ticket was made for this start.
    pub fn new(start: Start, ticket: Ticket) -> Handed<B>
        requires { IsTicketOf B.tickets ticket start }
        ensures { result ≡ start }
    {
        Handed {
            start,
            ticket,
            of: PhantomData,
        }
    }

    /// The start and its ticket.
    pub fn into_parts(self) -> (Start, Ticket)
        ensures start { result.0 ≡ self }
        ensures ticket { IsTicketOf B.tickets result.1 self }
    {
        let Handed { start, ticket, .. } = self;
        (start, ticket)
    }
}
