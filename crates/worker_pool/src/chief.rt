//! The caller's thread: what it gave and hasn't heard.
ghost use Rattle.std.specs.Prelude.{◌≡◌, ◌<◌, List, true, [], ◌∷◌, ◌++◌, length};
ghost use Rattle.crossbeam_queue.specs.Passes.{view, IsPassOf};
ghost use Rattle.flow_types.specs.declared.job.Start.{Start};
ghost use Rattle.worker_pool.specs.Backs.{IsBack};
ghost use Rattle.worker_pool.specs.Courses.{TakesOut};
ghost use Rattle.worker_pool.specs.Tickets.{fresh, known, starts};

use crate::handed::Handed;
use crate::ran::Ran;
use crate::terms::Terms;
use crate::ticket::{Ticket, Tickets, grant, redeem};
use flow_types::{Report, Start};
use std::marker::{Model, PhantomData};

/// Contracts see it as the starts that were given and not heard.
#[derive(Drop)]
pub struct Chief<B: Terms> {
    tickets: Tickets,
    pass: Ticket,
    out: usize,
    of: PhantomData<B>,
}

impl<B: Terms> Model for Chief<B> {
    ghost Value = { List Start };

    ghost view = { λ c. starts (known c.pass).waiting };

    ghost invariant = { λ c. (c.pass.table_id ≡ B.tickets)
        × IsPassOf c.tickets c.pass
        × ((known c.pass).chief ≡ true)
        × (c.out ≡ length (known c.pass).waiting) };
}

impl<B: Terms> Chief<B> {
    /// Nothing was given yet.
    pub fn new(tickets: Tickets, pass: Ticket) -> Chief<B>
        requires { (pass.table_id ≡ B.tickets) × IsPassOf tickets pass × (view pass ≡ fresh) }
        ensures { result ≡ [] }
    {
        Chief {
            tickets,
            pass,
            out: 0,
            of: PhantomData,
        }
    }

    /// How many were given and not heard.
    pub fn out(&self) -> usize
        ensures { result ≡ length self.now }
    {
        self.out
    }

    /// Notes that this start goes out.
    pub fn give(&mut self, start: Start) -> Handed<B>
        requires { length self.old < 64 }
        ensures waiting { self.new ≡ self.old ++ start ∷ [] }
        ensures given { result ≡ start }
    {
        let ticket = grant(&self.tickets, &mut self.pass, &start);
        self.out += 1;
        Handed::new(start, ticket)
    }

    /// The report of what was run.
    pub fn take_back(&mut self, ran: Ran) -> Report
        requires { IsBack B.tickets B.fits ran }
        ensures waiting { TakesOut ran.start self.old self.new }
        ensures given { (result.attempt ≡ ran.start.attempt) × (result.outcome ≡ ran.outcome) }
    {
        let Ran {
            start,
            outcome,
            ticket,
        } = ran;
        redeem(&self.tickets, &mut self.pass, ticket);
        self.out -= 1;
        Report {
            attempt: start.attempt,
            outcome,
        }
    }
}
