//! The caller's side of a pool.
ghost use Rattle.std.specs.Prelude.{◌≡◌, ◌<◌, ◌^◌, [], ◌∷◌, ◌++◌, length, None, IfSome};
ghost use Rattle.crossbeam_queue.specs.Passes.{view, IsPassOf};
ghost use Rattle.flow_types.specs.declared.job.Start.{Start};
ghost use Rattle.worker_pool.specs.Courses.{TakesOut};
ghost use Rattle.worker_pool.specs.Hands.{hand};
ghost use Rattle.worker_pool.specs.Pools.{IsHalfOf};
ghost use Rattle.worker_pool.specs.Tallies.{none, plus, tally_of, IsWithin};
ghost use Rattle.worker_pool.specs.Tickets.{fresh};

use crate::chief::Chief;
use crate::line::{Line, Token};
use crate::terms::Terms;
use crate::ticket::{Ticket, Tickets};
use flow_types::{Report, Start};
use std::marker::Model;
use std::sync::Wait;

/// The caller's side of a pool: it hands out starts, and hears how they ended. To a contract it is
/// the starts that were given and not heard, and how many of those that were heard weren't run or
/// failed.
#[derive(Drop)]
pub struct Pool<'a, B: Terms> {
    line: &'a Line<B>,
    chief: Chief<B>,
    token: Token,
}

impl<'a, B: Terms> Model for Pool<'a, B> {
    ghost use Rattle.std.specs.Prelude.{◌≡◌, ◌^◌};
    ghost use Rattle.crossbeam_queue.specs.Passes.{IsPassOf};
    ghost use Rattle.worker_pool.specs.Pools.{PoolState, hand_of};
    ghost use Rattle.worker_pool.specs.Tallies.{none};

    ghost Value = { PoolState };

    ghost view = { λ p. record {
      line = p.token.table_id;
      waiting = p.chief;
      heard = (hand_of p.token).taken;
    } };

    ghost invariant = { λ p. IsPassOf p.line.now.reports p.token
        × ((hand_of p.token).parts ≡ 2 ^ 64) × ((hand_of p.token).put ≡ none) };
}

impl<'a, B: Terms> Pool<'a, B> {
    /// A pool that gave nothing yet, and the token of its runners, of whom there may be 2^64.
    pub fn new(
        line: &'a Line<B>,
        tickets: Tickets,
        pass: Ticket,
        token: Token,
    ) -> (Pool<'a, B>, Token)
        requires tickets { (pass.table_id ≡ B.tickets) × IsPassOf tickets pass
            × (view pass ≡ fresh) }
        requires token { IsPassOf line.now.reports token × (view token ≡ hand (2 ^ 65) none none) }
        ensures pool { (result.0.waiting ≡ []) × (result.0.heard ≡ none) }
        ensures token { IsPassOf line.now.reports result.1
            × (view result.1 ≡ hand (2 ^ 64) none none) }
        ensures half { IsHalfOf result.0.line result.1 }
    {
        let mut token = token;
        let other = line.split(&mut token);
        let pool = Pool {
            line,
            chief: Chief::new(tickets, pass),
            token,
        };
        (pool, other)
    }

    /// How many were given and not heard.
    pub fn out(&self) -> usize
        ensures { result ≡ length self.now.waiting }
    {
        self.chief.out()
    }

    /// Hands a start to some runner. At most 64 are out at once.
    pub fn give<W: Wait>(&mut self, rt: &W, start: Start)
        requires { length self.old.waiting < 64 }
        ensures { self.new ≡ record self.old { waiting = self.old.waiting ++ start ∷ [] } }
    {
        let handed = self.chief.give(start);
        self.line.send(rt, handed);
    }

    /// The report of a start that was given, where one is ready.
    pub fn hear(&mut self) -> Option<Report>
        ensures some { IfSome result (λ report.
            (start : Start) × TakesOut start self.old.waiting self.new.waiting
            × (start.attempt ≡ report.attempt) × B.fits start.job report.outcome
            × (self.new.heard ≡ plus self.old.heard (tally_of report.outcome))
            × (self.new.line ≡ self.old.line)) }
        ensures none { result ≡ None → self.new ≡ self.old }
    {
        let ran = self.line.take(&mut self.token)?;
        Some(self.chief.take_back(ran))
    }

    /// How many reports came so far, or None after the end. The end comes by `close`, and where a
    /// runner wanted memory.
    pub fn seen(&self) -> Option<u64> {
        self.line.ended.seen()
    }

    /// Waits for a report since then, or for the end.
    pub fn rest<W: Wait>(&self, rt: &W, seen: u64) {
        self.line.ended.wait_past(rt, seen);
    }

    /// Ends all waits: each runner ends after its job.
    pub fn close(&self) {
        self.line.close();
    }

    /// Takes the runners' token back, once their threads have ended. No more was heard than they
    /// put, and where no start waits all that they put was heard.
    pub fn end<W: Wait>(self, rt: &W, other: Token)
        requires { IsHalfOf self.line other }
        ensures within { IsWithin self.entry.heard (view other).put }
        ensures even { self.entry.waiting ≡ [] → self.entry.heard ≡ (view other).put }
    {
        let Pool {
            line,
            mut chief,
            mut token,
        } = self;
        line.join(&mut token, other);
        line.audit(&mut token);
        if chief.out() > 0 {
            return;
        }
        if let Some(ran) = line.last(rt, &mut token) {
            chief.take_back(ran);
            unreachable!()
        }
    }
}
