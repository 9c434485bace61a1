//! What goes from the caller's thread to the runners, and back.
ghost use Rattle.std.specs.Prelude.{◌≡◌, ◌<◌, ◌+◌, ◌-◌, ◌/◌, ◌^◌, None, IfOk, IfSome};
ghost use Rattle.crossbeam_queue.specs.Passes.{view, IsPassOf, IsSamePass};
ghost use Rattle.worker_pool.specs.Backs.{IsBack};
ghost use Rattle.worker_pool.specs.Hands.{hand};
ghost use Rattle.worker_pool.specs.Tallies.{none, plus, tally_of, IsWithin};

use crate::bell::Bell;
use crate::counted::{Counted, Halves, Puts, Takes, TakesLast, Whole};
use crate::hand::Hand;
use crate::handed::Handed;
use crate::ran::Ran;
use crate::terms::Terms;
use crossbeam_queue::{ArrayQueue, Pass, RuledArrayQueue};
use std::alloc::{AllocError, Global};
use std::sync::Wait;
use std::thread;

/// The queue of the reports.
pub type Reports<B> = RuledArrayQueue<Ran, Hand, Counted<B>>;

/// A thread's leave to put reports and to take them.
pub type Token = Pass<Ran, Hand>;

/// What the threads of a pool share.
#[derive(Drop)]
pub struct Line<B: Terms> {
    pub(crate) alloc: Global,
    pub(crate) starts: ArrayQueue<Handed<B>>,
    /// Rings at each start that is sent.
    pub(crate) given: Bell,
    pub(crate) reports: Reports<B>,
    /// Rings at each report that is put.
    pub(crate) ended: Bell,
}

impl<B: Terms> Line<B> {
    /// An empty line, and the first token, which has all parts.
    pub fn new(alloc: Global) -> Result<(Line<B>, Token), AllocError>
        ensures { IfOk result (λ made. IsPassOf made.0.reports made.1
            × (view made.1 ≡ hand (2 ^ 65) none none)) }
    {
        let starts = ArrayQueue::new(alloc, 64)?;
        let (reports, token) = Reports::<B>::ruled(alloc, 64)?;
        let line = Line {
            alloc,
            starts,
            given: Bell::new(),
            reports,
            ended: Bell::new(),
        };
        Ok((line, token))
    }

    /// Hands a report to the caller's thread.
    pub fn put<W: Wait>(&self, rt: &W, token: &mut Token, ran: Ran)
        requires token { IsPassOf self.now.reports token.old × (0 < (view token.old).parts) }
        requires back { IsBack B.tickets B.fits ran }
        ensures same { IsSamePass token.old token.new }
        ensures view { view token.new ≡ hand (view token.old).parts
            (plus (view token.old).put (tally_of ran.outcome)) (view token.old).taken }
    {
        let mut kept = ran;
        for _ in rt.forever() {
            match self.reports.try_push_as::<Puts>(token, kept) {
                Ok(()) => break,
                Err(back) => kept = back,
            }
            thread::yield_now();
        }
        self.ended.tell();
    }

    /// A report, where one is ready.
    pub fn take(&self, token: &mut Token) -> Option<Ran>
        requires { IsPassOf self.now.reports token.old × (0 < (view token.old).parts) }
        ensures same { IsSamePass token.old token.new }
        ensures some { IfSome result (λ ran.
            (view token.new ≡ hand (view token.old).parts (view token.old).put
            (plus (view token.old).taken (tally_of ran.outcome)))
            × IsBack B.tickets B.fits ran) }
        ensures none { result ≡ None → view token.new ≡ view token.old }
    {
        self.reports.try_pop_as::<Takes<B>>(token)
    }

    /// A token for half of the threads.
    pub fn split(&self, token: &mut Token) -> Token
        requires { IsPassOf self.now.reports token.old × (1 < (view token.old).parts) }
        ensures same { IsSamePass token.old token.new × IsPassOf self.now.reports result }
        ensures views { (view token.new ≡ hand
            ((view token.old).parts - (view token.old).parts / 2)
            (view token.old).put (view token.old).taken)
            × (view result ≡ hand ((view token.old).parts / 2) none none) }
    {
        self.reports.another::<Halves>(token)
    }

    /// Takes a token back.
    pub fn join(&self, token: &mut Token, other: Token)
        requires token { IsPassOf self.now.reports token.old × (0 < (view token.old).parts) }
        requires other { IsPassOf self.now.reports other }
        ensures same { IsSamePass token.old token.new }
        ensures view { view token.new ≡ hand ((view token.old).parts + (view other).parts)
            (plus (view token.old).put (view other).put)
            (plus (view token.old).taken (view other).taken) }
    {
        self.reports.absorb::<Halves>(token, other);
    }

    /// With all parts in one hand, no more was taken than was put.
    pub fn audit(&self, token: &mut Token)
        requires { IsPassOf self.now.reports token.old × ((view token.old).parts ≡ 2 ^ 65) }
        ensures same { IsSamePass token.old token.new × (view token.new ≡ view token.old) }
        ensures fact { IsWithin (view token.old).taken (view token.old).put }
    {
        self.reports.learn_as::<Whole>(token);
    }

    /// A report that is left, with all parts in one hand. Where none is, what was put was taken.
    pub fn last<W: Wait>(&self, rt: &W, token: &mut Token) -> Option<Ran>
        requires { IsPassOf self.now.reports token.old × ((view token.old).parts ≡ 2 ^ 65) }
        ensures same { IsSamePass token.old token.new }
        ensures some { IfSome result (IsBack B.tickets B.fits) }
        ensures none { result ≡ None → (view token.old).taken ≡ (view token.old).put }
    {
        self.reports.pop_as::<TakesLast<B>, W>(rt, token)
    }

    /// Ends all waits.
    pub fn close(&self) {
        self.given.close();
        self.ended.close();
    }

    /// Hands a start to some runner.
    pub fn send<W: Wait>(&self, rt: &W, handed: Handed<B>) {
        let mut kept = handed;
        for _ in rt.forever() {
            match self.starts.push(rt, kept) {
                Ok(()) => break,
                Err(back) => kept = back,
            }
            thread::yield_now();
        }
        self.given.tell();
    }
}
