//! A worker of a world, as it runs.
ghost use Rattle.std.specs.Prelude.{◌≡◌, ◌<◌, ◌||◌, ◌++◌, length, nat_le, position, slice_get};
ghost use Rattle.std.specs.Prelude.{true, IfOk, IfSome, OnOk};
ghost use Rattle.std.specs.List.{list_all};
ghost use Rattle.worker_core.specs.Workers.{hears, reports};
ghost use Rattle.world_peers.specs.Peers.{is_job_of, is_least, least_job, new_machine, new_worker};
ghost use Rattle.world_peers.specs.Peers.{stepped, without_job};
ghost use Rattle.std.specs.Option.{option_copied};

mod running;

use flow_types::{Amounts, AttemptNo, Memory, Message, Outcome, Rows, Start};
pub use running::run_job;
use std::alloc::Global;
use std::marker::Model;
use worker_core::{Acts, WorkerCore};
use wq_messages::PeerFault;

/// A worker with the jobs that it was told to start and that haven't ended.
#[derive(Drop)]
pub struct Peer {
    alloc: Global,
    core: WorkerCore,
    jobs: Vec<Start>,
    gone: bool,
}

impl Model for Peer {
    ghost use Rattle.world_peers.specs.Peers.{Machine};

    ghost Value = { Machine };

    ghost view = { λ p. record { worker = p.core; jobs = p.jobs.items; gone = p.gone } };
}

impl Peer {
    /// A peer with these amounts and a cache of so many bytes, which holds and runs nothing.
    pub fn new(alloc: Global, total: Amounts, cap: u64) -> Peer
        ensures { result ≡ new_machine (new_worker total cap) }
    {
        Peer {
            alloc,
            core: WorkerCore::new(alloc, total, cap),
            jobs: Vec::new(alloc),
            gone: false,
        }
    }

    // Whether it is gone.
    pub(crate) fn is_gone(&self) -> bool
        ensures { result ≡ self.now.gone }
    {
        self.gone
    }

    // What it has, and the bytes that it may keep.
    pub(crate) fn offer(&self) -> (Amounts, u64)
        ensures total { result.0 ≡ self.now.worker.total }
        ensures cache { result.1 ≡ self.now.worker.cache.cap }
    {
        match self.core.hello() {
            Message::Hello {
                total,
                largest: _,
                cache,
            } => (total, cache),
            _ => (
                Amounts {
                    cores: 0,
                    memory: 0,
                    disk: 0,
                },
                0,
            ),
        }
    }

    // It is gone from now on.
    pub(crate) fn leave(&mut self)
        ensures { self.new ≡ record self.old { gone = true } }
    {
        self.gone = true;
    }

    /// A message comes; answers what is to be sent. Where there is no memory, some of it may be
    /// done.
    pub fn hear(&mut self, message: Message) -> Result<Rows<Message>, Memory>
        ensures sent { IfOk result (λ sent. sent ≡ (hears self.old.worker message).acts.send) }
        ensures peer { OnOk result (self.new
            ≡ stepped self.old self.old.jobs (hears self.old.worker message)) }
    {
        match self.core.on_message(message) {
            Ok(acts) => self.takes(acts),
            Err(PeerFault::Unexpected) => Ok(Rows::new(self.alloc)),
            Err(PeerFault::Memory) => Err(Memory),
        }
    }

    /// The job of an attempt has ended so; answers what is to be sent. Where there is no memory,
    /// some of it may be done.
    pub fn report(&mut self, attempt: AttemptNo, outcome: Outcome) -> Result<Rows<Message>, Memory>
        ensures sent { IfOk result (λ sent. sent
            ≡ (reports self.old.worker attempt outcome).acts.send) }
        ensures peer { OnOk result (self.new ≡ stepped self.old
            (without_job attempt self.old.jobs) (reports self.old.worker attempt outcome)) }
    {
        forget(&mut self.jobs, attempt);
        if !self.core.runs(attempt) {
            return Ok(Rows::new(self.alloc));
        }
        let acts = self.core.on_report(attempt, outcome)?;
        self.takes(acts)
    }

    // What a step of the worker starts is a job from now on; answers what it sends.
    fn takes(&mut self, acts: Acts) -> Result<Rows<Message>, Memory>
        ensures sent { IfOk result (λ sent. sent ≡ acts.send) }
        ensures worker { self.new.worker ≡ self.old.worker }
        ensures jobs { OnOk result (self.new.jobs ≡ self.old.jobs ++ acts.start) }
        ensures gone { OnOk result (self.new.gone ≡ acts.bye || self.old.gone) }
    {
        let Acts { send, start, bye } = acts;
        let mut starts = start.into_vec();
        if self.jobs.append(&mut starts).is_err() {
            return Err(Memory);
        }
        self.gone = bye || self.gone;
        Ok(send)
    }
}

// Where the job of an attempt stands.
fn find(jobs: &[Start], attempt: AttemptNo) -> Option<usize>
    ensures place { result ≡ position (is_job_of attempt) jobs.now }
    ensures within { IfSome result (λ at. at < length jobs.now) }
{
    jobs.iter().position(|s| s.attempt.0 == attempt.0)
}

// The job of an attempt has ended.
fn forget(jobs: &mut Vec<Start>, attempt: AttemptNo)
    ensures { jobs.new.items ≡ without_job attempt jobs.old.items }
{
    if let Some(at) = find(jobs.as_slice(), attempt) {
        let _ended = jobs.remove(at);
    }
}

// Whether no job has an attempt below this one.
fn is_below_none(jobs: &[Start], attempt: AttemptNo) -> bool
    ensures { result ≡ list_all (λ other. nat_le attempt.0 other.attempt.0) jobs.now }
{
    jobs.iter().all(|other| attempt.0 <= other.attempt.0)
}

// Where the job of the least attempt stands.
fn least(jobs: &[Start]) -> Option<usize>
    ensures place { result ≡ position (is_least jobs.now) jobs.now }
    ensures within { IfSome result (λ at. at < length jobs.now) }
{
    jobs.iter().position(|s| is_below_none(jobs, s.attempt))
}

// The job of the least attempt.
#[tactic(auto, using(crate::proofs::Places::place_found, crate::proofs::Places::none_found))]
fn next(jobs: &[Start]) -> Option<&Start>
    ensures { option_copied result ≡ least_job jobs.now }
{
    match least(jobs) {
        Some(at) => at_place(jobs, at),
        None => None,
    }
}

// The job at a place.
fn at_place(jobs: &[Start], at: usize) -> Option<&Start>
    ensures { option_copied result ≡ slice_get jobs.now at }
{
    jobs.get(at)
}
