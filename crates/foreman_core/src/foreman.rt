//! The foreman.
ghost use Rattle.std.specs.Prelude.{◌≡◌, ◌<◌, ◌∷◌, [], ◌++◌, length, remove, slice_get, IfOk, Some};
ghost use Rattle.foreman_core.specs.declared.links.Upstream.{Upstream as Attempt};
ghost use Rattle.foreman_core.specs.Answers.{HearsUp, Leads};
ghost use Rattle.foreman_core.specs.Drafts.{led_of};
ghost use Rattle.foreman_core.specs.Foremen.{kept, new_foreman, totals};
ghost use Rattle.foreman_core.specs.Steps.{cancels, cancels_at, closed_by, closed_on, hears_put, hears_task, hears_up, holding, misses, quiet, released, settled, takes};
ghost use Rattle.worker_core.specs.Workers.{goes_up};

use crate::acts::ForemanActs;
use crate::copies::renumber;
use crate::draft::{Draft, without};
use crate::links::{Below, Spot, Upstream, close_in, find, find_link, resume_in};
use crate::pins::release;
use crate::totals::stated;
use flow_types::{AttemptNo, Bytes, Key, Memory, Message, Task};
use std::alloc::Global;
use std::marker::Model;
use worker_cache::{Cache, PutRefused};
use worker_core::{files_of, holds_all, missing_of, pin_all, touch_all};
use wq_messages::PeerFault;

/// A foreman: what it holds, the attempts from above, its workers, and the number of the next
/// attempt below. It sends nothing itself; each call answers what is to be sent.
#[derive(Drop)]
pub struct ForemanCore {
    pub(crate) alloc: Global,
    pub(crate) cache: Cache,
    pub(crate) attempts: Vec<Upstream>,
    pub(crate) links: Vec<Below>,
    pub(crate) next: u128,
}

impl Model for ForemanCore {
    ghost use Rattle.foreman_core.specs.Foremen.{Foreman};

    ghost Value = { Foreman };

    ghost view = { λ f. record {
      cache = f.cache;
      attempts = f.attempts.items;
      links = f.links.items;
      next = f.next;
    } };
}

impl ForemanCore {
    /// A foreman with a cache of so many bytes, which holds nothing and has no worker. It takes no
    /// memory.
    pub fn new(alloc: Global, cap: u64) -> ForemanCore
        ensures { result ≡ new_foreman cap }
    {
        ForemanCore {
            alloc,
            cache: Cache::new(alloc, cap),
            attempts: Vec::new(alloc),
            links: Vec::new(alloc),
            next: 0,
        }
    }

    /// What the foreman states of its workers together, with its own cache.
    pub fn totals(&self) -> Message
        ensures { result ≡ totals self.now }
    {
        stated(self.links.as_slice(), self.cache.cap())
    }

    // What isn't placed is placed where it fits, and the step is done.
    pub(crate) fn finish(&mut self, draft: Draft) -> Result<ForemanActs, Memory>
        ensures step { Leads (settled (led_of self.old.cache self.old.attempts self.old.links
            draft)) self.old result self.new }
        ensures cache { self.new.cache ≡ self.old.cache }
    {
        let mut draft = draft;
        draft.settle(&self.cache, &mut self.attempts, &mut self.links)?;
        Ok(draft.done(&mut self.next))
    }

    // The attempt at a place ends: the others are placed where they fit, and its pins go back.
    pub(crate) fn end_at(&mut self, draft: Draft, at: usize) -> Result<ForemanActs, Memory>
        requires { at < length self.old.attempts }
        ensures { (u : Attempt) → slice_get self.old.attempts at ≡ Some u
            → Leads (holding (settled (led_of self.old.cache (remove self.old.attempts at)
            self.old.links draft)) (released self.old.cache.rows u)) self.old result self.new }
    {
        let mut draft = draft;
        let ended = without(
            &mut draft,
            &self.cache,
            &mut self.attempts,
            &mut self.links,
            at,
        )?;
        let acts = draft.done(&mut self.next);
        release(&mut self.cache, &ended);
        Ok(acts)
    }

    // Keeps a content. One for which there is no room is dropped.
    fn on_put(&mut self, key: Key, content: Bytes) -> Result<ForemanActs, Memory>
        ensures { Leads (hears_put self.old key content) self.old result self.new }
    {
        match self.cache.put(key, content) {
            Ok(()) | Err(PutRefused::Full { .. }) => Ok(ForemanActs::none(self.alloc)),
            Err(PutRefused::Memory) => Err(Memory),
        }
    }

    // One more attempt behind the others, which is placed where it fits.
    fn keep(&mut self, task: &Task) -> Result<ForemanActs, Memory>
        ensures step { Leads (settled (quiet (record self.old {
          attempts = self.old.attempts ++ kept task.now ∷ [];
        }))) self.old result self.new }
        ensures cache { self.new.cache ≡ self.old.cache }
    {
        let count = self.attempts.len();
        let task = renumber(self.alloc, task, task.attempt)?;
        if self.attempts.push(Upstream { task, spot: None }).is_err() {
            return Err(Memory);
        }
        match self.finish(Draft::of(self.alloc, self.next)) {
            Ok(acts) => Ok(acts),
            Err(_) => {
                self.attempts.truncate(count);
                Err(Memory)
            }
        }
    }

    // Takes an attempt whose inputs are held.
    fn take(&mut self, task: &Task) -> Result<ForemanActs, Memory>
        ensures { Leads (takes self.old task.now) self.old result self.new }
    {
        let acts = self.keep(task)?;
        pin_all(&mut self.cache, task.run, task.inputs.as_slice());
        Ok(acts)
    }

    // Tells which inputs aren't held.
    fn miss(&mut self, task: &Task) -> Result<ForemanActs, Memory>
        ensures { Leads (misses self.old task.now) self.old result self.new }
    {
        let files = files_of(self.alloc, task.inputs.as_slice())?;
        let missing = missing_of(self.alloc, &self.cache, task.run, files.as_slice())?;
        let message = Message::Missing {
            attempt: task.attempt,
            files: missing,
        };
        let acts = ForemanActs::telling(self.alloc, message)?;
        touch_all(&mut self.cache, task.run, files.as_slice());
        Ok(acts)
    }

    fn on_task(&mut self, task: &Task) -> Result<ForemanActs, Memory>
        ensures { Leads (hears_task self.old task.now) self.old result self.new }
    {
        if find(&self.attempts, task.attempt).is_some() {
            return Ok(ForemanActs::none(self.alloc));
        }
        if holds_all(&self.cache, task.run, task.inputs.as_slice()) {
            self.take(task)
        } else {
            self.miss(task)
        }
    }

    // The same, once the attempt is closed in the session of the worker at another place.
    fn end_on(
        &mut self,
        draft: Draft,
        at: usize,
        on: usize,
        number: AttemptNo,
    ) -> Result<ForemanActs, Memory>
        requires attempt { at < length self.old.attempts }
        requires worker { on < length self.old.links }
        ensures { (u : Attempt) → slice_get self.old.attempts at ≡ Some u
            → Leads (holding (settled (led_of self.old.cache (remove self.old.attempts at)
            (closed_by self.old.links number on (slice_get self.old.links on)) draft))
            (released self.old.cache.rows u)) self.old result self.new }
    {
        let session = self.links[on].session.copy()?;
        close_in(&mut self.links, on, number);
        match self.end_at(draft, at) {
            Ok(acts) => Ok(acts),
            Err(_) => {
                resume_in(&mut self.links, on, session);
                Err(Memory)
            }
        }
    }

    // The same, once the attempt is closed where it is placed.
    fn end_placed(&mut self, draft: Draft, at: usize, spot: Spot) -> Result<ForemanActs, Memory>
        requires { at < length self.old.attempts }
        ensures { (u : Attempt) → slice_get self.old.attempts at ≡ Some u
            → Leads (holding (settled (led_of self.old.cache (remove self.old.attempts at)
            (closed_on self.old.links (Some spot)) draft)) (released self.old.cache.rows u))
            self.old result self.new }
    {
        match find_link(&self.links, spot.link) {
            Some(on) => self.end_on(draft, at, on, spot.number),
            None => self.end_at(draft, at),
        }
    }

    // The attempt at a place goes back as not run, and is cancelled where it is placed.
    fn cancel_at(&mut self, at: usize) -> Result<ForemanActs, Memory>
        requires { at < length self.old.attempts }
        ensures { Leads (cancels_at self.old at (slice_get self.old.attempts at)) self.old result
            self.new }
    {
        let mut draft = Draft::of(self.alloc, self.next);
        draft.tell_not_run(&self.attempts[at])?;
        match self.attempts[at].spot {
            Some(spot) => {
                draft.cancel(spot)?;
                self.end_placed(draft, at, spot)
            }
            None => self.end_at(draft, at),
        }
    }

    fn cancel(&mut self, attempt: AttemptNo) -> Result<ForemanActs, Memory>
        ensures { Leads (cancels self.old attempt) self.old result self.new }
    {
        match find(&self.attempts, attempt) {
            Some(at) => self.cancel_at(at),
            None => Ok(ForemanActs::none(self.alloc)),
        }
    }

    /// What the foreman does on a message from its parent. A message that only goes up is
    /// unexpected. Without memory nothing changes. It costs one copy of a worker's session for each
    /// task and each Cancel that is sent to it, and touches no other worker's session.
    pub fn on_up(&mut self, message: Message) -> Result<ForemanActs, PeerFault>
        ensures { HearsUp (goes_up message) (hears_up self.old message) self.old result self.new }
    {
        let done = match message {
            Message::Put { key, content } => self.on_put(key, content),
            Message::Task(task) => self.on_task(&task),
            Message::Cancel { attempt } => self.cancel(attempt),
            Message::Unlink { key } => {
                let _held = self.cache.unlink(key);
                Ok(ForemanActs::none(self.alloc))
            }
            Message::Bye => Ok(ForemanActs::over(self.alloc)),
            Message::Hello { .. }
            | Message::Done { .. }
            | Message::Missing { .. }
            | Message::Totals { .. } => return Err(PeerFault::Unexpected),
        };
        match done {
            Ok(acts) => Ok(acts),
            Err(_) => Err(PeerFault::Memory),
        }
    }
}
