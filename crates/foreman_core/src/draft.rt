//! A step that is being made.
ghost use Rattle.std.specs.Prelude.{◌≡◌, ◌<◌, ◌≤◌, ◌∷◌, [], ◌++◌, insert, is_some, length, map, remove, if◌then◌else◌, None, IfOk, OnErr, OnOk, IfSome, slice_get, Some};
ghost use Rattle.std.specs.Vec.{vec_capacity, vec_len};
ghost use Rattle.std.specs.List.{position};
ghost use Rattle.flow_types.specs.declared.messages.Message.TheVariants as messages;
ghost use Rattle.foreman_core.specs.declared.links.Upstream.{Upstream as Attempt};
ghost use Rattle.foreman_core.specs.Drafts.{Places, before, led_of, taken_back};
ghost use Rattle.foreman_core.specs.Foremen.{each_amount, fits_among, largest_by, total_by};
ghost use Rattle.foreman_core.specs.Steps.{cancel_at, not_run, placed_by, sending, settled, settled_at};

use crate::acts::{Down, ForemanActs};
use crate::copies::renumber;
use crate::links::{Below, Spot, Upstream, exchange};
use crate::placed::{Placed, take_all_back};
use crate::room::fits;
use crate::sending::{send, send_all, tell, tell_all, tell_not_run};
use crate::totals::stated;
use flow_types::{AttemptNo, Memory, Message, Rows, Task};
use std::alloc::Global;
use std::marker::Model;
use worker_cache::Cache;

/// What is to be sent at a step, and the number of the next attempt below.
#[derive(Drop)]
pub(crate) struct Draft {
    alloc: Global,
    next: u128,
    up: Rows<Message>,
    down: Rows<Down>,
}

impl Model for Draft {
    ghost use Rattle.foreman_core.specs.Drafts.{Drafted};

    ghost Value = { Drafted };

    ghost view = { λ d. record {
      next = d.next;
      up = d.up;
      down = d.down;
    } };
}

// The least worker that a task fits, by its place.
fn place_for(
    cache: &Cache,
    attempts: &[Upstream],
    links: &[Below],
    task: &Task,
) -> Result<Option<usize>, Memory>
    ensures place { IfOk result (λ at. at
        ≡ position (fits_among cache.now.rows attempts.now task.now) links.now) }
    ensures within { IfOk result (λ at. IfSome at (λ on. on < length links.now)) }
{
    for (at, b) in links.iter().enumerate() {
        if fits(cache, attempts, task, b)? {
            return Ok(Some(at));
        }
    }
    Ok(None)
}

// The same of the attempt at a place, if it isn't placed.
fn aim(
    cache: &Cache,
    attempts: &[Upstream],
    links: &[Below],
    at: usize,
) -> Result<Option<usize>, Memory>
    requires { at < length attempts.now }
    ensures aimed { IfOk result (λ aimed. (u : Attempt) → slice_get attempts.now at ≡ Some u
        → aimed ≡ (if is_some u.spot then None
        else position (fits_among cache.now.rows attempts.now u.task) links.now)) }
    ensures within { IfOk result (λ aimed. IfSome aimed (λ on. (on < length links.now)
        × IfSome (slice_get attempts.now at) (λ u. u.spot ≡ None))) }
{
    let u = &attempts[at];
    if u.spot.is_some() {
        return Ok(None);
    }
    place_for(cache, attempts, links, &u.task)
}

impl Draft {
    /// A step at which nothing is sent yet. It takes no memory.
    pub(crate) fn of(alloc: Global, next: u128) -> Draft
        ensures { result ≡ record { next = next; up = []; down = [] } }
    {
        Draft {
            alloc,
            next,
            up: Rows::new(alloc),
            down: Rows::new(alloc),
        }
    }

    /// The step is done: what is to be sent, and the next number.
    pub(crate) fn done(self, next: &mut u128) -> ForemanActs
        ensures acts { result ≡ sending self.up self.down }
        ensures next { next.new ≡ self.next }
    {
        *next = self.next;
        ForemanActs::sending(self.up, self.down)
    }

    /// One more message to the parent.
    pub(crate) fn tell(&mut self, message: Message) -> Result<(), Memory>
        ensures { OnOk result (self.new
            ≡ record self.old { up = self.old.up ++ message ∷ [] }) }
    {
        tell(&mut self.up, message)
    }

    /// Tells the parent of an attempt that it came to no end.
    pub(crate) fn tell_not_run(&mut self, u: &Upstream) -> Result<(), Memory>
        ensures { OnOk result (self.new
            ≡ record self.old { up = self.old.up ++ not_run u.now ∷ [] }) }
    {
        tell_not_run(&mut self.up, u)
    }

    /// An attempt is cancelled where it is placed.
    pub(crate) fn cancel(&mut self, spot: Spot) -> Result<(), Memory>
        ensures { OnOk result (self.new
            ≡ record self.old { down = self.old.down ++ cancel_at (Some spot) }) }
    {
        let attempt = spot.number;
        send(&mut self.down, spot.link, Message::Cancel { attempt })
    }

    /// Tells the parent what the workers are together, with a cache of so many bytes.
    pub(crate) fn state(&mut self, links: &[Below], cache: u64) -> Result<(), Memory>
        ensures { OnOk result (self.new ≡ record self.old {
          up = self.old.up
              ++ messages.Totals (each_amount (λ amount. total_by amount links.now))
              (each_amount (λ amount. largest_by amount links.now)) cache ∷ [];
        }) }
    {
        tell(&mut self.up, stated(links, cache))
    }

    /// Tells the parent of each of these that it came to no end.
    pub(crate) fn tell_all(&mut self, gone: &[Upstream]) -> Result<(), Memory>
        ensures { OnOk result (self.new
            ≡ record self.old { up = self.old.up ++ map not_run gone.now }) }
    {
        tell_all(&mut self.up, gone)
    }

    // The next number below, as long as there is one.
    fn number(&self) -> Result<AttemptNo, Memory>
        ensures { IfOk result (λ number. number.0 ≡ self.now.next) }
    {
        if self.next > u64::MAX as u128 {
            return Err(Memory);
        }
        Ok(AttemptNo(self.next as u64))
    }

    // The attempt at a place goes to the worker at another place, under the next number. A copy of
    // the session there is changed, and exchanged once nothing can want memory any more.
    fn place(
        &mut self,
        cache: &Cache,
        attempts: &mut [Upstream],
        links: &mut [Below],
        at: usize,
        on: usize,
    ) -> Result<Placed, Memory>
        requires attempt { at < length attempts.old }
        requires worker { on < length links.old }
        ensures placed { OnOk result ((u : Attempt) → slice_get attempts.old at ≡ Some u
            → led_of cache.now attempts.new links.new self.new
            ≡ placed_by (led_of cache.now attempts.old links.old self.old) at u on
            (slice_get links.old on)) }
        ensures back { let old : Places = record { attempts = attempts.old; links = links.old } in
            let new : Places = record { attempts = attempts.new; links = links.new } in
            IfOk result (λ p. (u : Attempt) → slice_get attempts.old at ≡ Some u → u.spot ≡ None
            → taken_back p new ≡ old) }
        ensures err { OnErr result ((attempts.new ≡ attempts.old) × (links.new ≡ links.old)) }
    {
        let number = self.number()?;
        let task = renumber(self.alloc, &attempts[at].task, number)?;
        let link = links[on].link;
        let mut session = links[on].session.copy()?;
        // Numbers rise, so this one is never open there.
        if session.has(number) {
            return Err(Memory);
        }
        let files = session.start(&task)?;
        send_all(
            &mut self.down,
            self.alloc,
            cache,
            link,
            files.as_slice(),
            task,
        )?;
        let session = exchange(links, on, session);
        attempts[at].spot = Some(Spot { link, number });
        self.next += 1;
        Ok(Placed { at, on, session })
    }

    // The same, and how it is taken back stands behind these.
    fn place_more(
        &mut self,
        cache: &Cache,
        attempts: &mut [Upstream],
        links: &mut [Below],
        placed: &mut Vec<Placed>,
        at: usize,
        on: usize,
    ) -> Result<(), Memory>
        requires attempt { at < length attempts.old }
        requires worker { on < length links.old }
        requires kept { IfSome (slice_get attempts.old at) (λ u. u.spot ≡ None) }
        ensures placed { OnOk result ((u : Attempt) → slice_get attempts.old at ≡ Some u
            → led_of cache.now attempts.new links.new self.new
            ≡ placed_by (led_of cache.now attempts.old links.old self.old) at u on
            (slice_get links.old on)) }
        ensures back { let old : Places = record { attempts = attempts.old; links = links.old } in
            let new : Places = record { attempts = attempts.new; links = links.new } in
            before placed.new.items new ≡ before placed.old.items old }
    {
        if placed.reserve(1).is_err() {
            return Err(Memory);
        }
        let one = self.place(cache, attempts, links, at, on)?;
        placed.push_reserved(one);
        Ok(())
    }

    // The attempt at a place, if it isn't placed, goes to the least worker that it fits.
    fn settle_at(
        &mut self,
        cache: &Cache,
        attempts: &mut [Upstream],
        links: &mut [Below],
        placed: &mut Vec<Placed>,
        at: usize,
    ) -> Result<(), Memory>
        requires { at < length attempts.old }
        ensures settled { OnOk result (led_of cache.now attempts.new links.new self.new
            ≡ settled_at (led_of cache.now attempts.old links.old self.old) at
            (slice_get attempts.old at)) }
        ensures back { let old : Places = record { attempts = attempts.old; links = links.old } in
            let new : Places = record { attempts = attempts.new; links = links.new } in
            before placed.new.items new ≡ before placed.old.items old }
    {
        match aim(cache, attempts, links, at)? {
            Some(on) => self.place_more(cache, attempts, links, placed, at, on),
            None => Ok(()),
        }
    }

    // Each attempt that isn't placed is placed where it fits.
    fn settle_all(
        &mut self,
        cache: &Cache,
        attempts: &mut [Upstream],
        links: &mut [Below],
        placed: &mut Vec<Placed>,
    ) -> Result<(), Memory>
        ensures settled { OnOk result (led_of cache.now attempts.new links.new self.new
            ≡ settled (led_of cache.now attempts.old links.old self.old)) }
        ensures back { let old : Places = record { attempts = attempts.old; links = links.old } in
            let new : Places = record { attempts = attempts.new; links = links.new } in
            before placed.new.items new ≡ before placed.old.items old }
    {
        let count = attempts.len();
        for at in 0..count {
            self.settle_at(cache, attempts, links, placed, at)?;
        }
        Ok(())
    }

    /// Each attempt that isn't placed is placed where it fits. Without memory none is.
    pub(crate) fn settle(
        &mut self,
        cache: &Cache,
        attempts: &mut [Upstream],
        links: &mut [Below],
    ) -> Result<(), Memory>
        ensures settled { OnOk result (led_of cache.now attempts.new links.new self.new
            ≡ settled (led_of cache.now attempts.old links.old self.old)) }
        ensures err { OnErr result ((attempts.new ≡ attempts.old) × (links.new ≡ links.old)) }
    {
        let mut placed = Vec::new(self.alloc);
        match self.settle_all(cache, attempts, links, &mut placed) {
            Ok(()) => Ok(()),
            Err(_) => {
                take_all_back(placed, attempts, links);
                Err(Memory)
            }
        }
    }
}

/// Puts an item back at its place, where there is room.
pub(crate) fn put_back<T: Drop>(items: &mut Vec<T>, at: usize, item: T)
    requires within { at ≤ vec_len items.old }
    requires room { vec_len items.old < vec_capacity items.old }
    ensures items { items.new.items ≡ insert items.old.items at item }
    ensures capacity { vec_capacity items.new ≡ vec_capacity items.old }
{
    let _always = items.insert(at, item);
}

/// Takes the attempt at a place out, and each other one that isn't placed is placed where it fits.
/// Without memory it stands there again, and none is placed.
pub(crate) fn without(
    draft: &mut Draft,
    cache: &Cache,
    attempts: &mut Vec<Upstream>,
    links: &mut [Below],
    at: usize,
) -> Result<Upstream, Memory>
    requires { at < length attempts.old.items }
    ensures ended { IfOk result (λ u. slice_get attempts.old.items at ≡ Some u) }
    ensures settled { OnOk result (led_of cache.now attempts.new.items links.new draft.new
        ≡ settled (led_of cache.now (remove attempts.old.items at) links.old draft.old)) }
    ensures err { OnErr result ((attempts.new.items ≡ attempts.old.items)
        × (links.new ≡ links.old)) }
{
    let u = attempts.remove(at);
    match draft.settle(cache, attempts, links) {
        Ok(()) => Ok(u),
        Err(_) => {
            put_back(attempts, at, u);
            Err(Memory)
        }
    }
}
