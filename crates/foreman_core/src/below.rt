//! A foreman that hears its workers.
ghost use Rattle.std.specs.Prelude.{◌≡◌, ◌<◌, length, nat_lt, slice_get, slice_set, if◌then◌else◌, IfOk, Some};
ghost use Rattle.link_session.specs.Sessions.{told};
ghost use Rattle.foreman_core.specs.declared.links.Upstream.{Upstream as Attempt};
ghost use Rattle.foreman_core.specs.Answers.{HearsDown, Leads};
ghost use Rattle.foreman_core.specs.Drafts.{resumed};
ghost use Rattle.foreman_core.specs.Foremen.{joined, most_links};
ghost use Rattle.foreman_core.specs.Steps.{drops, ends_at, greeted, heard_at, hears_down, kept_at, new_session, on_word, outcome_in, puts_again, restated, restates_at, stated_at, with_attempt};

use crate::acts::ForemanActs;
use crate::copies::renumber;
use crate::draft::Draft;
use crate::foreman::ForemanCore;
use crate::links::{Below, Spot, Upstream, exchange_in, find_at, find_link, join, resume_in};
use crate::sending::send_all;
use flow_types::{Amounts, AttemptNo, FileNo, LinkNo, Memory, Message, Outcome, Rows};
use link_session::{Session, SessionFault, Word};
use std::alloc::Global;
use wq_messages::{PeerFault, View};

/// The most workers that a foreman has at once.
const MOST_LINKS: usize = 32;

// The outcome that a Done tells.
fn outcome_of(alloc: Global, message: &View<'_>) -> Result<Outcome, Memory>
    ensures { IfOk result (λ outcome. outcome ≡ outcome_in message.now) }
{
    match message.to_message(alloc)? {
        Message::Done { outcome, .. } => Ok(outcome),
        _ => Ok(Outcome::NotRun),
    }
}

// The worker at a place states something else from now on.
fn state_at(links: &mut [Below], on: usize, total: Amounts, largest: Amounts, cache: u64)
    requires { on < length links.old }
    ensures { links.new ≡ stated_at links.old on (slice_get links.old on) total largest cache }
{
    let b = &mut links[on];
    b.total = total;
    b.largest = largest;
    b.cache = cache;
}

// The same in a list of workers.
fn state_in(links: &mut Vec<Below>, on: usize, total: Amounts, largest: Amounts, cache: u64)
    requires { on < length links.old.items }
    ensures { links.new.items
        ≡ stated_at links.old.items on (slice_get links.old.items on) total largest cache }
{
    state_at(links, on, total, largest, cache);
}

// The attempt at a place is placed here.
#[tactic(auto, using(crate::proofs::Undoing::respotted_past))]
fn respot(attempts: &mut Vec<Upstream>, at: usize, spot: Option<Spot>)
    ensures { (u : Attempt) → slice_get attempts.old.items at ≡ Some u → attempts.new.items
        ≡ slice_set attempts.old.items at (record { task = u.task; spot = spot }) }
{
    if at < attempts.len() {
        attempts[at].spot = spot;
    }
}

impl ForemanCore {
    // An attempt ended below.
    fn end(
        &mut self,
        link: LinkNo,
        number: AttemptNo,
        outcome: Outcome,
    ) -> Result<ForemanActs, Memory>
        ensures { Leads (with_attempt self.old link number (ends_at self.old outcome)) self.old
            result self.new }
    {
        let Some(at) = find_at(&self.attempts, link, number) else {
            return Ok(ForemanActs::none(self.alloc));
        };
        let attempt = self.attempts[at].task.attempt;
        let mut draft = Draft::of(self.alloc, self.next);
        draft.tell(Message::Done { attempt, outcome })?;
        self.end_at(draft, at)
    }

    // The attempt at a place came to no end below.
    fn keep_at(&mut self, at: usize) -> Result<ForemanActs, Memory>
        requires { at < length self.old.attempts }
        ensures { Leads (kept_at self.old at (slice_get self.old.attempts at)) self.old result
            self.new }
    {
        let draft = Draft::of(self.alloc, self.next);
        let spot = self.attempts[at].spot;
        respot(&mut self.attempts, at, None);
        match self.finish(draft) {
            Ok(acts) => Ok(acts),
            Err(_) => {
                respot(&mut self.attempts, at, spot);
                Err(Memory)
            }
        }
    }

    // An attempt came to no end below.
    fn keep_on(&mut self, link: LinkNo, number: AttemptNo) -> Result<ForemanActs, Memory>
        ensures { Leads (with_attempt self.old link number (kept_at self.old)) self.old result
            self.new }
    {
        match find_at(&self.attempts, link, number) {
            Some(at) => self.keep_at(at),
            None => Ok(ForemanActs::none(self.alloc)),
        }
    }

    // The Puts of these files of the attempt at a place, and its task behind them.
    fn put_at(
        &self,
        at: usize,
        link: LinkNo,
        number: AttemptNo,
        files: &[FileNo],
    ) -> Result<ForemanActs, Memory>
        requires { at < length self.now.attempts }
        ensures { IfOk result (λ acts. acts ≡ (puts_again self.now link number files.now
            (slice_get self.now.attempts at)).acts) }
    {
        let task = renumber(self.alloc, &self.attempts[at].task, number)?;
        let mut down = Rows::new(self.alloc);
        send_all(&mut down, self.alloc, &self.cache, link, files, task)?;
        Ok(ForemanActs::sending(Rows::new(self.alloc), down))
    }

    // The worker lacks these inputs of an attempt.
    fn put_again(
        &mut self,
        link: LinkNo,
        number: AttemptNo,
        files: &[FileNo],
    ) -> Result<ForemanActs, Memory>
        ensures { Leads (with_attempt self.old link number
            (λ at u. puts_again self.old link number files.now u)) self.old result self.new }
    {
        match find_at(&self.attempts, link, number) {
            Some(at) => self.put_at(at, link, number, files),
            None => Ok(ForemanActs::none(self.alloc)),
        }
    }

    // What the workers are together is told.
    fn state_anew(&mut self) -> Result<ForemanActs, Memory>
        ensures { Leads (restated self.old) self.old result self.new }
    {
        let mut draft = Draft::of(self.alloc, self.next);
        draft.state(&self.links, self.cache.cap())?;
        self.finish(draft)
    }

    // The worker at a place states something else from now on.
    fn restate(
        &mut self,
        on: usize,
        total: Amounts,
        largest: Amounts,
        cache: u64,
    ) -> Result<ForemanActs, Memory>
        requires { on < length self.old.links }
        ensures { Leads (restates_at self.old on total largest cache) self.old result self.new }
    {
        let b = &self.links[on];
        let (total_before, largest_before, cache_before) = (b.total, b.largest, b.cache);
        state_in(&mut self.links, on, total, largest, cache);
        match self.state_anew() {
            Ok(acts) => Ok(acts),
            Err(_) => {
                state_in(
                    &mut self.links,
                    on,
                    total_before,
                    largest_before,
                    cache_before,
                );
                Err(Memory)
            }
        }
    }

    // What a word of a worker's session means, once the session is as it is then.
    fn on_word(
        &mut self,
        link: LinkNo,
        on: usize,
        message: &View<'_>,
        word: Word,
    ) -> Result<ForemanActs, Memory>
        requires { on < length self.old.links }
        ensures { Leads (on_word self.old link on message.now word) self.old result self.new }
    {
        match word {
            Word::Changed {
                total,
                largest,
                cache,
            } => self.restate(on, total, largest, cache),
            Word::Finish(number) => {
                let outcome = outcome_of(self.alloc, message)?;
                self.end(link, number, outcome)
            }
            Word::Fail(number, why) => self.end(link, number, Outcome::Failed(why)),
            Word::Lose(number) => self.keep_on(link, number),
            Word::PutAgain { attempt, files } => self.put_again(link, attempt, files.as_slice()),
            Word::Joined { .. } | Word::Stale(_) => Ok(ForemanActs::none(self.alloc)),
        }
    }

    // The worker at a place has this session from now on, and this is what its word means. Without
    // memory it has its own again.
    fn turn(
        &mut self,
        link: LinkNo,
        on: usize,
        session: Session,
        message: &View<'_>,
        word: Word,
    ) -> Result<ForemanActs, Memory>
        requires { on < length self.old.links }
        ensures { Leads (on_word (record self.old {
          links = resumed self.old.links on session (slice_get self.old.links on);
        }) link on message.now word) self.old result self.new }
    {
        let own = exchange_in(&mut self.links, on, session);
        match self.on_word(link, on, message, word) {
            Ok(acts) => Ok(acts),
            Err(_) => {
                resume_in(&mut self.links, on, own);
                Err(Memory)
            }
        }
    }

    // A message of the worker at a place. It is heard in a copy of its session.
    fn hear(&mut self, link: LinkNo, on: usize, message: &View<'_>) -> Result<ForemanActs, Memory>
        requires { on < length self.old.links }
        ensures { Leads (heard_at self.old link on message.now (slice_get self.old.links on))
            self.old result self.new }
    {
        let mut session = self.links[on].session.copy()?;
        match session.on_message(message) {
            Ok(word) => self.turn(link, on, session, message, word),
            Err(SessionFault::Unexpected) => self.leave(link),
            Err(SessionFault::Memory) => Err(Memory),
        }
    }

    // A worker joins.
    fn add(&mut self, b: Below) -> Result<ForemanActs, Memory>
        ensures { Leads (restated (record self.old { links = joined b self.old.links })) self.old
            result self.new }
    {
        let on = join(&mut self.links, b)?;
        match self.state_anew() {
            Ok(acts) => Ok(acts),
            Err(_) => {
                let _joined = self.links.remove(on);
                Err(Memory)
            }
        }
    }

    // A worker joins, unless as many are there as may be.
    fn join(&mut self, b: Below) -> Result<ForemanActs, Memory>
        ensures { Leads (if nat_lt (length self.old.links) most_links
            then restated (record self.old { links = joined b self.old.links })
            else drops self.old b.link) self.old result self.new }
    {
        if self.links.len() < MOST_LINKS {
            self.add(b)
        } else {
            self.leave(b.link)
        }
    }

    // A first message on a link.
    fn greet(&mut self, link: LinkNo, message: &View<'_>) -> Result<ForemanActs, Memory>
        ensures { Leads (greeted self.old link (told new_session message.now).state
            (told new_session message.now).answer) self.old result self.new }
    {
        let mut session = Session::new(self.alloc, 0);
        match session.on_message(message) {
            Ok(
                Word::Joined {
                    total,
                    largest,
                    cache,
                },
            ) => self.join(Below {
                link,
                total,
                largest,
                cache,
                session,
            }),
            Ok(_) | Err(SessionFault::Unexpected) => self.leave(link),
            Err(SessionFault::Memory) => Err(Memory),
        }
    }

    // A message from below, in the session of its link.
    fn heard(&mut self, link: LinkNo, message: &View<'_>) -> Result<ForemanActs, Memory>
        ensures { Leads (hears_down self.old link message.now) self.old result self.new }
    {
        match find_link(&self.links, link) {
            Some(on) => self.hear(link, on, message),
            None => self.greet(link, message),
        }
    }

    /// What the foreman does on a message from the worker at a link. A first message has to be a
    /// Hello; where it isn't, where 32 other workers are there, and where a worker speaks out of
    /// turn, the link is to be left, and is lost. Without memory nothing changes. It costs one copy
    /// of this worker's session, and one of a worker's session for each task that is sent to it
    /// then: 31 other workers that hold much make no message dearer. Where the link is lost it costs
    /// what `on_lost` does.
    pub fn on_down(&mut self, link: LinkNo, message: &View<'_>) -> Result<ForemanActs, PeerFault>
        ensures { HearsDown (hears_down self.old link message.now) self.old result self.new }
    {
        match self.heard(link, message) {
            Ok(acts) => Ok(acts),
            Err(_) => Err(PeerFault::Memory),
        }
    }
}
