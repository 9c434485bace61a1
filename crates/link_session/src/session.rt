//! The session of one link.
ghost use Rattle.std.specs.Prelude.{◌≡◌, ◌<◌, false, [], IfOk, OnOk, OnErr, IfSome, slice_get};
ghost use Rattle.flow_types.specs.declared.job.Outcome.{Outcome};
ghost use Rattle.flow_types.specs.declared.messages.Message.TheVariants as messages;
ghost use Rattle.wq_messages.specs.Heads.{ended_of};
ghost use Rattle.link_session.specs.declared.session.Stage.TheVariants as stages;
ghost use Rattle.link_session.specs.declared.word.SessionFault.TheVariants as faults;
ghost use Rattle.link_session.specs.Keys.{contains_key, forgotten, key_of, lacking};
ghost use Rattle.link_session.specs.Laws.{ClosesItsAttempt};
ghost use Rattle.link_session.specs.Sessions.{Comes, awaits_hello, breaks, closed_where, ended_at, greets, hears, is_open, lacked_at, missed_at, place, started, told};

use crate::fits::{has_files, may_end};
use crate::known::{copy_of, forget, forget_all, learn_all};
use crate::open::{Open, copies_of, find};
use crate::word::{SessionFault, Word};
use flow_types::{AttemptNo, FileNo, Key, Memory, Rows, Task};
use indexmap::IndexSet;
use std::alloc::Global;
use std::marker::Model;
use wq_messages::{Ended, Head, View};

/// How often inputs may be missing before the attempt is lost.
const MOST_MISSES: u64 = 2;

/// How far a session has come.
#[derive(Clone, Copy, PartialEq, Eq)]
pub(crate) enum Stage {
    /// No message came.
    New,
    /// The hello was heard.
    Greeted,
    /// Something unexpected came. No message means anything from then on.
    Broken,
}

/// What the upper end of a link knows of its peer: which keys it was sent, and which attempts are
/// open there. It sends nothing itself; each call answers what is to be sent.
#[derive(Drop)]
pub struct Session {
    alloc: Global,
    run: u64,
    stage: Stage,
    known: IndexSet<Key>,
    attempts: Vec<Open>,
}

impl Model for Session {
    ghost use Rattle.link_session.specs.Sessions.{AreApart, State};

    ghost Value = { State };

    ghost view = { λ s. record {
      run = s.run;
      stage = s.stage;
      known = s.known.keys;
      attempts = s.attempts.items;
    } };

    ghost invariant = { λ s. AreApart s.attempts.items };
}

impl Session {
    /// A session of this run, in which nothing was sent and nothing heard. It takes no memory. A
    /// peer that has no run of its own makes its sessions with 0.
    pub fn new(alloc: Global, run: u64) -> Session
        ensures { result ≡ record { run = run; stage = stages.New; known = []; attempts = [] } }
    {
        Session {
            alloc,
            run,
            stage: Stage::New,
            known: IndexSet::new(alloc),
            attempts: Vec::new(alloc),
        }
    }

    /// The run.
    pub fn run(&self) -> u64
        ensures { result ≡ self.now.run }
    {
        self.run
    }

    /// An equal session.
    pub fn copy(&self) -> Result<Session, Memory>
        ensures { IfOk result (λ copy. copy ≡ self.now) }
    {
        let known = copy_of(self.alloc, &self.known)?;
        let attempts = copies_of(self.alloc, self.attempts.as_slice())?;
        Ok(Session {
            alloc: self.alloc,
            run: self.run,
            stage: self.stage,
            known,
            attempts,
        })
    }

    /// Whether the hello is still to come: no message came.
    pub fn awaits_hello(&self) -> bool
        ensures { result ≡ awaits_hello self.now.stage }
    {
        matches!(self.stage, Stage::New)
    }

    /// Whether the attempt is open.
    pub fn has(&self, attempt: AttemptNo) -> bool
        ensures { result ≡ is_open attempt self.now.attempts }
    {
        find(self.attempts.as_slice(), attempt).is_some()
    }

    /// Opens the attempt of a task, and answers the files of its inputs that aren't known. The
    /// caller sends a Put for each of them, in this order, and then the task.
    pub fn start(&mut self, task: &Task) -> Result<Rows<FileNo>, Memory>
        requires { is_open task.now.attempt self.old.attempts ≡ false }
        ensures files { IfOk result (λ files. files
            ≡ lacking self.old.known task.now.run task.now.inputs) }
        ensures ok { OnOk result (self.new ≡ started self.old task.now) }
        ensures err { OnErr result (self.new ≡ self.old) }
    {
        let opened = Open::of(self.alloc, task)?;
        if self.attempts.reserve(1).is_err() {
            return Err(Memory);
        }
        let files = learn_all(
            &mut self.known,
            self.alloc,
            task.run,
            task.inputs.as_slice(),
        )?;
        self.attempts.push_reserved(opened);
        Ok(files)
    }

    /// Closes the attempt, and answers whether it was open. Where it was, the caller sends Cancel.
    pub fn cancel(&mut self, attempt: AttemptNo) -> bool
        ensures was { result ≡ is_open attempt self.old.attempts }
        ensures state { self.new ≡ closed_where self.old (place attempt self.old.attempts) }
        ensures closed { is_open attempt self.new.attempts ≡ false }
    {
        match find(self.attempts.as_slice(), attempt) {
            Some(at) => {
                let _ = self.attempts.remove(at);
                true
            }
            None => false,
        }
    }

    /// Notes that a file of the session's run is gone, and answers whether its key was known. Where
    /// it was, the caller sends Unlink.
    pub fn dropped(&mut self, file: FileNo) -> bool
        ensures was { result ≡ contains_key (key_of self.old.run file) self.old.known }
        ensures state { self.new
            ≡ record self.old { known = forgotten self.old.known (key_of self.old.run file) } }
    {
        forget(&mut self.known, self.run, file)
    }

    /// What a message of the peer means. The first has to be a Hello; behind it come a Done, a
    /// Missing or Totals, and what fits an open attempt or is about one that isn't open.
    pub fn on_message(&mut self, message: &View<'_>) -> Result<Word, SessionFault>
        ensures told { Comes (told self.old message.now) self.old result self.new }
        ensures closes { ClosesItsAttempt result self.old.attempts self.new.attempts }
    {
        match self.stage {
            Stage::New => self.greet(message),
            Stage::Greeted => self.hear(message),
            Stage::Broken => Err(SessionFault::Unexpected),
        }
    }

    // The first message.
    fn greet(&mut self, message: &View<'_>) -> Result<Word, SessionFault>
        ensures { Comes (greets self.old message.now) self.old result self.new }
    {
        match message.head() {
            Head::Hello {
                total,
                largest,
                cache,
            } => {
                self.stage = Stage::Greeted;
                Ok(Word::Joined {
                    total,
                    largest,
                    cache,
                })
            }
            _ => Err(self.refuse()),
        }
    }

    // A message behind the hello.
    fn hear(&mut self, message: &View<'_>) -> Result<Word, SessionFault>
        ensures { Comes (hears self.old message.now) self.old result self.new }
    {
        match message.head() {
            Head::Done { attempt, ended } => self.end(message, attempt, ended),
            Head::Missing { attempt } => {
                let files = message.missing(self.alloc)?;
                self.miss(attempt, files)
            }
            Head::Totals {
                total,
                largest,
                cache,
            } => Ok(Word::Changed {
                total,
                largest,
                cache,
            }),
            _ => Err(self.refuse()),
        }
    }

    // The peer spoke out of turn, or against a task.
    fn refuse(&mut self) -> SessionFault
        ensures answer { result ≡ faults.Unexpected }
        ensures state { self.new ≡ (breaks self.old).state }
    {
        self.stage = Stage::Broken;
        SessionFault::Unexpected
    }

    // The attempt has ended so.
    fn end(
        &mut self,
        message: &View<'_>,
        attempt: AttemptNo,
        ended: Ended,
    ) -> Result<Word, SessionFault>
        ensures { (outcome : Outcome) → message.now ≡ messages.Done attempt outcome
            → ended_of outcome ≡ ended
            → Comes (ended_at self.old attempt outcome (place attempt self.old.attempts)) self.old
            result self.new }
    {
        let Some(at) = find(self.attempts.as_slice(), attempt) else {
            return Ok(Word::Stale(attempt));
        };
        let Some(open) = self.attempts.get(at) else {
            return Ok(Word::Stale(attempt));
        };
        if !may_end(open.bounds.as_slice(), message, ended) {
            return Err(self.refuse());
        }
        let _ = self.attempts.remove(at);
        Ok(Word::of_end(attempt, ended))
    }

    // The peer lacks these inputs of the attempt.
    fn miss(&mut self, attempt: AttemptNo, files: Rows<FileNo>) -> Result<Word, SessionFault>
        ensures { Comes (lacked_at self.old attempt files (place attempt self.old.attempts))
            self.old result self.new }
    {
        let Some(at) = find(self.attempts.as_slice(), attempt) else {
            return Ok(Word::Stale(attempt));
        };
        let Some(open) = self.attempts.get(at) else {
            return Ok(Word::Stale(attempt));
        };
        if !has_files(open.files.as_slice(), files.as_slice()) {
            return Err(self.refuse());
        }
        if open.misses < MOST_MISSES {
            add_miss(&mut self.attempts, at);
            return Ok(Word::PutAgain { attempt, files });
        }
        forget_all(&mut self.known, open.run, files.as_slice());
        let _ = self.attempts.remove(at);
        Ok(Word::Lose(attempt))
    }
}

// Counts one time more that inputs were missing.
fn add_miss(attempts: &mut Vec<Open>, at: usize)
    requires { IfSome (slice_get attempts.old.items at) (λ o. o.misses < 2) }
    ensures { attempts.new.items
        ≡ missed_at attempts.old.items at (slice_get attempts.old.items at) }
{
    if let Some(open) = attempts.get_mut(at) {
        open.misses += 1;
    }
}
