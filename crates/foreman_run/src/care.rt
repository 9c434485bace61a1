//! What a foreman's own limits for a worker go by.
ghost use Rattle.std.specs.Prelude.{◌≡◌, ◌≤◌, ◌<◌, ◌+◌, IfSome, false, length, true};
ghost use Rattle.links.specs.Ill.{most_idles_before_hello};
ghost use Rattle.wq_messages.specs.declared.heads.Head.TheVariants as heads;
ghost use Rattle.foreman_run.specs.Lost.{most_refusals, refused_by};

use flow_types::{AttemptNo, Message};
use std::alloc::Global;
use std::marker::Model;
use wq_messages::{Ended, Head};

/// The bytes of a Hello with its length before it. Where so many came and no message, a peer is no
/// worker.
const HELLO_BYTES: usize = 39;

/// The most idle seconds before a worker's Hello.
const MOST_IDLES_BEFORE_HELLO: u64 = 8;

/// The most times in a row that a worker may answer NotRun. Then it is left, and may come again.
const MOST_NOT_RUN: u32 = 3;

/// How many seconds nothing goes to a worker that has attempts before it is sent a word that changes
/// nothing, so that the system notices where it is gone.
const SECONDS_TO_PROBE: u32 = 60;

/// The attempts that a worker has, and how it has answered so far.
#[derive(Drop)]
pub(crate) struct Care {
    // Its first message came.
    greeted: bool,
    // The bytes that came before its first message.
    early: usize,
    // The attempts that were asked, and neither answered nor cancelled.
    asked: Vec<AttemptNo>,
    // Above the number of each attempt that was asked.
    next: u64,
    // Above the number of each attempt that was asked before it last stated what it has. One of these
    // may come back as not run since it has less now, which is no fault of it.
    excused: u64,
    // How often in a row it answered NotRun, for attempts that may be counted.
    not_run: u32,
    // The seconds in which nothing was sent.
    quiet: u32,
}

impl Model for Care {
    ghost use Rattle.foreman_run.specs.Lowers.{CareState};

    ghost Value = { CareState };

    ghost view = { λ c. record { greeted = c.greeted; early = c.early; refused = c.not_run } };
}

impl Care {
    /// Nothing came yet.
    pub fn new(alloc: Global) -> Care
        ensures { result ≡ record { greeted = false; early = 0; refused = 0 } }
    {
        Care {
            greeted: false,
            early: 0,
            asked: Vec::new(alloc),
            next: 0,
            excused: 0,
            not_run: 0,
            quiet: 0,
        }
    }

    /// Whether its first message came.
    pub fn is_greeted(&self) -> bool
        ensures { result ≡ self.now.greeted }
    {
        self.greeted
    }

    // Where an attempt stands among those that were asked.
    fn place(asked: &[AttemptNo], attempt: AttemptNo) -> Option<usize>
        ensures { IfSome result (λ at. at < length asked.now) }
    {
        asked.iter().position(|asked| asked.0 == attempt.0)
    }

    // An attempt is asked. One for which there is no memory isn't counted among the worker's.
    fn ask(&mut self, attempt: AttemptNo)
        ensures { self.new ≡ self.old }
    {
        self.next = self.next.max(attempt.0.saturating_add(1));
        if Self::place(self.asked.as_slice(), attempt).is_none() {
            let _kept = self.asked.push(attempt);
        }
    }

    // An attempt isn't awaited any more. It answers whether it was.
    fn forget(&mut self, attempt: AttemptNo) -> bool
        ensures { self.new ≡ self.old }
    {
        match Self::place(self.asked.as_slice(), attempt) {
            Some(at) => {
                let _attempt = self.asked.remove(at);
                true
            }
            None => false,
        }
    }

    /// A message is sent.
    pub fn send(&mut self, message: &Message)
        ensures { self.new ≡ self.old }
    {
        self.quiet = 0;
        match message {
            Message::Task(task) => self.ask(task.attempt),
            Message::Cancel { attempt } => {
                let _asked = self.forget(*attempt);
            }
            _ => {}
        }
    }

    /// So many bytes came.
    pub fn take(&mut self, count: usize)
        ensures greeted { self.new.greeted ≡ self.old.greeted }
        ensures refused { self.new.refused ≡ self.old.refused }
        ensures early { self.new.early ≤ self.old.early + count }
    {
        if !self.greeted {
            self.early = self.early.saturating_add(count);
        }
    }

    /// Whether as many bytes came as a Hello has. Where no message is among them there will be none.
    pub fn is_stranger(&self) -> bool
        ensures { result ≡ true → (self.now.greeted ≡ false) × (39 ≤ self.now.early) }
    {
        !self.greeted && self.early >= HELLO_BYTES
    }

    // An attempt ended so. An answer to one that was cancelled tells nothing against the worker.
    fn end(&mut self, attempt: AttemptNo, ended: Ended)
        ensures greeted { self.new.greeted ≡ self.old.greeted }
        ensures early { self.new.early ≡ self.old.early }
        ensures refused { self.new.refused
            ≤ refused_by self.old.refused (heads.Done attempt ended) }
    {
        let was_asked = self.forget(attempt);
        match ended {
            Ended::Success | Ended::Failed(_) => self.not_run = 0,
            Ended::NotRun if !was_asked || attempt.0 < self.excused => {}
            Ended::NotRun => self.not_run = self.not_run.saturating_add(1),
        }
    }

    /// A whole message came.
    pub fn greet(&mut self)
        ensures { self.new ≡ record self.old { greeted = true } }
    {
        self.greeted = true;
    }

    /// Notes the message that came. It answers whether the worker can't run what it is asked for.
    pub fn hear(&mut self, head: Head) -> bool
        ensures greeted { self.new.greeted ≡ self.old.greeted }
        ensures early { self.new.early ≡ self.old.early }
        ensures refused { self.new.refused ≤ refused_by self.old.refused head }
        ensures tires { result ≡ true → most_refusals ≤ self.new.refused }
    {
        match head {
            Head::Done { attempt, ended } => self.end(attempt, ended),
            Head::Totals { .. } => self.excused = self.next,
            _ => {}
        }
        self.not_run >= MOST_NOT_RUN
    }

    /// Whether a link that was idle for so many seconds waits too long for its Hello.
    pub fn is_late(&self, idles: u64) -> bool
        ensures { result ≡ true
            → (self.now.greeted ≡ false) × (most_idles_before_hello ≤ idles) }
    {
        !self.greeted && idles >= MOST_IDLES_BEFORE_HELLO
    }

    /// A second has passed. It answers whether a worker with attempts was sent nothing for long.
    pub fn pass_second(&mut self) -> bool
        ensures { self.new ≡ self.old }
    {
        self.quiet = self.quiet.saturating_add(1);
        !self.asked.is_empty() && self.quiet >= SECONDS_TO_PROBE
    }
}
