//! The tasks of a queue.
ghost use Rattle.std.specs.Prelude.{◌≡◌, ◌≤◌, ◌⊎◌, ◌+◌, None, Some, IfErr, IfOk, OnErr, OnOk, is_some, length};
ghost use Rattle.task_book.specs.declared.refused.SubmitRefused.TheVariants as refusals;
ghost use Rattle.task_book.specs.Kept.{AreKept, cancelled_at, next_id, nothing_kept, place_of, submitted_to};
ghost use Rattle.task_book.specs.Submissions.{IsShort, submit_refusal};

use crate::files::Files;
use crate::limits::{is_good, unknown_file};
use crate::line::Line;
use crate::refused::SubmitRefused;
use crate::task::{Given, Held, Stage, Submission, TaskId};
use flow_types::Memory;
use std::alloc::Global;
use std::marker::Model;

/// The most tasks that are held.
const MOST_HELD: usize = 100_000;

/// The tasks of a queue, by what became of each. For each held task there is room among the given
/// and among the cancelled ones, so that no task that leaves takes memory.
#[derive(Drop)]
pub struct Book {
    pub(crate) submitted: Vec<TaskId>,
    pub(crate) given: Vec<Given>,
    pub(crate) cancelled: Vec<TaskId>,
    pub(crate) held: Line,
}

impl Model for Book {
    ghost use Rattle.std.specs.Vec.{vec_capacity};
    ghost use Rattle.task_book.specs.Kept.{Kept};
    ghost use Rattle.task_book.specs.Books.{IsBook};

    ghost Value = { Kept };

    ghost view = { λ b. record {
      submitted = b.submitted.items;
      given = b.given.items;
      cancelled = b.cancelled.items;
      held = b.held;
    } };

    ghost invariant = { λ b. IsBook (record {
      submitted = b.submitted.items;
      given = b.given.items;
      cancelled = b.cancelled.items;
      held = b.held;
    }) (vec_capacity b.given) (vec_capacity b.cancelled) };
}

impl Book {
    /// Nothing was submitted. It takes no memory.
    pub fn new(alloc: Global) -> Book
        ensures { result ≡ nothing_kept }
    {
        Book {
            submitted: Vec::new(alloc),
            given: Vec::new(alloc),
            cancelled: Vec::new(alloc),
            held: Line::new(alloc),
        }
    }

    /// How many tasks are held.
    pub fn count(&self) -> usize
        ensures count { result ≡ length self.now.held }
        ensures kept { AreKept self.now }
    {
        self.held.count()
    }

    /// Takes a task, and answers its id. The task waits from then on.
    pub fn submit(&mut self, files: &Files, task: Submission) -> Result<TaskId, SubmitRefused>
        ensures ok { IfOk result (λ id. (id ≡ next_id self.old)
            × (self.new ≡ submitted_to self.old task)) }
        ensures taken { OnOk result
            (submit_refusal files.now (length self.old.held) task ≡ None) }
        ensures err { OnErr result (self.new ≡ self.old) }
        ensures refused { IfErr result (λ why. (why ≡ refusals.Memory)
            ⊎ (submit_refusal files.now (length self.old.held) task ≡ Some why)) }
    {
        if self.held.count() >= MOST_HELD {
            return Err(SubmitRefused::TooMany);
        }
        if let Some(file) = unknown_file(files.count(), task.inputs.as_slice()) {
            return Err(SubmitRefused::UnknownFile(file));
        }
        if !is_good(files, &task) {
            return Err(SubmitRefused::BadSubmission);
        }
        match self.hold(task) {
            Ok(id) => Ok(id),
            Err(_) => Err(SubmitRefused::Memory),
        }
    }

    // Holds one task more, which waits.
    fn hold(&mut self, task: Submission) -> Result<TaskId, Memory>
        requires { IsShort task }
        ensures ok { IfOk result (λ id. (id ≡ next_id self.old)
            × (self.new ≡ submitted_to self.old task)) }
        ensures err { OnErr result (self.new ≡ self.old) }
    {
        let more = self.held.count() + 1;
        if self.given.reserve(more).is_err() {
            return Err(Memory);
        }
        if self.cancelled.reserve(more).is_err() {
            return Err(Memory);
        }
        if self.submitted.reserve(1).is_err() {
            return Err(Memory);
        }
        let id = TaskId(self.submitted.len() as u64);
        let stage = Stage::Waits;
        if self.held.push(Held { id, task, stage }).is_err() {
            return Err(Memory);
        }
        self.submitted.push_reserved(id);
        Ok(id)
    }

    /// Lets a task go, and answers whether it was held. It takes no memory.
    pub fn cancel(&mut self, id: TaskId) -> bool
        ensures was { result ≡ is_some (place_of id self.old.held) }
        ensures gone { self.new ≡ cancelled_at self.old id (place_of id self.old.held) }
    {
        let Some(at) = self.held.place_of(id) else {
            return false;
        };
        self.cancelled.push_reserved(id);
        let _ = self.held.remove(at);
        true
    }
}
