//! What a peer is told and asked.
ghost use Rattle.std.specs.Prelude.{◌≡◌, ◌≤◌, ◌<◌, ◌+◌, ◌∷◌, [], ℕ, List, Option, None, Some, IfOk, IfSome, OnOk, length, slice_get, true};
ghost use Rattle.std.specs.List.{AllByRecursion};
ghost use Rattle.flow_types.specs.declared.job.Task.{Task as TaskValue};
ghost use Rattle.flow_types.specs.declared.messages.Key.{Key as KeyValue};
ghost use Rattle.flow_types.specs.declared.messages.Message.TheVariants as messages;
ghost use Rattle.flow_types.specs.declared.numbers.AttemptNo.{AttemptNo as NumberValue};
ghost use Rattle.link_session.specs.Keys.{key_of};
ghost use Rattle.peers.specs.Provides.{keys_of};
ghost use Rattle.peers.specs.States.{GoesOn, OnlyMemory};
ghost use Rattle.task_book.specs.declared.task.Held.{Held as HeldValue};
ghost use Rattle.task_book.specs.declared.task.Submission.{Submission as SubmissionValue};
ghost use Rattle.task_book.specs.declared.task.TaskId.{TaskId as IdValue};
ghost use Rattle.task_book.specs.Kept.{place_running};
ghost use Rattle.task_book.specs.Stages.{EndsOn, Runs};
ghost use Rattle.task_book.specs.Submissions.{IsShort, unknown_file};
ghost use Rattle.wq_messages.specs.Spelling.{HasCounts, most_body, spelling};
ghost use Rattle.wq_seats.specs.declared.run.Again.{Again as AgainValue};
ghost use Rattle.wq_seats.specs.Works.{IsKnown, GoesOnAs};
ghost use Rattle.wq_seats.specs.Tellings.{StopsAll};
ghost use Rattle.wq_seats.specs.Seats.{HasRun, IsAtWork, IsOwnTask, KeepsRuns, MayAsk, own_run};

use super::Seat;
use crate::copies::{OWN_RUN, task_of};
use crate::run::{Again, Run};
use flow_types::{AttemptNo, Bytes, FileNo, Key, Rows, Task};
use links::Link;
use outside::Commands;
use peers::{Leave, sure_links_are_orderly};
use std::alloc::Global;
use task_book::{Book, Files, Submission, TaskId};

impl<F: Commands, L: Link<F>> Seat<F, L> {
    // Puts a file. There is one of each number that a task names.
    fn put(&mut self, alloc: Global, files: &Files, file: FileNo) -> Result<(), Leave>
        ensures only { self.new ≡ record self.old { peer = self.new.peer } }
        ensures asks { (held : List HeldValue) (next : ℕ) (task : TaskValue)
            (left : List KeyValue) → L.tells
            → MayAsk F.gives F.may_fail L.history files.now held next self.old task
            (key_of own_run file ∷ left) → OnOk result
            (MayAsk F.gives F.may_fail L.history files.now held next self.new task left) }
        ensures works { (held : List HeldValue) (next : ℕ) (again : Option AgainValue) → L.tells
            → IsAtWork F.gives F.may_fail L.history files.now held next
            (record self.old { again = again })
            → OnOk result (IsAtWork F.gives F.may_fail L.history files.now held next
            (record self.new { again = again })) }
        ensures on { GoesOn L.honest L.sure L.offers self.old.peer.way self.new.peer.way }
        ensures calm { L.sure self.old.peer.way → file.0 < length files.now
            → OnlyMemory result }
    {
        let Some(content) = files.content(file) else {
            return Err(Leave::Unexpected);
        };
        let Ok(content) = Bytes::of(alloc, content) else {
            return Err(Leave::Memory);
        };
        let key = Key { run: OWN_RUN, file };
        self.peer.put(alloc, key, content)
    }

    // Puts these files, in order.
    fn put_all(&mut self, alloc: Global, files: &Files, wanted: &[FileNo]) -> Result<(), Leave>
        ensures only { self.new ≡ record self.old { peer = self.new.peer } }
        ensures asks { (held : List HeldValue) (next : ℕ) (task : TaskValue) → L.tells
            → MayAsk F.gives F.may_fail L.history files.now held next self.old task
            (keys_of own_run wanted.now) → OnOk result
            (MayAsk F.gives F.may_fail L.history files.now held next self.new task []) }
        ensures works { (held : List HeldValue) (next : ℕ) (again : Option AgainValue) → L.tells
            → IsAtWork F.gives F.may_fail L.history files.now held next
            (record self.old { again = again })
            → OnOk result (IsAtWork F.gives F.may_fail L.history files.now held next
            (record self.new { again = again })) }
        ensures on { GoesOn L.honest L.sure L.offers self.old.peer.way self.new.peer.way }
        ensures calm { L.sure self.old.peer.way
            → AllByRecursion (λ file. file.0 < length files.now) wanted.now → OnlyMemory result }
    {
        for file in wanted {
            match self.put(alloc, files, *file) {
                Ok(()) => {}
                Err(leave) => return Err(leave),
            }
        }
        Ok(())
    }

    // Opens a task there, where its attempt isn't open, and answers the files that are to be put.
    fn open(&mut self, id: TaskId, task: &Task, bytes: u64) -> Result<Rows<FileNo>, Leave>
        ensures gone { self.new.gone ≡ self.old.gone }
        ensures way { self.new.peer.way ≡ self.old.peer.way }
        ensures asks { (files : List (List ℕ)) (held : List HeldValue) (next : ℕ) → L.tells
            → task.now.attempt.0 ≡ next
            → IsAtWork F.gives F.may_fail L.history files held next self.old
            → IfOk result (λ wanted. MayAsk F.gives F.may_fail L.history files held next self.new
            task.now (keys_of task.now.run wanted)) }
        ensures on { GoesOn L.honest L.sure L.offers self.old.peer.way self.new.peer.way }
        ensures run { OnOk result (HasRun id task.now.attempt self.new.runs) }
        ensures keeps { (other : IdValue) (attempt : NumberValue)
            → HasRun other attempt self.old.runs → HasRun other attempt self.new.runs }
        ensures known { (n : ℕ) → unknown_file n task.now.inputs ≡ None
            → IfOk result (AllByRecursion (λ file. file.0 < n)) }
        ensures calm { (files : List (List ℕ)) (held : List HeldValue) (next : ℕ) → L.tells
            → task.now.attempt.0 ≡ next
            → IsAtWork F.gives F.may_fail L.history files held next self.old
            → OnlyMemory result }
    {
        if self.peer.has(task.attempt) {
            return Err(Leave::Unexpected);
        }
        let Ok(wanted) = self.peer.open(task) else {
            return Err(Leave::Memory);
        };
        if !self.hold(id, task.attempt, task.needs, bytes) {
            return Err(Leave::Memory);
        }
        Ok(wanted)
    }

    // Asks for a task, one that waits to be asked for or one that is to be asked for once more.
    fn ask(&mut self, alloc: Global, task: Task) -> Result<(), Leave>
        requires counts { HasCounts (messages.Task task) }
        requires short { length (spelling (messages.Task task)) ≤ most_body }
        ensures only { self.new ≡ record self.old { peer = self.new.peer } }
        ensures asked { (files : List (List ℕ)) (held : List HeldValue) (next : ℕ) → L.tells
            → task.attempt.0 ≡ next → IsOwnTask held task
            → MayAsk F.gives F.may_fail L.history files held next self.old task []
            → OnOk result (IsAtWork F.gives F.may_fail L.history files held (1 + next)
            self.new) }
        ensures once_more { (files : List (List ℕ)) (held : List HeldValue) (next : ℕ)
            (again : AgainValue) (own : SubmissionValue) → L.tells → Runs held task.attempt own
            → IsOwnTask held task → again.attempt ≡ task.attempt
            → IsAtWork F.gives F.may_fail L.history files held next
            (record self.old { again = Some again })
            → OnOk result (IsAtWork F.gives F.may_fail L.history files held next
            (record self.new { again = Some again })) }
        ensures on { GoesOn L.honest L.sure L.offers self.old.peer.way self.new.peer.way }
        ensures calm { L.sure self.old.peer.way → OnlyMemory result }
    {
        self.peer.ask(alloc, task)
    }

    /// Begins a task there with the next attempt: it puts what the peer lacks, and asks. After an
    /// error the peer is to be left.
    pub(crate) fn begin(
        &mut self,
        alloc: Global,
        files: &Files,
        id: TaskId,
        task: &Submission,
        attempt: AttemptNo,
        bytes: u64,
    ) -> Result<(), Leave>
        requires { IsShort task.now }
        ensures gone { self.new.gone ≡ self.old.gone }
        ensures works { (held : List HeldValue) → L.tells
            → ((s : SubmissionValue) → Runs held attempt s → s ≡ task.now)
            → IsAtWork F.gives F.may_fail L.history files.now held attempt.0 self.old
            → OnOk result (IsAtWork F.gives F.may_fail L.history files.now held
            (1 + attempt.0) self.new) }
        ensures on { GoesOn L.honest L.sure L.offers self.old.peer.way self.new.peer.way }
        ensures run { OnOk result (HasRun id attempt self.new.runs) }
        ensures keeps { (other : IdValue) (number : NumberValue)
            → HasRun other number self.old.runs → HasRun other number self.new.runs }
        ensures calm { (held : List HeldValue) → L.tells
            → IsAtWork F.gives F.may_fail L.history files.now held attempt.0 self.old
            → L.sure self.old.peer.way → IsKnown files.now task.now → OnlyMemory result }
    {
        let Ok(sent) = task_of(alloc, task, attempt) else {
            return Err(Leave::Memory);
        };
        let wanted = match self.open(id, &sent, bytes) {
            Ok(wanted) => wanted,
            Err(leave) => return Err(leave),
        };
        match self.put_all(alloc, files, wanted.as_slice()) {
            Ok(()) => self.ask(alloc, sent),
            Err(leave) => Err(leave),
        }
    }

    // Puts again what the peer lacks, and asks once more, where the task runs still.
    fn ask_again(
        &mut self,
        alloc: Global,
        files: &Files,
        book: &Book,
        again: &Again,
    ) -> Result<(), Leave>
        ensures only { self.new ≡ record self.old { peer = self.new.peer } }
        ensures works { (next : ℕ) → L.tells
            → IsAtWork F.gives F.may_fail L.history files.now book.now.held next
            (record self.old { again = Some again.now })
            → OnOk result (IsAtWork F.gives F.may_fail L.history files.now book.now.held next
            (record self.new { again = Some again.now })) }
        ensures on { GoesOn L.honest L.sure L.offers self.old.peer.way self.new.peer.way }
    {
        let Some(id) = self.id_of(again.attempt) else {
            return Ok(());
        };
        let Some(task) = book.running(id, again.attempt) else {
            return Ok(());
        };
        let Ok(sent) = task_of(alloc, task, again.attempt) else {
            return Err(Leave::Memory);
        };
        match self.put_all(alloc, files, again.files.as_slice()) {
            Ok(()) => self.ask(alloc, sent),
            Err(leave) => Err(leave),
        }
    }

    // Cancels the first attempt that runs there and with which no held task runs. It answers
    // whether there was one.
    fn cancel_next(&mut self, alloc: Global, book: &Book) -> Result<bool, Leave>
        ensures only { self.new ≡ record self.old {
          peer = self.new.peer;
          runs = self.new.runs;
        } }
        ensures works { (files : List (List ℕ)) (next : ℕ) → L.tells
            → IsAtWork F.gives F.may_fail L.history files book.now.held next self.old
            → OnOk result (IsAtWork F.gives F.may_fail L.history files book.now.held next
            self.new) }
        ensures on { GoesOn L.honest L.sure L.offers self.old.peer.way self.new.peer.way }
        ensures keeps { KeepsRuns book.now.held book.now.held self.old self.new }
        ensures calm { L.sure self.old.peer.way → OnlyMemory result }
    {
        let Some(at) = first_gone(self.runs.as_slice(), book) else {
            return Ok(false);
        };
        let run = self.runs.remove(at);
        match self.peer.cancel(alloc, run.attempt) {
            Ok(_) => Ok(true),
            Err(leave) => Err(leave),
        }
    }

    // Cancels the attempts that run there and with which no held task runs.
    fn cancel_gone(&mut self, alloc: Global, book: &Book) -> Result<(), Leave>
        ensures only { self.new ≡ record self.old {
          peer = self.new.peer;
          runs = self.new.runs;
        } }
        ensures works { (files : List (List ℕ)) (next : ℕ) → L.tells
            → IsAtWork F.gives F.may_fail L.history files book.now.held next self.old
            → OnOk result (IsAtWork F.gives F.may_fail L.history files book.now.held next
            self.new) }
        ensures on { GoesOn L.honest L.sure L.offers self.old.peer.way self.new.peer.way }
        ensures keeps { KeepsRuns book.now.held book.now.held self.old self.new }
        ensures calm { L.sure self.old.peer.way → OnlyMemory result }
    {
        for _ in 0..self.runs.len() {
            match self.cancel_next(alloc, book) {
                Ok(true) => {}
                Ok(false) => return Ok(()),
                Err(leave) => return Err(leave),
            }
        }
        Ok(())
    }

    /// Cancels what was cancelled, and gives what the peer lacks. After an error the peer is to be
    /// left.
    pub(crate) fn tell(&mut self, alloc: Global, files: &Files, book: &Book) -> Result<(), Leave>
        ensures gone { self.new.gone ≡ self.old.gone }
        ensures keeps { KeepsRuns book.now.held book.now.held self.old self.new }
        ensures calm { (next : ℕ) → L.tells
            → IsAtWork F.gives F.may_fail L.history files.now book.now.held next self.old
            → L.sure self.old.peer.way → OnlyMemory result }
        ensures works { (next : ℕ) → L.tells
            → IsAtWork F.gives F.may_fail L.history files.now book.now.held next self.old
            → OnOk result (IsAtWork F.gives F.may_fail L.history files.now
            book.now.held next self.new) }
        ensures on { GoesOn L.honest L.sure L.offers self.old.peer.way self.new.peer.way }
    {
        sure_links_are_orderly::<F, L>();
        match self.cancel_gone(alloc, book) {
            Ok(()) => {}
            Err(leave) => return Err(leave),
        }
        match self.again.take() {
            Some(again) => self.ask_again(alloc, files, book, &again),
            None => Ok(()),
        }
    }

    /// Tells the peer that the work is over, if it is there.
    pub fn farewell(&mut self, alloc: Global)
        ensures on { GoesOn L.honest L.sure L.offers self.old.peer.way self.new.peer.way }
    {
        if !self.gone {
            let _ = self.peer.bye(alloc);
        }
    }

    /// It is gone: what runs there waits again.
    pub(crate) fn leave(&mut self, book: &mut Book)
        ensures gone { self.new.gone ≡ true }
        ensures peer { self.new.peer ≡ self.old.peer }
        ensures goes { GoesOnAs book.old book.new }
        ensures ends { EndsOn book.old.held book.new.held }
        ensures keeps { KeepsRuns book.old.held book.new.held self.old self.new }
    {
        self.gone = true;
        lose_all(self.runs.as_slice(), book);
        self.runs.clear();
    }
}

// What runs so waits again.
fn lose_all(runs: &[Run], book: &mut Book)
    ensures goes { GoesOnAs book.old book.new }
    ensures ends { EndsOn book.old.held book.new.held }
    ensures stops { StopsAll runs.now book.old.held book.new.held }
{
    for run in runs {
        let _ = book.wait_again(run.id, run.attempt);
    }
}

// Where the first of these runs stands with whose attempt no held task runs.
fn first_gone(runs: &[Run], book: &Book) -> Option<usize>
    ensures within { IfSome result (λ at. at < length runs.now) }
    ensures gone { IfSome result (λ at. IfSome (slice_get runs.now at) (λ r.
        place_running r.id r.attempt book.now.held ≡ None)) }
{
    for at in 0..runs.len() {
        if book.running(runs[at].id, runs[at].attempt).is_none() {
            return Some(at);
        }
    }
    None
}
