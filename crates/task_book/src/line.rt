//! The tasks that are held, in the order of their ids.
ghost use Rattle.std.specs.Prelude.{◌≡◌, ◌≤◌, ◌<◌, ◌+◌, ◌++◌, ◌∷◌, [], IfSome, IfOk, false, true, OnErr, OnOk, Some, None, length, remove, slice_get};
ghost use Rattle.std.specs.Option.{option_copied};
ghost use Rattle.std.specs.List.{AllByRecursion};
ghost use Rattle.task_book.specs.Kept.{is_end, is_run, place_ended, place_of, place_running, staged, staged_by};
ghost use Rattle.task_book.specs.Lines.{NoneBefore, is_waiting};

use crate::task::{Held, Stage, TaskId};
use flow_types::{AttemptNo, Memory};
use std::alloc::Global;
use std::collections::VecDeque;
use std::marker::Model;

/// The tasks that are held, in the order of their ids. One is found by its id, and the first that
/// waits and the first that came to its end by marks that move on.
#[derive(Drop)]
pub struct Line {
    tasks: VecDeque<Held>,
    // No task before this place waits.
    waits_from: usize,
    // No task before this place came to its end.
    ended_from: usize,
    // Nor one behind this place.
    ended_last: usize,
}

impl Model for Line {
    ghost use Rattle.std.specs.Prelude.{List};
    ghost use Rattle.task_book.specs.declared.task.Held.{Held};
    ghost use Rattle.task_book.specs.Lines.{IsLine};

    ghost Value = { List Held };

    ghost view = { λ l. l.tasks.items };

    ghost invariant = { λ l. IsLine l.tasks.items l.waits_from l.ended_from l.ended_last };
}

pub(crate) fn is_end(stage: &Stage) -> bool
    ensures { result ≡ is_end stage.now }
{
    matches!(stage, Stage::Ended { .. })
}

fn is_waiting(stage: &Stage) -> bool
    ensures { result ≡ is_waiting stage.now }
{
    matches!(stage, Stage::Waits)
}

fn is_run(stage: &Stage, attempt: AttemptNo) -> bool
    ensures { result ≡ is_run attempt stage.now }
{
    match stage {
        Stage::Runs(other) => other.0 == attempt.0,
        Stage::Waits => false,
        Stage::Ended { .. } => false,
    }
}

// Where the first task stands, from a place on and before another, that came to its end; else that
// other place, or the first where it stands behind it.
fn ended_between(tasks: &VecDeque<Held>, from: usize, to: usize) -> usize
    requires none { NoneBefore is_end from tasks.now.items }
    requires start { from ≤ length tasks.now.items }
    requires within { to ≤ length tasks.now.items }
    ensures none { NoneBefore is_end result tasks.now.items }
    ensures within { result ≤ length tasks.now.items }
    ensures ended { result < to
        → IfSome (slice_get tasks.now.items result) (λ h. is_end h.stage ≡ true) }
{
    if to <= from {
        return from;
    }
    for at in from..to {
        if is_end(&tasks[at].stage) {
            return at;
        }
    }
    to
}

// Where the first task stands, from a place on, that waits; or how many tasks there are.
fn waits_from(tasks: &VecDeque<Held>, from: usize) -> usize
    requires none { NoneBefore is_waiting from tasks.now.items }
    requires within { from ≤ length tasks.now.items }
    ensures none { NoneBefore is_waiting result tasks.now.items }
    ensures within { result ≤ length tasks.now.items }
{
    for at in from..tasks.len() {
        if is_waiting(&tasks[at].stage) {
            return at;
        }
    }
    tasks.len()
}

// A mark, once the task at a place has left.
fn mark_without(mark: usize, at: usize) -> usize
    ensures behind { at < mark → result + 1 ≡ mark }
    ensures before { mark ≤ at → result ≡ mark }
{
    if at < mark { mark - 1 } else { mark }
}

// A mark, once the task at a place is in a stage that it looks for, or isn't.
fn mark_with(mark: usize, at: usize, passes: bool) -> usize
    ensures low { result ≤ mark }
    ensures there { passes ≡ true → result ≤ at }
{
    if passes { mark.min(at) } else { mark }
}

// A mark behind which none passes, once the task at a place is in a stage that passes, or isn't.
fn last_with(mark: usize, at: usize, passes: bool) -> usize
    ensures high { mark ≤ result }
    ensures there { passes ≡ true → at ≤ result }
{
    if passes { mark.max(at) } else { mark }
}

// The place behind a mark, but no more than the count.
fn behind(mark: usize, count: usize) -> usize
    ensures next { mark < count → result ≡ mark + 1 }
    ensures all { count ≤ mark → result ≡ count }
{
    if mark < count { mark + 1 } else { count }
}

// The task is in this stage from now on.
fn set_stage(task: &mut Held, stage: Stage)
    ensures { task.new ≡ staged stage task.old }
{
    task.stage = stage;
}

// The task at a place of these is in this stage from now on.
fn stage_in(held: &mut VecDeque<Held>, at: usize, stage: Stage)
    ensures { held.new.items ≡ staged_by held.old.items at stage (slice_get held.old.items at) }
{
    if let Some(task) = held.get_mut(at) {
        set_stage(task, stage);
    }
}

impl Line {
    /// No task is held. It takes no memory.
    pub fn new(alloc: Global) -> Line
        ensures { result ≡ [] }
    {
        Line {
            tasks: VecDeque::new(alloc),
            waits_from: 0,
            ended_from: 0,
            ended_last: 0,
        }
    }

    /// How many tasks are held.
    pub fn count(&self) -> usize
        ensures { result ≡ length self.now }
    {
        self.tasks.len()
    }

    /// The task at a place.
    pub fn get(&self, at: usize) -> Option<&Held>
        ensures { option_copied result ≡ slice_get self.now at }
    {
        self.tasks.get(at)
    }

    /// Where the task of an id stands.
    pub fn place_of(&self, id: TaskId) -> Option<usize>
        ensures { result ≡ place_of id self.now }
    {
        match self.tasks.binary_search_by_key(&id.0, |task| task.id.0) {
            Ok(at) => Some(at),
            Err(_) => None,
        }
    }

    /// Where the task of an id stands that runs with this attempt.
    pub fn place_running(&self, id: TaskId, attempt: AttemptNo) -> Option<usize>
        ensures { result ≡ place_running id attempt self.now }
    {
        let at = self.place_of(id)?;
        let held = self.tasks.get(at)?;
        if is_run(&held.stage, attempt) {
            Some(at)
        } else {
            None
        }
    }

    /// Where the first task stands that came to its end.
    pub fn place_ended(&mut self) -> Option<usize>
        ensures place { result ≡ place_ended self.old }
        ensures same { self.new ≡ self.old }
    {
        let to = behind(self.ended_last, self.tasks.len());
        self.ended_from = ended_between(&self.tasks, self.ended_from, to);
        if self.ended_from < to {
            Some(self.ended_from)
        } else {
            self.ended_last = 0;
            None
        }
    }

    /// A place before which no task waits.
    pub fn first_waiting(&mut self) -> usize
        ensures none { NoneBefore is_waiting result self.old }
        ensures within { result ≤ length self.old }
        ensures same { self.new ≡ self.old }
    {
        self.waits_from = waits_from(&self.tasks, self.waits_from);
        self.waits_from
    }

    /// Holds one more task, whose id is the greatest.
    pub fn push(&mut self, task: Held) -> Result<(), Memory>
        requires { AllByRecursion (λ h. h.id.0 < task.id.0) self.old }
        ensures ok { OnOk result (self.new ≡ self.old ++ task ∷ []) }
        ensures err { OnErr result (self.new ≡ self.old) }
    {
        let at = self.tasks.len();
        let last = last_with(self.ended_last, at, is_end(&task.stage));
        match self.tasks.push_back(task) {
            Ok(()) => {
                self.ended_last = last;
                Ok(())
            }
            Err(_) => Err(Memory),
        }
    }

    /// Lets the task at a place go.
    pub fn remove(&mut self, at: usize) -> Held
        requires within { at < length self.old }
        ensures task { slice_get self.old at ≡ Some result }
        ensures items { self.new ≡ remove self.old at }
    {
        let Some(task) = self.tasks.remove(at) else {
            unreachable!()
        };
        self.waits_from = mark_without(self.waits_from, at);
        self.ended_from = mark_without(self.ended_from, at);
        task
    }

    /// The task at a place is in this stage from now on.
    pub fn set_stage(&mut self, at: usize, stage: Stage)
        ensures { self.new ≡ staged_by self.old at stage (slice_get self.old at) }
    {
        self.waits_from = mark_with(self.waits_from, at, is_waiting(&stage));
        self.ended_from = mark_with(self.ended_from, at, is_end(&stage));
        self.ended_last = last_with(self.ended_last, at, is_end(&stage));
        stage_in(&mut self.tasks, at, stage);
    }
}
