//! What becomes of held tasks.
ghost use Rattle.std.specs.Prelude.{◌≡◌, ◌≤◌, ℕ, IfNone, IfSome, None, Some, is_some, length, slice_get};
ghost use Rattle.std.specs.Option.{option_copied};
ghost use Rattle.flow_types.specs.declared.numbers.AttemptNo.{AttemptNo as Number};
ghost use Rattle.task_book.specs.declared.task.Stage.TheVariants as stages;
ghost use Rattle.task_book.specs.Kept.{AreKept, IsEndedAt, given_at, place_ended, place_running, staged_at, staged_by};
ghost use Rattle.task_book.specs.Submissions.{IsShort};
ghost use Rattle.task_book.specs.Lines.{NoneBefore, is_waiting, waiting_in};
ghost use Rattle.task_book.specs.Stages.{EndsOn, EndsWith, Runs, RunsOn, RunsWith, Stops};

use crate::book::Book;
use crate::task::{Given, Held, Ready, Stage, Submission, TaskId};
use flow_types::{AttemptNo, Outcome};

impl Book {
    /// A place before which no held task waits.
    pub fn first_waiting(&mut self) -> usize
        ensures none { NoneBefore is_waiting result self.old.held }
        ensures within { result ≤ length self.old.held }
        ensures same { self.new ≡ self.old }
    {
        self.held.first_waiting()
    }

    /// The held task at a place.
    pub fn task(&self, at: usize) -> Option<&Held>
        ensures task { option_copied result ≡ slice_get self.now.held at }
        ensures fits { IfSome result (λ held. IsShort held.now.task) }
    {
        self.held.get(at)
    }

    /// The task at a place, where it waits.
    pub fn waiting(&self, at: usize) -> Option<&Submission>
        ensures waits { option_copied result ≡ waiting_in (slice_get self.now.held at) }
        ensures fits { IfSome result (λ task. IsShort task.now) }
    {
        let held = self.task(at)?;
        match held.stage {
            Stage::Waits => Some(&held.task),
            Stage::Runs(_) => None,
            Stage::Ended { .. } => None,
        }
    }

    /// The task of an id, where it runs with this attempt.
    pub fn running(&self, id: TaskId, attempt: AttemptNo) -> Option<&Submission>
        ensures runs { IfSome result (λ task. Runs self.now.held attempt task.now) }
        ensures found { is_some result ≡ is_some (place_running id attempt self.now.held) }
        ensures fits { IfSome result (λ task. IsShort task.now) }
    {
        match self.held.place_running(id, attempt) {
            Some(at) => match self.task(at) {
                Some(held) => Some(&held.task),
                None => None,
            },
            None => None,
        }
    }

    // The task at a place is in this stage from now on.
    fn stage_at(&mut self, at: usize, stage: Stage)
        ensures { self.new ≡ record self.old {
          held = staged_by self.old.held at stage (slice_get self.old.held at);
        } }
    {
        self.held.set_stage(at, stage);
    }

    /// The task that waits at a place runs with this attempt from now on.
    pub fn begin(&mut self, at: usize, attempt: AttemptNo)
        ensures held { self.new ≡ record self.old {
          held = staged_by self.old.held at (stages.Runs attempt) (slice_get self.old.held at);
        } }
        ensures runs { IfSome (slice_get self.old.held at) (λ h.
            RunsWith self.old.held self.new.held attempt h.task) }
        ensures ends { EndsOn self.old.held self.new.held }
    {
        self.stage_at(at, Stage::Runs(attempt));
    }

    // The task of an id that runs with this attempt is in this stage from now on.
    fn stage(&mut self, id: TaskId, attempt: AttemptNo, stage: Stage) -> bool
        ensures was { result ≡ is_some (place_running id attempt self.old.held) }
        ensures once { AreKept self.old }
        ensures held { self.new ≡ record self.old {
          held = staged_at self.old.held (place_running id attempt self.old.held) stage;
        } }
    {
        let Some(at) = self.held.place_running(id, attempt) else {
            return false;
        };
        self.stage_at(at, stage);
        true
    }

    /// The task of an id waits again, where it runs with this attempt. It answers whether it does.
    pub fn wait_again(&mut self, id: TaskId, attempt: AttemptNo) -> bool
        ensures was { result ≡ is_some (place_running id attempt self.old.held) }
        ensures held { self.new ≡ record self.old {
          held = staged_at self.old.held (place_running id attempt self.old.held) stages.Waits;
        } }
        ensures runs { RunsOn self.old.held self.new.held }
        ensures stops { Stops self.old.held self.new.held id attempt }
        ensures ends { EndsOn self.old.held self.new.held }
    {
        self.stage(id, attempt, Stage::Waits)
    }

    /// The task of an id came to this end, where it ran with this attempt. It answers whether it did.
    pub fn end(&mut self, id: TaskId, attempt: AttemptNo, outcome: Outcome) -> bool
        ensures was { result ≡ is_some (place_running id attempt self.old.held) }
        ensures held { self.new ≡ record self.old {
          held = staged_at self.old.held (place_running id attempt self.old.held)
              (stages.Ended attempt outcome);
        } }
        ensures runs { RunsOn self.old.held self.new.held }
        ensures stops { Stops self.old.held self.new.held id attempt }
        ensures ends { EndsWith self.old.held self.new.held attempt outcome }
    {
        self.stage(id, attempt, Stage::Ended { attempt, outcome })
    }

    /// Gives the task with the least id that came to its end, where there is one. It takes no
    /// memory.
    pub fn give(&mut self) -> Option<Ready>
        ensures none { IfNone result ((place_ended self.old.held ≡ None)
            × (self.new ≡ self.old)) }
        ensures given { IfSome result (λ ready. (at : ℕ) × (attempt : Number)
            × (place_ended self.old.held ≡ Some at)
            × IsEndedAt self.old.held at (record { id = ready.id; attempt = attempt }) ready.outcome
            × (self.new ≡ given_at self.old at (record { id = ready.id; attempt = attempt }))) }
    {
        let at = self.held.place_ended()?;
        let Held { id, task: _, stage } = self.held.remove(at);
        match stage {
            Stage::Ended { attempt, outcome } => {
                self.given.push_reserved(Given { id, attempt });
                Some(Ready { id, outcome })
            }
            Stage::Waits => None,
            Stage::Runs(_) => None,
        }
    }
}
