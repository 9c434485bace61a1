//! What the caller's thread holds of a run.
ghost use Rattle.std.specs.Prelude.{◌≡◌, ◌==◌, ◌∷◌, ◌++◌, [], None, List};
ghost use Rattle.std.specs.Prelude.{IfErr, IfOk, IfSome, Some, is_none};
ghost use Rattle.std.specs.List.{position};
ghost use Rattle.desk.specs.declared.attempt.Attempt.{Attempt as AttemptValue};
ghost use Rattle.local_run.specs.Underway.{IsHeld};

use crate::Halt;
use desk::Attempt;
use flow_types::AttemptNo;
use std::alloc::Global;
use std::marker::Model;

/// The attempts that run, each at a start that the pool has, and why the run stopped, if it did.
pub struct Held {
    attempts: Vec<Attempt>,
    halt: Option<Halt>,
}

impl Model for Held {
    ghost use Rattle.local_run.specs.Underway.{HeldState};

    ghost Value = { HeldState };

    ghost view = { λ h. record { attempts = h.attempts.items; halt = h.halt } };
}

// Where the attempt of this number stands among these, if it does.
fn place(attempts: &[Attempt], number: AttemptNo) -> Option<usize>
    ensures { result ≡ position (λ a. a.number.0 == number.0) attempts.now }
{
    attempts
        .iter()
        .position(|attempt| attempt.number().0 == number.0)
}

impl Held {
    /// Nothing is held yet.
    pub fn new(alloc: Global) -> Held
        ensures attempts { result.attempts ≡ [] }
        ensures halt { result.halt ≡ None }
    {
        Held {
            attempts: Vec::new(alloc),
            halt: None,
        }
    }

    /// Takes the attempt of this number out, which is held.
    pub fn take(&mut self, number: AttemptNo) -> Attempt
        requires held { IsHeld number self.old.attempts }
        ensures number { result.number ≡ number }
        ensures attempts { (front : List AttemptValue) × (back : List AttemptValue)
            × (self.old.attempts ≡ front ++ result ∷ back)
            × (self.new.attempts ≡ front ++ back) }
        ensures halt { self.new.halt ≡ self.old.halt }
    {
        let Some(at) = place(&self.attempts, number) else {
            unreachable!()
        };
        self.attempts.remove(at)
    }

    /// Ends it, with nothing held.
    pub fn end(self) -> Option<Halt>
        requires { self.attempts ≡ [] }
        ensures { result ≡ self.halt }
    {
        let Held { attempts, halt } = self;
        attempts.destroy_empty();
        halt
    }

    /// Whether nothing stopped the run.
    pub fn is_going(&self) -> bool
        ensures { result ≡ is_none self.now.halt }
    {
        self.halt.is_none()
    }

    /// The run has stopped, for this cause.
    pub fn stop(&mut self, why: Halt)
        ensures { self.new ≡ record self.old { halt = Some why } }
    {
        self.halt = Some(why);
    }

    /// Holds one more attempt. Where memory is wanting it gives it back.
    pub fn hold(&mut self, attempt: Attempt) -> Result<(), Attempt>
        ensures held { IfOk result (λ _. self.new
            ≡ record self.old { attempts = self.old.attempts ++ attempt ∷ [] }) }
        ensures back { IfErr result (λ back. (back ≡ attempt) × (self.new ≡ self.old)) }
    {
        match self.attempts.push(attempt) {
            Ok(()) => Ok(()),
            Err(failed) => Err(failed.value),
        }
    }

    /// Takes out the last, if one is held.
    pub fn pop(&mut self) -> Option<Attempt>
        ensures some { IfSome result (λ last. self.old
            ≡ record self.new { attempts = self.new.attempts ++ last ∷ [] }) }
        ensures none { result ≡ None → (self.old.attempts ≡ []) × (self.new ≡ self.old) }
    {
        self.attempts.pop()
    }
}
