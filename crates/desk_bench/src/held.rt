//! Attempts that are held.
ghost use Rattle.std.specs.Prelude.{◌≡◌, ◌<◌};

use desk::Attempt;
use flow_types::{AttemptNo, LinkNo, RuleNo};
use std::marker::Model;

/// The most rules of a bench's plan.
pub const MOST_RULES: usize = 64;

/// An attempt at one of the first `MOST_RULES` rules. It can't be let go: a bench closes it, or a
/// drain.
pub struct Held {
    attempt: Attempt,
}

impl Model for Held {
    ghost use Rattle.std.specs.Prelude.{◌<◌};
    ghost use Rattle.desk.specs.declared.attempt.Attempt.{Attempt};

    ghost Value = { Attempt };

    ghost view = { λ held. held.attempt };

    ghost invariant = { λ held. held.attempt.rule.0 < 64 };
}

impl Held {
    /// Holds an attempt.
    pub(crate) fn of(attempt: Attempt) -> Held
        requires { attempt.rule.0 < 64 }
        ensures { result ≡ attempt }
    {
        Held { attempt }
    }

    /// The attempt.
    pub(crate) fn attempt(&self) -> &Attempt
        ensures { result.now ≡ self.now }
    {
        &self.attempt
    }

    /// The attempt, which is held no more.
    pub(crate) fn into_attempt(self) -> Attempt
        ensures same { result ≡ self }
        ensures few { result.rule.0 < 64 }
    {
        let Held { attempt } = self;
        attempt
    }

    /// The rule.
    pub fn rule(&self) -> RuleNo
        ensures { result ≡ self.now.rule }
    {
        self.attempt.rule()
    }

    /// The attempt's number in the log.
    pub fn number(&self) -> AttemptNo
        ensures { result ≡ self.now.number }
    {
        self.attempt.number()
    }

    /// The link on which it was started.
    pub fn link(&self) -> LinkNo
        ensures { result ≡ self.now.link }
    {
        self.attempt.link()
    }
}
