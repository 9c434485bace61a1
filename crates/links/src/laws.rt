//! Laws of links, each the contract of a function that does nothing.
ghost use Rattle.links.specs.Laws.{AnswersAreDue, HearingKeepsRight, NewLinksAreRight};
ghost use Rattle.links.specs.Laws.{SayingKeepsRight};

use outside::Commands;

/// A peer that answers only what it was asked keeps its link honest at every moment, whatever the
/// calls of the link answer.
pub fn what_was_asked_is_answered_honestly<F: Commands>()
    ensures begins { NewLinksAreRight F.gives F.may_fail }
    ensures hears { HearingKeepsRight F.gives F.may_fail }
    ensures says { SayingKeepsRight F.gives F.may_fail }
{}

/// An honest answer to a task is that of its job over what is due, where what was put is due.
pub fn answers_are_due<F: Commands>()
    ensures { AnswersAreDue F.gives F.may_fail }
{}
