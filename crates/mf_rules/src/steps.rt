//! The lines of a text by their forms, and which heads get a command.
ghost use Rattle.std.specs.Prelude.{◌≡◌, IfOk, map};
ghost use Rattle.mf_rules.specs.Faults.{is_answered_by};
ghost use Rattle.mf_rules.specs.Flow.{formed};
ghost use Rattle.mf_rules.specs.Progress.{stack_of};

use flow_types::Memory;
use mf_forms::{Form, form_of};
use mf_text::Line;
use std::alloc::Global;

/// A line by its number and its form.
#[derive(Drop)]
pub(crate) struct Formed {
    pub number: u32,
    pub form: Form,
}

/// A line, and whether a command comes before the next head behind it.
#[derive(Drop)]
pub(crate) struct Step {
    pub line: Formed,
    pub is_answered: bool,
}

/// The steps over these lines, the first of them last, so that each can be popped in turn.
pub(crate) fn steps_of(alloc: Global, lines: Vec<Line>) -> Result<Vec<Step>, Memory>
    ensures { IfOk result (λ steps. steps.items ≡ stack_of (map formed lines.items)) }
{
    let mut lines = lines;
    let mut steps = Vec::new(alloc);
    let mut is_answered = false;
    while let Some(line) = lines.pop() {
        let line = with_form(alloc, &line)?;
        let before = answers_before(&line.form, is_answered);
        let Ok(()) = steps.push(Step { line, is_answered }) else {
            return Err(Memory);
        };
        is_answered = before;
    }
    Ok(steps)
}

fn with_form(alloc: Global, line: &Line) -> Result<Formed, Memory>
    ensures { IfOk result (λ it. it ≡ formed line.now) }
{
    let form = form_of(alloc, line.text.as_str())?;
    Ok(Formed {
        number: line.number,
        form,
    })
}

// Whether a command comes before the next head, from a line of this form on.
fn answers_before(form: &Form, behind: bool) -> bool
    ensures { result ≡ is_answered_by form.now behind }
{
    match form {
        Form::Head(_) | Form::OpenQuote { is_head: true } => false,
        Form::Command(_) => true,
        _ => behind,
    }
}
