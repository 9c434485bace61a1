//! The first of the faults that stand on one line.
ghost use Rattle.std.specs.Prelude.{◌≡◌, ◌<◌, ◌++◌, Bool, false, not, MatchResult, Some, None, Ok};
ghost use Rattle.mf_text.specs.Answers.{Fails};
ghost use Rattle.mf_forms.specs.Heads.{files_of_head};
ghost use Rattle.mf_forms.specs.Numbers.{bound_in};
ghost use Rattle.mf_rules.specs.Faults.{rank, least, where_true, head_faults, bound_faults};
ghost use Rattle.mf_rules.specs.Progress.{IsFirstOf, all_of_command, refused};

use crate::names::MAX_COMMAND;
use flow_types::SizeBound;
use mf_forms::{
    HeadFiles, command_in, files_of_head, is_no_command, is_open_at_end, size_bound_in,
};
use mf_text::{Expanded, MAX_TEXT, MakeFault};
use std::alloc::Global;

/// The fault of an expansion, or this other one of the same line where it has one: a text that is
/// too large comes last.
pub(crate) fn first_of(fault: MakeFault, has_other: bool, other: MakeFault) -> MakeFault
    requires above { 4 < rank other }
    requires below { rank other < 9 }
    ensures { IsFirstOf fault has_other other result }
{
    match fault {
        MakeFault::TooLarge(_) if has_other => other,
        fault => fault,
    }
}

/// The first fault of an expanded command, but for an environment that is too large.
pub(crate) fn check_command(number: u32, made: &Expanded, is_waiting: bool) -> Result<(), MakeFault>
    ensures { (is_large : Bool) → MatchResult result
        (λ _. (made.now.is_too_large ≡ false)
        × (least (all_of_command number made.now is_waiting is_large)
        ≡ least (where_true is_large (MakeFault.TooLarge 1048576))))
        (λ fault. Fails fault
        (refused (least (all_of_command number made.now is_waiting is_large)))) }
{
    let text = made.text.as_str();
    if is_no_command(text) {
        return Err(MakeFault::NoCommand(number));
    }
    if !is_waiting {
        return Err(MakeFault::StrayCommand(number));
    }
    if made.is_too_large {
        return Err(MakeFault::TooLarge(MAX_TEXT));
    }
    if command_in(text).len() as u64 > MAX_COMMAND {
        return Err(MakeFault::TooLarge(MAX_COMMAND));
    }
    Ok(())
}

/// The files that an expanded head names, or the first fault of its line.
pub(crate) fn head_files(
    alloc: Global,
    number: u32,
    made: &Expanded,
    is_answered: bool,
) -> Result<HeadFiles, MakeFault>
    ensures { MatchResult result
        (λ files. (files_of_head made.now.text ≡ Some files) × (made.now.is_too_large ≡ false)
        × (least (head_faults number (Ok made.now)
        ++ where_true (not is_answered) (MakeFault.NoCommand number)) ≡ None))
        (λ fault. Fails fault (refused (least (head_faults number (Ok made.now)
        ++ where_true (not is_answered) (MakeFault.NoCommand number))))) }
{
    if is_open_at_end(made.text.as_str()) {
        return Err(MakeFault::OpenQuote(number));
    }
    match files_of_head(alloc, made.text.as_str()) {
        Ok(Some(_)) if !is_answered => Err(MakeFault::NoCommand(number)),
        Ok(Some(_)) if made.is_too_large => Err(MakeFault::TooLarge(MAX_TEXT)),
        Ok(Some(files)) => Ok(files),
        Ok(None) => Err(MakeFault::NoColon(number)),
        Err(_) => Err(MakeFault::Memory),
    }
}

/// The bound that an expanded `.SIZE` line states, or the first fault of its line.
pub(crate) fn stated_bound(
    alloc: Global,
    number: u32,
    made: &Expanded,
) -> Result<SizeBound, MakeFault>
    ensures { MatchResult result
        (λ bound. (bound_in made.now.text ≡ Some bound) × (made.now.is_too_large ≡ false)
        × (least (bound_faults number (Ok made.now)) ≡ None))
        (λ fault. Fails fault (refused (least (bound_faults number (Ok made.now))))) }
{
    match size_bound_in(alloc, made.text.as_str()) {
        Ok(Some(_)) if made.is_too_large => Err(MakeFault::TooLarge(MAX_TEXT)),
        Ok(Some(bound)) => Ok(bound),
        Ok(None) => Err(MakeFault::BadNumber(number)),
        Err(_) => Err(MakeFault::Memory),
    }
}
