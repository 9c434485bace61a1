// From words to options.
ghost use Rattle.std.specs.Prelude.{◌≡◌, true, false, Some, None, IfOk, IsErrOf, map};
ghost use Rattle.std.specs.String.{string_bytes};
ghost use Rattle.clap.specs.Words.{app_of};
ghost use Rattle.clap.specs.Simple.{matches_of};
ghost use Rattle.clap.specs.Takes.{takes};
ghost use Rattle.command_words.specs.Command.{is_plain};
ghost use Rattle.command_words.specs.Choices.{options_in, options_of, chosen_by};
ghost use Rattle.command_words.specs.Found.{rows_in};
ghost use Rattle.command_words.specs.Ranges.{IsInRange};

use crate::choices::{limits_in, local_amounts_in, mode_in, service_in, work_in};
use crate::command::command_of;
use crate::fault::WordsFault;
use crate::names::{flow_in, log_in};
use crate::options::Options;
use clap::error::ErrorKind;
use clap::{ArgMatches, Command};
use std::alloc::Global;

#[tactic(auto, unfolding(crate::specs::Choices::options_in))]
fn options_in(alloc: Global, matches: &ArgMatches<'_>) -> Result<Options, WordsFault>
    ensures ok { IfOk result (λ options. options_in (rows_in matches.now) ≡ Some options) }
    ensures usage { IsErrOf result WordsFault.Usage → options_in (rows_in matches.now) ≡ None }
    ensures range { IfOk result IsInRange }
{
    let Some(service) = service_in(matches) else {
        return Err(WordsFault::Usage);
    };
    let Some(limits) = limits_in(matches) else {
        return Err(WordsFault::Usage);
    };
    let Some(local) = local_amounts_in(matches) else {
        return Err(WordsFault::Usage);
    };
    let Some(mode) = mode_in(matches) else {
        return Err(WordsFault::Usage);
    };
    let Some(work) = work_in(matches) else {
        return Err(WordsFault::Usage);
    };
    let flow = flow_in(alloc, matches)?;
    let log = log_in(alloc, matches, &flow)?;
    Ok(Options {
        service,
        limits,
        local,
        mode,
        work,
        flow,
        log,
    })
}

/// What the parser finds in the words, of which the first is the program's name: Usage only
/// where the command doesn't take them.
pub fn parse<'a>(command: Command<'a>, words: &'a [String]) -> Result<ArgMatches<'a>, WordsFault>
    requires { is_plain (app_of command) ≡ true }
    ensures taken { IfOk result (λ _.
        takes (app_of command.entry) (map string_bytes words.entry.now) ≡ true) }
    ensures rows { IfOk result (λ matches.
        rows_in matches ≡ matches_of (app_of command.entry) (map string_bytes words.entry.now)) }
    ensures usage { IsErrOf result WordsFault.Usage →
        takes (app_of command.entry) (map string_bytes words.entry.now) ≡ false }
{
    match command.try_get_matches_from(words) {
        Ok(matches) => Ok(matches),
        Err(error) => match error.kind() {
            ErrorKind::OutOfMemory => Err(WordsFault::Memory),
            _ => Err(WordsFault::Usage),
        },
    }
}

#[tactic(auto, unfolding(crate::specs::Choices::chosen_by))]
fn options_by<'a>(
    alloc: Global,
    command: Command<'a>,
    words: &'a [String],
) -> Result<Options, WordsFault>
    requires { is_plain (app_of command) ≡ true }
    ensures ok { IfOk result (λ options.
        chosen_by (app_of command.entry) options_in (map string_bytes words.entry.now)
        ≡ Some options) }
    ensures usage { IsErrOf result WordsFault.Usage →
        chosen_by (app_of command.entry) options_in (map string_bytes words.entry.now) ≡ None }
    ensures range { IfOk result IsInRange }
{
    let matches = parse(command, words)?;
    options_in(alloc, &matches)
}

/// What the words of a command line of `makeflow` choose. The first word is the program's name.
#[tactic(auto, unfolding(crate::specs::Choices::options_of))]
pub fn read_words(alloc: Global, words: &[String]) -> Result<Options, WordsFault>
    ensures ok { IfOk result (λ options. options_of (map string_bytes words.now) ≡ Some options) }
    ensures usage { IsErrOf result WordsFault.Usage →
        options_of (map string_bytes words.now) ≡ None }
    ensures range { IfOk result IsInRange }
{
    let command = command_of(alloc)?;
    options_by(alloc, command, words)
}
