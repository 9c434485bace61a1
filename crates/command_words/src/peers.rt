// The command lines of the worker and the foreman.
ghost use Rattle.std.specs.Prelude.{◌≡◌, true, Some, None, IfOk, IsErrOf, map};
ghost use Rattle.std.specs.String.{string_bytes};
ghost use Rattle.clap.specs.Words.{app_of};
ghost use Rattle.command_words.specs.Choices.{chosen_by};
ghost use Rattle.command_words.specs.Command.{is_plain};
ghost use Rattle.command_words.specs.Found.{rows_in};
ghost use Rattle.command_words.specs.Peers.{port_in, peer_amounts_in};
ghost use Rattle.command_words.specs.Peers.{worker_options_in, foreman_options_in};
ghost use Rattle.command_words.specs.Peers.{worker_options_of, foreman_options_of};

use crate::command::{foreman_command_of, worker_command_of};
use crate::fault::WordsFault;
use crate::numbers::number_in;
use crate::options::{ForemanOptions, WorkerOptions};
use crate::values::{number, value_of};
use crate::words::parse;
use clap::{ArgMatches, Command};
use flow_types::{Amounts, Memory, Text};
use std::alloc::Global;

fn text_of(alloc: Global, text: &str) -> Result<Text, WordsFault>
    ensures ok { IfOk result (λ t. t ≡ text.now) }
    ensures memory { IsErrOf result WordsFault.Usage → ⊥ }
{
    match Text::of(alloc, text) {
        Ok(text) => Ok(text),
        Err(Memory) => Err(WordsFault::Memory),
    }
}

#[tactic(auto, unfolding(crate::specs::Peers::port_in))]
fn port_in(matches: &ArgMatches<'_>) -> Option<u16>
    ensures { result ≡ port_in (rows_in matches.now) }
{
    let port = number_in(value_of(matches, "port")?, 1, 65_535)?;
    Some(port as u16)
}

#[tactic(auto, unfolding(crate::specs::Peers::peer_amounts_in))]
fn peer_amounts_in(matches: &ArgMatches<'_>) -> Option<Amounts>
    ensures { result ≡ peer_amounts_in (rows_in matches.now) }
{
    let cores = number(matches, "cores", 0, 1_000_000_000, 4)?;
    let memory = number(matches, "memory", 0, 1_000_000_000, 4_096)?;
    let disk = number(matches, "disk", 0, 1_000_000_000, 16_384)?;
    Some(Amounts {
        cores: cores as u32,
        memory: memory as u32,
        disk: disk as u32,
    })
}

#[tactic(auto, unfolding(crate::specs::Peers::worker_options_in))]
fn worker_options_in(alloc: Global, matches: &ArgMatches<'_>) -> Result<WorkerOptions, WordsFault>
    ensures ok { IfOk result (λ options. worker_options_in (rows_in matches.now) ≡ Some options) }
    ensures usage { IsErrOf result WordsFault.Usage →
        worker_options_in (rows_in matches.now) ≡ None }
{
    let Some(total) = peer_amounts_in(matches) else {
        return Err(WordsFault::Usage);
    };
    let Some(cache) = number(matches, "cache", 0, 1_000_000, 4_096) else {
        return Err(WordsFault::Usage);
    };
    let Some(host) = value_of(matches, "host") else {
        return Err(WordsFault::Usage);
    };
    let Some(port) = port_in(matches) else {
        return Err(WordsFault::Usage);
    };
    Ok(WorkerOptions {
        total,
        cache: cache as u32,
        host: text_of(alloc, host)?,
        port,
    })
}

#[tactic(auto, unfolding(crate::specs::Peers::foreman_options_in))]
fn foreman_options_in(alloc: Global, matches: &ArgMatches<'_>) -> Result<ForemanOptions, WordsFault>
    ensures ok { IfOk result (λ options.
        foreman_options_in (rows_in matches.now) ≡ Some options) }
    ensures usage { IsErrOf result WordsFault.Usage →
        foreman_options_in (rows_in matches.now) ≡ None }
{
    let Some(listening) = number(matches, "p", 1, 65_535, 9_123) else {
        return Err(WordsFault::Usage);
    };
    let Some(cache) = number(matches, "cache", 0, 1_000_000, 4_096) else {
        return Err(WordsFault::Usage);
    };
    let Some(host) = value_of(matches, "host") else {
        return Err(WordsFault::Usage);
    };
    let Some(port) = port_in(matches) else {
        return Err(WordsFault::Usage);
    };
    Ok(ForemanOptions {
        listening: listening as u16,
        cache: cache as u32,
        host: text_of(alloc, host)?,
        port,
    })
}

#[tactic(auto, unfolding(crate::specs::Choices::chosen_by))]
fn worker_options_by<'a>(
    alloc: Global,
    command: Command<'a>,
    words: &'a [String],
) -> Result<WorkerOptions, WordsFault>
    requires { is_plain (app_of command) ≡ true }
    ensures ok { IfOk result (λ options.
        chosen_by (app_of command.entry) worker_options_in (map string_bytes words.entry.now)
        ≡ Some options) }
    ensures usage { IsErrOf result WordsFault.Usage →
        chosen_by (app_of command.entry) worker_options_in (map string_bytes words.entry.now)
        ≡ None }
{
    let matches = parse(command, words)?;
    worker_options_in(alloc, &matches)
}

/// What the words of a command line of `work_queue_worker` choose. The first word is the program's
/// name.
#[tactic(auto, unfolding(crate::specs::Peers::worker_options_of))]
pub fn read_worker_words(alloc: Global, words: &[String]) -> Result<WorkerOptions, WordsFault>
    ensures ok { IfOk result (λ options.
        worker_options_of (map string_bytes words.now) ≡ Some options) }
    ensures usage { IsErrOf result WordsFault.Usage →
        worker_options_of (map string_bytes words.now) ≡ None }
{
    let command = worker_command_of(alloc)?;
    worker_options_by(alloc, command, words)
}

#[tactic(auto, unfolding(crate::specs::Choices::chosen_by))]
fn foreman_options_by<'a>(
    alloc: Global,
    command: Command<'a>,
    words: &'a [String],
) -> Result<ForemanOptions, WordsFault>
    requires { is_plain (app_of command) ≡ true }
    ensures ok { IfOk result (λ options.
        chosen_by (app_of command.entry) foreman_options_in (map string_bytes words.entry.now)
        ≡ Some options) }
    ensures usage { IsErrOf result WordsFault.Usage →
        chosen_by (app_of command.entry) foreman_options_in (map string_bytes words.entry.now)
        ≡ None }
{
    let matches = parse(command, words)?;
    foreman_options_in(alloc, &matches)
}

/// What the words of a command line of `work_queue_foreman` choose. The first word is the program's
/// name.
#[tactic(auto, unfolding(crate::specs::Peers::foreman_options_of))]
pub fn read_foreman_words(alloc: Global, words: &[String]) -> Result<ForemanOptions, WordsFault>
    ensures ok { IfOk result (λ options.
        foreman_options_of (map string_bytes words.now) ≡ Some options) }
    ensures usage { IsErrOf result WordsFault.Usage →
        foreman_options_of (map string_bytes words.now) ≡ None }
{
    let command = foreman_command_of(alloc)?;
    foreman_options_by(alloc, command, words)
}
