// The commands as the parser of command lines sees them.
ghost use Rattle.std.specs.Prelude.{◌≡◌, IfOk, codes, Some};
ghost use Rattle.clap.specs.Words.{app_of, new_app, new_rule, with_rule};
ghost use Rattle.clap.specs.declared.builder.action.ArgAction.TheVariants.{SetTrue};
ghost use Rattle.command_words.specs.Command.{long_option, long_flag, place, run_options};
ghost use Rattle.command_words.specs.Command.{amount_options, work_options, command, ◌with◌};
ghost use Rattle.command_words.specs.Peers.{worker_command, foreman_command};

use clap::{Arg, ArgAction, Command};
use std::alloc::{AllocError, Global};

// Adds `-x VALUE`.
fn with_letter<'a>(
    alloc: Global,
    command: Command<'a>,
    name: &'a str,
    letter: char,
) -> Result<Command<'a>, AllocError>
    ensures { IfOk result (λ c.
        app_of c ≡ app_of command.entry
        with record (new_rule name.entry.now) { short = Some letter }) }
{
    command.arg(Arg::new(alloc, name).short(letter))
}

// Adds `--name VALUE`.
fn with_long<'a>(
    alloc: Global,
    command: Command<'a>,
    name: &'a str,
) -> Result<Command<'a>, AllocError>
    ensures { IfOk result (λ c. app_of c ≡ app_of command.entry with long_option name.entry.now) }
{
    command.arg(Arg::new(alloc, name).long(name))
}

// Adds `-x`.
fn with_letter_flag<'a>(
    alloc: Global,
    command: Command<'a>,
    name: &'a str,
    letter: char,
) -> Result<Command<'a>, AllocError>
    ensures { IfOk result (λ c.
        app_of c ≡ app_of command.entry
        with record (new_rule name.entry.now) { short = Some letter; action = Some SetTrue }) }
{
    command.arg(
        Arg::new(alloc, name)
            .short(letter)
            .action(ArgAction::SetTrue),
    )
}

/// Adds `--name`.
pub fn with_long_flag<'a>(
    alloc: Global,
    command: Command<'a>,
    name: &'a str,
) -> Result<Command<'a>, AllocError>
    ensures { IfOk result (λ c. app_of c ≡ app_of command.entry with long_flag name.entry.now) }
{
    command.arg(Arg::new(alloc, name).long(name).action(ArgAction::SetTrue))
}

/// Adds a word by its place behind the program's name.
pub fn with_place<'a>(
    alloc: Global,
    command: Command<'a>,
    name: &'a str,
) -> Result<Command<'a>, AllocError>
    ensures { IfOk result (λ c. app_of c ≡ app_of command.entry with place name.entry.now) }
{
    command.arg(Arg::new(alloc, name))
}

fn with_run_options<'a>(alloc: Global, command: Command<'a>) -> Result<Command<'a>, AllocError>
    ensures { IfOk result (λ c. app_of c ≡ run_options (app_of command.entry)) }
{
    let command = with_letter(alloc, command, "T", 'T')?;
    let command = with_letter(alloc, command, "p", 'p')?;
    let command = with_letter(alloc, command, "j", 'j')?;
    let command = with_letter(alloc, command, "r", 'r')?;
    let command = with_letter(alloc, command, "g", 'g')?;
    with_letter(alloc, command, "l", 'l')
}

fn with_amount_options<'a>(alloc: Global, command: Command<'a>) -> Result<Command<'a>, AllocError>
    ensures { IfOk result (λ c. app_of c ≡ amount_options (app_of command.entry)) }
{
    let command = with_long(alloc, command, "storage-limit")?;
    let command = with_long(alloc, command, "idle-limit")?;
    let command = with_long(alloc, command, "local-cores")?;
    let command = with_long(alloc, command, "local-memory")?;
    with_long(alloc, command, "local-disk")
}

fn with_work_options<'a>(alloc: Global, command: Command<'a>) -> Result<Command<'a>, AllocError>
    ensures { IfOk result (λ c. app_of c ≡ work_options (app_of command.entry)) }
{
    let command = with_long(alloc, command, "generate")?;
    let command = with_letter_flag(alloc, command, "c", 'c')?;
    let command = with_long_flag(alloc, command, "jx")?;
    let command = with_long_flag(alloc, command, "print-log")?;
    with_place(alloc, command, "file")
}

/// `makeflow [options] FILE`.
#[tactic(auto, unfolding(crate::specs::Command::command))]
pub fn command_of<'a>(alloc: Global) -> Result<Command<'a>, AllocError>
    ensures { IfOk result (λ c. app_of c ≡ command) }
{
    let command = with_run_options(alloc, Command::new(alloc, "makeflow"))?;
    let command = with_amount_options(alloc, command)?;
    with_work_options(alloc, command)
}

/// `work_queue_worker [options] HOST PORT`.
pub fn worker_command_of<'a>(alloc: Global) -> Result<Command<'a>, AllocError>
    ensures { IfOk result (λ c. app_of c ≡ worker_command) }
{
    let command = Command::new(alloc, "work_queue_worker");
    let command = with_long(alloc, command, "cores")?;
    let command = with_long(alloc, command, "memory")?;
    let command = with_long(alloc, command, "disk")?;
    let command = with_long(alloc, command, "cache")?;
    let command = with_place(alloc, command, "host")?;
    with_place(alloc, command, "port")
}

/// `work_queue_foreman [options] HOST PORT`.
pub fn foreman_command_of<'a>(alloc: Global) -> Result<Command<'a>, AllocError>
    ensures { IfOk result (λ c. app_of c ≡ foreman_command) }
{
    let command = Command::new(alloc, "work_queue_foreman");
    let command = with_letter(alloc, command, "p", 'p')?;
    let command = with_long(alloc, command, "cache")?;
    let command = with_place(alloc, command, "host")?;
    with_place(alloc, command, "port")
}
