//! The words of `makeflow_show [--jx] [--files | --dot] FLOW [N]`.
ghost use Rattle.std.specs.Prelude.{◌≡◌, Some, None, IfOk, IsErrOf, map, option_map};
ghost use Rattle.std.specs.String.{string_bytes};
ghost use Rattle.clap.specs.Words.{app_of};
ghost use Rattle.command_words.specs.Found.{rows_in};
ghost use Rattle.show_words.specs.Words.{command, options_in, options_of, part_in, part_of};
ghost use Rattle.show_words.specs.Words.{rules_named};

use crate::options::{Options, Part};
use clap::{ArgMatches, Command};
use command_words::{
    WordsFault, flag, language_in, name_of, number_in, parse, value_of, with_long_flag, with_place,
};
use flow_types::RuleNo;
use std::alloc::{AllocError, Global};

fn command_of<'a>(alloc: Global) -> Result<Command<'a>, AllocError>
    ensures { IfOk result (λ c. app_of c ≡ command) }
{
    let command = with_long_flag(alloc, Command::new(alloc, "makeflow_show"), "jx")?;
    let command = with_long_flag(alloc, command, "files")?;
    let command = with_long_flag(alloc, command, "dot")?;
    let command = with_place(alloc, command, "flow")?;
    with_place(alloc, command, "rule")
}

#[tactic(auto, unfolding(crate::specs::Words::rules_named))]
fn rules_named(text: Option<&str>) -> Option<Part>
    ensures { result ≡ rules_named (option_map (λ s. s.now) text.entry) }
{
    match text {
        Some(text) => {
            let number = number_in(text, 0, 4_294_967_295)?;
            Some(Part::Rule(RuleNo(number as u32)))
        }
        None => Some(Part::Rules),
    }
}

#[tactic(auto, unfolding(crate::specs::Words::part_of))]
fn part_of(files: bool, graph: bool, rule: Option<&str>) -> Option<Part>
    ensures { result ≡ part_of files graph (option_map (λ s. s.now) rule.entry) }
{
    match (files, graph, rule) {
        (false, false, rule) => rules_named(rule),
        (true, false, None) => Some(Part::Files),
        (false, true, None) => Some(Part::Graph),
        _ => None,
    }
}

#[tactic(auto, unfolding(crate::specs::Words::part_in))]
fn part_in(matches: &ArgMatches<'_>) -> Option<Part>
    ensures { result ≡ part_in (rows_in matches.now) }
{
    let rule = value_of(matches, "rule");
    part_of(flag(matches, "files"), flag(matches, "dot"), rule)
}

#[tactic(auto, unfolding(crate::specs::Words::options_in))]
fn options_in(alloc: Global, matches: &ArgMatches<'_>) -> Result<Options, WordsFault>
    ensures ok { IfOk result (λ options. options_in (rows_in matches.now) ≡ Some options) }
    ensures usage { IsErrOf result WordsFault.Usage → options_in (rows_in matches.now) ≡ None }
{
    let Some(part) = part_in(matches) else {
        return Err(WordsFault::Usage);
    };
    let Some(text) = value_of(matches, "flow") else {
        return Err(WordsFault::Usage);
    };
    let flow = name_of(alloc, text.as_bytes())?;
    Ok(Options {
        flow,
        language: language_in(matches),
        part,
    })
}

/// What the words of a command line choose. The first word is the program's name.
#[tactic(auto, unfolding(crate::specs::Words::options_of))]
pub fn read_words(alloc: Global, words: &[String]) -> Result<Options, WordsFault>
    ensures ok { IfOk result (λ options. options_of (map string_bytes words.now) ≡ Some options) }
    ensures usage { IsErrOf result WordsFault.Usage →
        options_of (map string_bytes words.now) ≡ None }
{
    let command = command_of(alloc)?;
    let matches = parse(command, words)?;
    options_in(alloc, &matches)
}
