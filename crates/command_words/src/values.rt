// The values of arguments that a parse found.
ghost use Rattle.std.specs.Prelude.{◌≡◌, ◌≤◌, IfSome, option_map};
ghost use Rattle.clap.specs.Words.{first_of};
ghost use Rattle.command_words.specs.Found.{rows_in};
ghost use Rattle.command_words.specs.Values.{flag, has_value, number, optional_number};

use crate::numbers::number_in;
use clap::ArgMatches;

/// The value of an argument, where there is one; of several the first.
pub fn value_of<'a>(matches: &ArgMatches<'a>, name: &str) -> Option<&'a str>
    ensures { option_map (λ s. s.now) result ≡ first_of name.now (rows_in matches.now) }
{
    matches.get_str(name)
}

/// Whether an option is given with this value.
#[tactic(auto, unfolding(crate::specs::Values::has_value))]
pub fn has_value(matches: &ArgMatches<'_>, option: &str, value: &str) -> bool
    ensures { result ≡ has_value (rows_in matches.now) option.now value.now }
{
    match value_of(matches, option) {
        Some(text) => value == text,
        None => false,
    }
}

/// Whether a flag is given: its value is then `true`.
#[tactic(auto, unfolding(crate::specs::Values::flag))]
pub fn flag(matches: &ArgMatches<'_>, name: &str) -> bool
    ensures { result ≡ flag (rows_in matches.now) name.now }
{
    has_value(matches, name, "true")
}

/// The number of an option, or its default.
#[tactic(auto, unfolding(crate::specs::Values::number))]
pub fn number(
    matches: &ArgMatches<'_>,
    option: &str,
    least: u64,
    most: u64,
    default: u64,
) -> Option<u64>
    requires least { least ≤ default }
    requires most { default ≤ most }
    ensures value { result ≡ number (rows_in matches.now) option.now least most default }
    ensures range { IfSome result (λ n. (least ≤ n) × (n ≤ most)) }
{
    match value_of(matches, option) {
        Some(text) => number_in(text, least, most),
        None => Some(default),
    }
}

/// The number of an option, where it is given.
#[tactic(auto, unfolding(crate::specs::Values::optional_number))]
pub fn optional_number(
    matches: &ArgMatches<'_>,
    option: &str,
    least: u64,
    most: u64,
) -> Option<Option<u64>>
    ensures value { result ≡ optional_number (rows_in matches.now) option.now least most }
    ensures range { IfSome result (λ given. IfSome given (λ n. (least ≤ n) × (n ≤ most))) }
{
    match value_of(matches, option) {
        Some(text) => Some(Some(number_in(text, least, most)?)),
        None => Some(None),
    }
}
