// What the arguments of `makeflow` choose, but for names.
ghost use Rattle.std.specs.Prelude.{◌≡◌, ◌≤◌, IfSome, option_map};
ghost use Rattle.clap.specs.Words.{first_of};
ghost use Rattle.command_words.specs.Found.{rows_in};
ghost use Rattle.command_words.specs.Ranges.{IsServiceInRange, AreLimitsInRange, AreAmountsInRange};
ghost use Rattle.command_words.specs.Choices.{transport_named, mode_named, transport_in};
ghost use Rattle.command_words.specs.Choices.{mode_in, service_in, limits_in};
ghost use Rattle.command_words.specs.Choices.{local_amounts_in, work_in, language_in};

use crate::options::{Language, Limits, Mode, Service, Transport, Work};
use crate::values::{flag, number, optional_number, value_of};
use clap::ArgMatches;
use flow_types::Amounts;

#[tactic(auto, unfolding(crate::specs::Choices::transport_named))]
fn transport_named(text: &str) -> Option<Transport>
    ensures { result ≡ transport_named text.now }
{
    if "local" == text {
        Some(Transport::Local)
    } else if "wq" == text {
        Some(Transport::WorkQueue)
    } else {
        None
    }
}

#[tactic(auto, unfolding(crate::specs::Choices::mode_named))]
fn mode_named(text: &str) -> Option<Mode>
    ensures { result ≡ mode_named text.now }
{
    if "none" == text {
        Some(Mode::Never)
    } else if "ref_cnt" == text {
        Some(Mode::RefCount)
    } else if "on_demand" == text {
        Some(Mode::OnDemand)
    } else {
        None
    }
}

#[tactic(auto, unfolding(crate::specs::Choices::transport_in))]
fn transport_in(matches: &ArgMatches<'_>) -> Option<Transport>
    ensures { result ≡ transport_in (rows_in matches.now) }
{
    match value_of(matches, "T") {
        Some(text) => transport_named(text),
        None => Some(Transport::Local),
    }
}

/// `-g`.
#[tactic(auto, unfolding(crate::specs::Choices::mode_in))]
pub fn mode_in(matches: &ArgMatches<'_>) -> Option<Mode>
    ensures { result ≡ mode_in (rows_in matches.now) }
{
    match value_of(matches, "g") {
        Some(text) => mode_named(text),
        None => Some(Mode::Never),
    }
}

/// `-T`, `-p` and `-j`.
#[tactic(auto, unfolding(crate::specs::Choices::service_in))]
pub fn service_in(matches: &ArgMatches<'_>) -> Option<Service>
    ensures value { result ≡ service_in (rows_in matches.now) }
    ensures range { IfSome result IsServiceInRange }
{
    let transport = transport_in(matches)?;
    let port = number(matches, "p", 1, 65_535, 9_123)?;
    let jobs = number(matches, "j", 1, 16, 4)?;
    Some(Service {
        transport,
        port: port as u16,
        jobs: jobs as u32,
    })
}

/// `-r`, `--storage-limit` and `--idle-limit`.
#[tactic(auto, unfolding(crate::specs::Choices::limits_in))]
pub fn limits_in(matches: &ArgMatches<'_>) -> Option<Limits>
    ensures value { result ≡ limits_in (rows_in matches.now) }
    ensures range { IfSome result AreLimitsInRange }
{
    let retries = number(matches, "r", 0, 1_000, 0)?;
    let storage = optional_number(matches, "storage-limit", 0, 1 << 60)?;
    let idle = number(matches, "idle-limit", 1, 1_000_000_000, 1_000_000_000)?;
    Some(Limits {
        retries: retries as u32,
        storage,
        idle: idle as u32,
    })
}

/// `--local-cores`, `--local-memory` and `--local-disk`.
#[tactic(auto, unfolding(crate::specs::Choices::local_amounts_in))]
pub fn local_amounts_in(matches: &ArgMatches<'_>) -> Option<Amounts>
    ensures value { result ≡ local_amounts_in (rows_in matches.now) }
    ensures range { IfSome result AreAmountsInRange }
{
    let cores = number(matches, "local-cores", 0, 1_000_000_000, 64)?;
    let memory = number(matches, "local-memory", 0, 1_000_000_000, 1_000_000)?;
    let disk = number(matches, "local-disk", 0, 1_000_000_000, 1_000_000_000)?;
    Some(Amounts {
        cores: cores as u32,
        memory: memory as u32,
        disk: disk as u32,
    })
}

/// `-c` and `--print-log`.
#[tactic(auto, unfolding(crate::specs::Choices::work_in))]
pub fn work_in(matches: &ArgMatches<'_>) -> Option<Work>
    ensures { result ≡ work_in (rows_in matches.now) }
{
    match (flag(matches, "c"), flag(matches, "print-log")) {
        (true, true) => None,
        (true, false) => Some(Work::Clean),
        (false, true) => Some(Work::PrintLog),
        (false, false) => Some(Work::Run),
    }
}

/// The language of the flow's text, by `--jx`.
#[tactic(auto, unfolding(crate::specs::Choices::language_in))]
pub fn language_in(matches: &ArgMatches<'_>) -> Language
    ensures { result ≡ language_in (rows_in matches.now) }
{
    if flag(matches, "jx") {
        Language::Jx
    } else {
        Language::Make
    }
}
