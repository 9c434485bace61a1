//! What a run is asked for: `MODE LIMIT RETRIES CORES`, with ` wq` behind it where rules run on
//! workers. MODE is `never`, `refcount` or `ondemand`, LIMIT a number of bytes or `-`, and CORES
//! those of link 0.
use crate::words::{first, number, place, small};
use run_history::{Mode, Options};

fn mode_of(word: &str) -> Option<Mode> {
    match word {
        "never" => Some(Mode::Never),
        "refcount" => Some(Mode::RefCount),
        "ondemand" => Some(Mode::OnDemand),
        _ => None,
    }
}

fn limit_of(word: &str) -> Option<Option<u64>> {
    if word == "-" {
        return Some(None);
    }
    Some(Some(number(word)?))
}

/// The options that a line says.
pub fn options_of(line: &str) -> Option<Options> {
    let (mode, rest) = first(line);
    let (limit, rest) = first(rest);
    let (retries, rest) = first(rest);
    let (cores, rest) = first(rest);
    Some(Options {
        mode: mode_of(mode)?,
        limit: limit_of(limit)?,
        retries: small(retries)?,
        wq: rest == "wq",
        local: place(small(cores)?),
    })
}
