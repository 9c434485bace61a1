//! The run of a desk: `collect`, `end`, `stop halt`, `stop waited IDLES`, `works`, and `read FILE`, by
//! the file's number.
use crate::answers::shown_damage;
use crate::words::{first, number, said, small, told, whether};
use cases::shown;
use desk::InputRefused;
use desk_bench::Bench;
use flow_types::FileNo;
use run_history::Stop;
use std::alloc::{AllocError, Global};

// When a file is dropped or the run ends.
const MOMENT: u64 = 9;

fn collect(alloc: Global, bench: &mut Bench) -> Result<String, AllocError> {
    match bench.collect(MOMENT) {
        Ok(Some(file)) => format!(in alloc; "collected {}", file.0),
        Ok(None) => said(alloc, "collected nothing"),
        Err(why) => told(alloc, &why),
    }
}

fn end(alloc: Global, bench: &mut Bench) -> Result<String, AllocError> {
    match bench.end(MOMENT) {
        Ok(answer) => told(alloc, &answer),
        Err(why) => told(alloc, &why),
    }
}

fn stop_of(line: &str) -> Option<Stop> {
    let (kind, rest) = first(line);
    match kind {
        "halt" => Some(Stop::Halt),
        "waited" => Some(Stop::Waited {
            idles: number(rest)?,
        }),
        _ => None,
    }
}

fn stop(alloc: Global, bench: &mut Bench, line: &str) -> Result<String, AllocError> {
    match stop_of(line) {
        Some(why) => {
            let stands = bench.stop(why);
            said(alloc, if stands { "stops" } else { "goes on" })
        }
        None => said(alloc, "no stop"),
    }
}

fn shown_refusal(alloc: Global, why: InputRefused) -> Result<String, AllocError> {
    match why {
        InputRefused::Damaged {
            file,
            logged,
            found,
        } => shown_damage(alloc, file, logged, found),
        _ => told(alloc, &why),
    }
}

fn read(alloc: Global, bench: &mut Bench, word: &str) -> Result<String, AllocError> {
    let Some(file) = small(word) else {
        return said(alloc, "no number");
    };
    match bench.read(alloc, FileNo(file)) {
        Some(Ok(content)) => {
            let content = shown(alloc, content.as_slice())?;
            format!(in alloc; "[{content}]")
        }
        Some(Err(why)) => shown_refusal(alloc, why),
        None => said(alloc, "not present"),
    }
}

/// Does what a line of this kind says with the run, or answers that there is no such line.
pub fn of_run(
    alloc: Global,
    bench: &mut Bench,
    kind: &str,
    line: &str,
) -> Result<String, AllocError> {
    match kind {
        "collect" => collect(alloc, bench),
        "end" => end(alloc, bench),
        "stop" => stop(alloc, bench, line),
        "works" => whether(alloc, bench.works()),
        "read" => read(alloc, bench, line),
        _ => said(alloc, "no such line"),
    }
}
