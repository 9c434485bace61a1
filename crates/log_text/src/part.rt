//! The current part of a log.
ghost use Rattle.std.specs.Prelude.{◌≡◌, ◌≤◌, drop, length};
ghost use Rattle.run_history.specs.History.{is_cleaned, part};

use flow_types::{EndKind, Record};

fn is_cleaned(entry: &Record) -> bool
    ensures { result ≡ is_cleaned entry.now }
{
    matches!(
        entry,
        Record::Ended {
            kind: EndKind::Cleaned,
            ..
        }
    )
}

// Where the part begins: behind the last cleaning.
fn part_start(history: &[Record]) -> usize
    ensures inside { result ≤ length history.now }
    ensures part { drop result history.now ≡ part history.now }
{
    let mut start = 0;
    for (at, entry) in history.iter().enumerate() {
        start = if is_cleaned(entry) { at + 1 } else { start };
    }
    start
}

/// The records of the current part: those behind the last cleaning, or all. It looks at each record
/// once, and takes no memory.
pub fn part_of(history: &[Record]) -> &[Record]
    ensures { result.now ≡ part history.now }
{
    &history[part_start(history)..]
}
