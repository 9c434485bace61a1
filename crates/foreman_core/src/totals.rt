//! What a foreman states of its workers.
ghost use Rattle.std.specs.Prelude.{◌≡◌};
ghost use Rattle.flow_types.specs.declared.messages.Message.TheVariants as messages;
ghost use Rattle.foreman_core.specs.Foremen.{each_amount, largest_by, total_by};

use crate::links::Below;
use flow_types::{Amounts, Message};

// The sums of the amounts over the workers, as far as they can be stated.
fn totals_of(links: &[Below]) -> Amounts
    ensures { result ≡ each_amount (λ amount. total_by amount links.now) }
{
    let mut total = Amounts {
        cores: 0,
        memory: 0,
        disk: 0,
    };
    for b in links {
        total = Amounts {
            cores: total.cores.saturating_add(b.total.cores),
            memory: total.memory.saturating_add(b.total.memory),
            disk: total.disk.saturating_add(b.total.disk),
        };
    }
    total
}

// The greatest of each amount that one job may take at a worker.
fn largest_of(links: &[Below]) -> Amounts
    ensures { result ≡ each_amount (λ amount. largest_by amount links.now) }
{
    let mut greatest = Amounts {
        cores: 0,
        memory: 0,
        disk: 0,
    };
    for b in links {
        greatest = Amounts {
            cores: greatest.cores.max(b.largest.cores),
            memory: greatest.memory.max(b.largest.memory),
            disk: greatest.disk.max(b.largest.disk),
        };
    }
    greatest
}

/// What the workers are together, with a cache of so many bytes.
pub(crate) fn stated(links: &[Below], cache: u64) -> Message
    ensures { result ≡ messages.Totals (each_amount (λ amount. total_by amount links.now))
        (each_amount (λ amount. largest_by amount links.now)) cache }
{
    Message::Totals {
        total: totals_of(links),
        largest: largest_of(links),
        cache,
    }
}
