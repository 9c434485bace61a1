//! The words of a command line.
ghost use Rattle.std.specs.Prelude.{◌≡◌, ◌⊎◌, IfErr, IfOk, None, Some, map, string_bytes};
ghost use Rattle.batch_run.specs.Batch.{asked_by};

use crate::cause::BatchCause;
use command_words::number_in;
use flow_types::{Name, NameFault};
use std::alloc::Global;

/// The port to listen at, and the file of commands.
#[derive(Drop)]
pub(crate) struct Ask {
    pub(crate) port: u16,
    pub(crate) file: Name,
}

/// What the words ask for.
pub(crate) fn read_words(alloc: Global, words: &[String]) -> Result<Ask, BatchCause>
    ensures ok { IfOk result (λ ask. asked_by (map string_bytes words.now) ≡ Some ask) }
    ensures refused { IfErr result (λ why. (why ≡ BatchCause.Memory)
        ⊎ ((why ≡ BatchCause.Usage) × (asked_by (map string_bytes words.now) ≡ None))) }
{
    let [_, port, file] = words else {
        return Err(BatchCause::Usage);
    };
    let Some(port) = number_in(port.as_str(), 1, 65_535) else {
        return Err(BatchCause::Usage);
    };
    match Name::of(alloc, file.as_bytes()) {
        Ok(file) => Ok(Ask {
            port: port as u16,
            file,
        }),
        Err(NameFault::Bad) => Err(BatchCause::Usage),
        Err(NameFault::Memory) => Err(BatchCause::Memory),
    }
}
