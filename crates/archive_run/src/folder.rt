//! The folder of the archive, and the words of the flow.
ghost use Rattle.std.specs.Prelude.{◌≡◌, Some, IfOk, drop, string_bytes, take};
ghost use Rattle.flow_types.specs.Names.{name_of};
ghost use Rattle.archive_run.specs.Archives.{folder_of, short_name};

use flow_types::{Memory, Name, NameFault};
use std::alloc::Global;

/// The most bytes of the folder's name.
const MOST_FOLDER_BYTES: usize = 900;

// The name, where it isn't too long for a folder of entries.
fn short(name: Name) -> Option<Name>
    ensures { result ≡ short_name (Some name) }
{
    if name.as_bytes().len() > MOST_FOLDER_BYTES {
        None
    } else {
        Some(name)
    }
}

// The folder that this word names, None where it names none or the name is too long.
fn folder_named(alloc: Global, word: &String) -> Result<Option<Name>, Memory>
    ensures { IfOk result (λ found. found ≡ short_name (name_of (string_bytes word.now))) }
{
    match Name::of(alloc, word.as_bytes()) {
        Ok(name) => Ok(short(name)),
        Err(NameFault::Bad) => Ok(None),
        Err(NameFault::Memory) => Err(Memory),
    }
}

/// The folder that the second word names, None where it names none or the name is too long.
pub(crate) fn folder_of(alloc: Global, words: &[String]) -> Result<Option<Name>, Memory>
    ensures { IfOk result (λ found. found ≡ folder_of words.now) }
{
    match words.get(1) {
        Some(word) => folder_named(alloc, word),
        None => Ok(None),
    }
}

/// The program's name alone, of any words.
pub(crate) fn program_of(words: &[String]) -> &[String]
    ensures { result.now ≡ take 1 words.now }
{
    match words {
        [] => words,
        [_, ..] => &words[..1],
    }
}

/// The words without the first one. The folder's name then stands where the program's did.
pub(crate) fn flow_words(words: &[String]) -> &[String]
    ensures { result.now ≡ drop 1 words.now }
{
    match words {
        [] => words,
        [_, others @ ..] => others,
    }
}
