//! The outputs and inputs that the head of a rule names.
ghost use Rattle.std.specs.Prelude.{◌≡◌, ◌<◌, IfOk, MatchOption, [], ◌∷◌, length};
ghost use Rattle.mf_forms.specs.Quotes.{placed, without_marks};
ghost use Rattle.mf_forms.specs.Heads.{items, remote_of, file_of, files_in, files_of_head};

use crate::blanks::without_front;
use crate::quotes::{bare_position, without_marks};
use flow_types::{Memory, RawFile, Rows, Text};
use std::alloc::Global;

/// The files of a rule as its head names them.
#[derive(Drop)]
pub struct HeadFiles {
    pub outputs: Rows<RawFile>,
    pub inputs: Rows<RawFile>,
}

/// The files that the expanded text of a head names: outputs before the first colon outside
/// quotes, inputs behind it. None where there is no such colon.
pub fn files_of_head(alloc: Global, text: &str) -> Result<Option<HeadFiles>, Memory>
    ensures { IfOk result (λ files. files ≡ files_of_head text.now) }
{
    let (before, rest) = text.split_at(bare_position(text, b":"));
    let Some(behind) = rest.strip_prefix(':') else {
        return Ok(None);
    };
    let outputs = files_in(alloc, before)?;
    let inputs = files_in(alloc, behind)?;
    Ok(Some(HeadFiles { outputs, inputs }))
}

fn files_in(alloc: Global, text: &str) -> Result<Rows<RawFile>, Memory>
    ensures { IfOk result (λ files. files ≡ files_in text.now) }
{
    let mut files = Vec::new(alloc);
    let mut rest = text;
    while let Some((item, behind)) = next_item(rest) {
        if files.push(file_of(alloc, item)?).is_err() {
            return Err(Memory);
        }
        rest = behind;
    }
    files.shrink_to_fit();
    Ok(Rows::of(files))
}

// The first item with its quotation marks, and what follows it; none where there is no item.
fn next_item(text: &str) -> Option<(&str, &str)>
    ensures items { MatchOption result (items text.now ≡ []) (λ x.
        items text.now ≡ without_marks (placed x.0.now) ∷ items x.1.now) }
    ensures shorter { MatchOption result
        (items text.now ≡ []) (λ x. length x.1.now < length text.now) }
{
    let rest = without_front(text);
    let (item, behind) = rest.split_at(bare_position(rest, b" \t"));
    if item.is_empty() {
        None
    } else {
        Some((item, behind))
    }
}

// The file that an item names, which still has its quotation marks.
fn file_of(alloc: Global, item: &str) -> Result<RawFile, Memory>
    ensures { IfOk result (λ file. file ≡ file_of (without_marks (placed item.now))) }
{
    let item = without_marks(alloc, item)?;
    match item.split_once("->") {
        None => {
            let local = Text::of(alloc, &item)?;
            Ok(RawFile {
                local,
                remote: None,
            })
        }
        Some((local, remote)) => {
            let local = Text::of(alloc, local)?;
            let remote = remote_of(alloc, remote)?;
            Ok(RawFile { local, remote })
        }
    }
}

// The remote name behind an arrow, where there is one.
fn remote_of(alloc: Global, remote: &str) -> Result<Option<Text>, Memory>
    ensures { IfOk result (λ name. name ≡ remote_of remote.now) }
{
    if remote.is_empty() {
        Ok(None)
    } else {
        Ok(Some(Text::of(alloc, remote)?))
    }
}
