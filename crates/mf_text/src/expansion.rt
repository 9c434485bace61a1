//! The expansion of the variables in a text.
ghost use Rattle.std.specs.Prelude.{if◌then◌else◌, Ok, Err};
ghost use Rattle.std.specs.FinMap as map;
ghost use Rattle.mf_text.specs.Answers.{Gives};
ghost use Rattle.mf_text.specs.Expansion.{expansion, shortened_expansion};

use crate::fault::MakeFault;
use crate::lines::MAX_TEXT;
use crate::output::{Expanded, Output};
use crate::parts::Parts;
use crate::scope::Scope;
use flow_types::Text;
use std::alloc::Global;

/// A text of this line, expanded once from left to right: `$NAME`, `$(NAME)` and `${NAME}` become
/// the name's value, `$$` a dollar; what is put in isn't expanded again. The leftmost unknown name
/// comes before an open mark, and both before a text that grows past 16,777,216 bytes.
pub fn expand(alloc: Global, scope: &Scope, line: u32, text: &str) -> Result<Text, MakeFault>
    ensures { Gives (λ text. text) result (expansion (map.get scope.now) line text.now) }
{
    match expand_shortened(alloc, scope, line, text) {
        Ok(made) => whole(made),
        Err(fault) => Err(fault),
    }
}

fn whole(made: Expanded) -> Result<Text, MakeFault>
    ensures { Gives (λ text. text) result
        (if made.is_too_large then Err (MakeFault.TooLarge 16777216) else Ok made.text) }
{
    if made.is_too_large {
        Err(MakeFault::TooLarge(MAX_TEXT))
    } else {
        Ok(made.text)
    }
}

/// As `expand`, but a text that grows past 16,777,216 bytes is made with fewer of its values, so
/// that what else is wrong with its line can be told.
pub fn expand_shortened(
    alloc: Global,
    scope: &Scope,
    line: u32,
    text: &str,
) -> Result<Expanded, MakeFault>
    ensures { Gives (λ made. made) result (shortened_expansion (map.get scope.now) line text.now) }
{
    let mut parts = Parts::of(text);
    let mut output = Output::new(alloc);
    while let Some(part) = parts.next() {
        output.add(alloc, scope, line, part)?;
    }
    output.finish(line)
}
