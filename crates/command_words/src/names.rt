// The names that the arguments of `makeflow` choose.
ghost use Rattle.std.specs.Prelude.{◌≡◌, ◌++◌, Some, None, IfOk, IsErrOf, codes};
ghost use Rattle.flow_types.specs.Names.{name_of};
ghost use Rattle.command_words.specs.Found.{rows_in};
ghost use Rattle.command_words.specs.Choices.{default_log, flow_in, log_in, within_room};
ghost use Rattle.command_words.specs.Ranges.{IsFlowInRange};

use crate::choices::language_in;
use crate::fault::WordsFault;
use crate::options::{Flow, Language};
use crate::values::{optional_number, value_of};
use clap::ArgMatches;
use flow_types::{Name, NameFault};
use std::alloc::Global;

/// The name that a text writes: Usage where it is none.
pub fn name_of(alloc: Global, text: &[u8]) -> Result<Name, WordsFault>
    ensures ok { IfOk result (λ name. name_of text.now ≡ Some name) }
    ensures usage { IsErrOf result WordsFault.Usage → name_of text.now ≡ None }
{
    match Name::of(alloc, text) {
        Ok(name) => Ok(name),
        Err(NameFault::Bad) => Err(WordsFault::Usage),
        Err(NameFault::Memory) => Err(WordsFault::Memory),
    }
}

/// FILE, `--generate` and `--jx`.
#[tactic(auto, unfolding(crate::specs::Choices::flow_in))]
pub fn flow_in(alloc: Global, matches: &ArgMatches<'_>) -> Result<Flow, WordsFault>
    ensures ok { IfOk result (λ flow. flow_in (rows_in matches.now) ≡ Some flow) }
    ensures usage { IsErrOf result WordsFault.Usage → flow_in (rows_in matches.now) ≡ None }
    ensures range { IfOk result IsFlowInRange }
{
    let Some(generated) = optional_number(matches, "generate", 1, 5_000) else {
        return Err(WordsFault::Usage);
    };
    let language = language_in(matches);
    match (value_of(matches, "file"), generated, language) {
        (Some(text), None, language) => {
            let name = name_of(alloc, text.as_bytes())?;
            Ok(Flow::File { name, language })
        }
        (None, Some(rules), Language::Make) => Ok(Flow::Generated {
            rules: rules as u32,
        }),
        _ => Err(WordsFault::Usage),
    }
}

// The name of FILE and `.makeflowlog`.
fn file_log(alloc: Global, name: &Name) -> Result<Name, WordsFault>
    ensures ok { IfOk result (λ log. within_room (name.now ++ codes ".makeflowlog") ≡ Some log) }
    ensures usage { IsErrOf result WordsFault.Usage →
        within_room (name.now ++ codes ".makeflowlog") ≡ None }
{
    let mut text = Vec::from_slice(alloc, name.as_bytes())?;
    text.extend_from_slice(b".makeflowlog")?;
    name_of(alloc, &text)
}

fn default_log(alloc: Global, flow: &Flow) -> Result<Name, WordsFault>
    ensures ok { IfOk result (λ log. default_log flow.now ≡ Some log) }
    ensures usage { IsErrOf result WordsFault.Usage → default_log flow.now ≡ None }
{
    match flow {
        Flow::File { name, .. } => file_log(alloc, name),
        Flow::Generated { .. } => name_of(alloc, b"generated.makeflowlog"),
    }
}

/// The log's name: `-l`, or the default.
#[tactic(auto, unfolding(crate::specs::Choices::log_in))]
pub fn log_in(alloc: Global, matches: &ArgMatches<'_>, flow: &Flow) -> Result<Name, WordsFault>
    ensures ok { IfOk result (λ log. log_in (rows_in matches.now) flow.now ≡ Some log) }
    ensures usage { IsErrOf result WordsFault.Usage → log_in (rows_in matches.now) flow.now ≡ None }
{
    match value_of(matches, "l") {
        Some(text) => name_of(alloc, text.as_bytes()),
        None => default_log(alloc, flow),
    }
}
