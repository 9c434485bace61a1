//! The files that a rule names.
ghost use Rattle.std.specs.Prelude.{◌≡◌, ◌++◌, map, option_map, option_copied, IfOk, codes};
ghost use Rattle.jx_meaning.specs.Values.{plain};
ghost use Rattle.jx_values.specs.Kinds.{plain_pair, entries_in};
ghost use Rattle.jx_flow.specs.Answers.{Gives};
ghost use Rattle.jx_flow.specs.Reading.{each};
ghost use Rattle.jx_flow.specs.Files.{named_file, file_of, bound_by};
ghost use Rattle.jx_flow.specs.Files.{output_of, outputs_of, inputs_of};
ghost use Rattle.jx_flow.specs.Files.{files_in, bounds_in};

use crate::fault::JxFlowFault;
use crate::reading::{bad, items_of, missing, optional_number, optional_text, required_text};
use flow_types::{Memory, RawFile, Rows, SizeBound, Text};
use jx_syntax::{JxPair, JxValue};
use jx_values::{entries_in, find, text_in};
use std::alloc::Global;

/// An output, and the most bytes that it may have where they are stated.
#[derive(Drop)]
pub(crate) struct Output {
    pub(crate) file: RawFile,
    pub(crate) bound: Option<u32>,
}

/// The file that an object names.
fn named_file(alloc: Global, rule: Option<u32>, pairs: &[JxPair]) -> Result<RawFile, JxFlowFault>
    ensures { Gives (λ f. f) result (named_file rule (map plain_pair pairs.now)) }
{
    let local = required_text(alloc, rule, "dag_name", pairs)?;
    let remote = optional_text(alloc, rule, "task_name", pairs)?;
    Ok(RawFile { local, remote })
}

/// The file that an item of this field names.
fn file_of(
    alloc: Global,
    rule: Option<u32>,
    name: &str,
    value: &JxValue,
) -> Result<RawFile, JxFlowFault>
    ensures { Gives (λ f. f) result (file_of rule name.now (plain value.now)) }
{
    match text_in(value) {
        Some(text) => Ok(RawFile {
            local: Text::of(alloc, text)?,
            remote: None,
        }),
        None => match entries_in(value) {
            Some(pairs) => named_file(alloc, rule, pairs),
            None => Err(bad(alloc, rule, name)),
        },
    }
}

/// The bound that an output states.
fn bound_of(alloc: Global, rule: Option<u32>, value: &JxValue) -> Result<Option<u32>, JxFlowFault>
    ensures { Gives (λ n. n) result (bound_by rule (entries_in (plain value.now))) }
{
    match entries_in(value) {
        Some(pairs) => optional_number(alloc, rule, "size", 67_108_864, pairs),
        None => Ok(None),
    }
}

fn output_of(alloc: Global, rule: Option<u32>, value: &JxValue) -> Result<Output, JxFlowFault>
    ensures { Gives (λ o. o) result (output_of rule (plain value.now)) }
{
    let file = file_of(alloc, rule, "outputs", value)?;
    let bound = bound_of(alloc, rule, value)?;
    Ok(Output { file, bound })
}

fn all_outputs(
    alloc: Global,
    rule: Option<u32>,
    items: &[JxValue],
) -> Result<Rows<Output>, JxFlowFault>
    ensures { Gives (λ os. os) result (each (output_of rule) (map plain items.now)) }
{
    let mut outputs = Vec::new(alloc);
    for item in items {
        let output = output_of(alloc, rule, item)?;
        outputs.push(output)?;
    }
    Ok(Rows::of(outputs))
}

fn all_inputs(
    alloc: Global,
    rule: Option<u32>,
    items: &[JxValue],
) -> Result<Rows<RawFile>, JxFlowFault>
    ensures { Gives (λ fs. fs) result (each (file_of rule (codes "inputs")) (map plain items.now)) }
{
    let mut inputs = Vec::new(alloc);
    for item in items {
        let input = file_of(alloc, rule, "inputs", item)?;
        inputs.push(input)?;
    }
    Ok(Rows::of(inputs))
}

/// The outputs of a rule, which must be there.
pub(crate) fn outputs_of(
    alloc: Global,
    rule: Option<u32>,
    pairs: &[JxPair],
) -> Result<Rows<Output>, JxFlowFault>
    ensures { Gives (λ os. os) result (outputs_of rule (map plain_pair pairs.now)) }
{
    match find(pairs, "outputs") {
        Some(value) => {
            let items = items_of(alloc, rule, "outputs", value)?;
            all_outputs(alloc, rule, items)
        }
        None => Err(missing(alloc, rule, "outputs")),
    }
}

/// The inputs of a rule, none where they aren't there.
pub(crate) fn inputs_of(
    alloc: Global,
    rule: Option<u32>,
    pairs: &[JxPair],
) -> Result<Rows<RawFile>, JxFlowFault>
    ensures { Gives (λ fs. fs) result (inputs_of rule (map plain_pair pairs.now)) }
{
    match find(pairs, "inputs") {
        Some(value) => {
            let items = items_of(alloc, rule, "inputs", value)?;
            all_inputs(alloc, rule, items)
        }
        None => Ok(Rows::new(alloc)),
    }
}

/// The bounds that outputs state, by the names of the files.
pub(crate) fn bounds_in(alloc: Global, outputs: &[Output]) -> Result<Vec<SizeBound>, Memory>
    ensures { IfOk result (λ bounds. bounds.items ≡ bounds_in outputs.now) }
{
    let mut bounds = Vec::new(alloc);
    for output in outputs {
        if let Some(bytes) = output.bound {
            let name = output.file.local.copy(alloc)?;
            let bytes = u64::from(bytes);
            if bounds.push(SizeBound { name, bytes }).is_err() {
                return Err(Memory);
            }
        }
    }
    Ok(bounds)
}

/// The files of outputs.
pub(crate) fn files_in(alloc: Global, outputs: Rows<Output>) -> Result<Rows<RawFile>, Memory>
    ensures { IfOk result (λ files. files ≡ files_in outputs) }
{
    let mut files = Vec::new(alloc);
    for output in outputs.into_vec() {
        if files.push(output.file).is_err() {
            return Err(Memory);
        }
    }
    Ok(Rows::of(files))
}
