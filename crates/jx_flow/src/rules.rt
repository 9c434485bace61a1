//! The rules of a text.
ghost use Rattle.std.specs.Prelude.{◌≡◌, ◌++◌, map, IfOk, unwrap_or};
ghost use Rattle.jx_meaning.specs.Values.{plain};
ghost use Rattle.jx_values.specs.Kinds.{plain_pair};
ghost use Rattle.jx_flow.specs.Answers.{Gives};
ghost use Rattle.jx_flow.specs.Reading.{each_at};
ghost use Rattle.jx_flow.specs.Rules.{command_of, local_of, action_of};
ghost use Rattle.jx_flow.specs.Rules.{setting_of, made_of, rule_of};

use crate::amounts::{Category, general_of, resources_of};
use crate::fault::JxFlowFault;
use crate::files::{Output, bounds_in, files_in, inputs_of, outputs_of};
use crate::reading::{entries_of, optional_text, required_text, truth_of};
use crate::variables::{MOST_BYTES, environment_of};
use flow_types::{Memory, Needs, Pair, RawFile, RawRule, Rows, SizeBound, Text};
use jx_syntax::{JxPair, JxValue};
use jx_values::find;
use std::alloc::Global;

/// What holds for all rules.
#[derive(Drop)]
pub(crate) struct General {
    pub(crate) variables: Rows<Pair>,
    pub(crate) categories: Rows<Category>,
    pub(crate) category: Text,
}

/// What a rule does.
#[derive(Drop)]
pub(crate) struct Action {
    pub(crate) command: Text,
    pub(crate) outputs: Rows<Output>,
    pub(crate) inputs: Rows<RawFile>,
    pub(crate) local: bool,
}

/// What a rule runs in.
#[derive(Drop)]
pub(crate) struct Setting {
    pub(crate) env: Rows<Pair>,
    pub(crate) needs: Needs,
}

/// A rule, and the bounds of its outputs.
#[derive(Drop)]
pub(crate) struct Made {
    pub(crate) rule: RawRule,
    pub(crate) bounds: Rows<SizeBound>,
}

fn command_of(alloc: Global, rule: Option<u32>, pairs: &[JxPair]) -> Result<Text, JxFlowFault>
    ensures { Gives (λ t. t) result (command_of rule (map plain_pair pairs.now)) }
{
    let command = required_text(alloc, rule, "command", pairs)?;
    if command.as_str().len() > MOST_BYTES {
        return Err(JxFlowFault::TooLarge(MOST_BYTES as u64));
    }
    Ok(command)
}

fn local_of(alloc: Global, rule: Option<u32>, pairs: &[JxPair]) -> Result<bool, JxFlowFault>
    ensures { Gives (λ t. t) result (local_of rule (map plain_pair pairs.now)) }
{
    match find(pairs, "local_job") {
        Some(value) => truth_of(alloc, rule, "local_job", value),
        None => Ok(false),
    }
}

fn action_of(alloc: Global, rule: Option<u32>, pairs: &[JxPair]) -> Result<Action, JxFlowFault>
    ensures { Gives (λ a. a) result (action_of rule (map plain_pair pairs.now)) }
{
    let command = command_of(alloc, rule, pairs)?;
    let outputs = outputs_of(alloc, rule, pairs)?;
    let inputs = inputs_of(alloc, rule, pairs)?;
    let local = local_of(alloc, rule, pairs)?;
    Ok(Action {
        command,
        outputs,
        inputs,
        local,
    })
}

/// The name of a rule's category.
fn category_of<'a>(own: &'a Option<Text>, general: &'a General) -> &'a str
    ensures { result.now ≡ unwrap_or own.now general.now.category }
{
    match own {
        Some(name) => name.as_str(),
        None => general.category.as_str(),
    }
}

fn setting_of(
    alloc: Global,
    general: &General,
    rule: u32,
    pairs: &[JxPair],
) -> Result<Setting, JxFlowFault>
    ensures { Gives (λ s. s) result (setting_of general.now rule (map plain_pair pairs.now)) }
{
    let own = optional_text(alloc, Some(rule), "category", pairs)?;
    let name = category_of(&own, general);
    let resources = general_of(rule, name, general.categories.as_slice())?;
    let variables = general.variables.as_slice();
    let env = environment_of(alloc, Some(rule), variables, find(pairs, "environment"))?;
    let stated = resources_of(alloc, Some(rule), pairs)?;
    let needs = stated.over(resources).needs();
    Ok(Setting { env, needs })
}

fn made_of(alloc: Global, place: u32, action: Action, setting: Setting) -> Result<Made, Memory>
    ensures { IfOk result (λ m. m ≡ made_of place action setting) }
{
    let bounds = bounds_in(alloc, action.outputs.as_slice())?;
    let outputs = files_in(alloc, action.outputs)?;
    Ok(Made {
        rule: RawRule {
            place,
            outputs,
            inputs: action.inputs,
            command: action.command,
            local: action.local,
            needs: setting.needs,
            env: setting.env,
        },
        bounds: Rows::of(bounds),
    })
}

/// The rule that an item of `rules` says.
fn rule_of(
    alloc: Global,
    general: &General,
    index: u32,
    item: &JxValue,
) -> Result<Made, JxFlowFault>
    ensures { Gives (λ m. m) result (rule_of general.now index (plain item.now)) }
{
    let pairs = entries_of(alloc, Some(index), "rules", item)?;
    let action = action_of(alloc, Some(index), pairs)?;
    let setting = setting_of(alloc, general, index, pairs)?;
    Ok(made_of(alloc, index, action, setting)?)
}

/// The rules that a list says, in order.
pub(crate) fn rules_of(
    alloc: Global,
    general: &General,
    items: &[JxValue],
) -> Result<Rows<Made>, JxFlowFault>
    ensures { Gives (λ made. made) result (each_at (rule_of general.now) 0 (map plain items.now)) }
{
    let mut made = Vec::new(alloc);
    let mut index: u32 = 0;
    for item in items {
        let one = rule_of(alloc, general, index, item)?;
        made.push(one)?;
        index = index.saturating_add(1);
    }
    Ok(Rows::of(made))
}
