//! The order of a serial run, in time of the plan's ports.
ghost use Rattle.std.specs.Prelude.{◌≡◌, ℕ, List, [], ◌∷◌, ◌++◌, ◌+◌, ◌<◌, ◌^◌, ◌&&◌, ◌||◌};
ghost use Rattle.std.specs.Prelude.{◌==◌, nat_lt, not, true, false, All, IfOk, OnOk, length};
ghost use Rattle.std.specs.Prelude.{map, is_none, slice_set, slice_index, slice_index_or};
ghost use Rattle.std.specs.Ordering.{nat_cmp};
ghost use Rattle.std.specs.BTreeSet.{contains};
ghost use Rattle.flow_types.specs.declared.plan.Plan.{Plan as PlanValue};
ghost use Rattle.flow_types.specs.Plans.{IsValid, contains_number, files_of};
ghost use Rattle.flow_types.specs.Serial.{serial_order};
ghost use Rattle.rule_graph.specs.Progress.{IsWired, IsIndex, IsIndexBelow};
ghost use Rattle.rule_graph.specs.Progress.{IsUnderWay, IsMarked, unmade, times_in};

use flow_types::{FileNo, Memory, Plan, Port, Rows, Rule, RuleNo};
use std::alloc::{AllocError, Global};
use std::collections::BTreeSet;

/// The rules in the order of a serial run: again and again the least that is not yet taken and
/// whose inputs are sources or made by taken rules.
pub fn serial_order(alloc: Global, plan: &Plan) -> Result<Rows<RuleNo>, Memory>
    requires { IsValid plan.now }
    ensures { IfOk result (λ order. map (λ rule. rule.0) order ≡ serial_order plan.now) }
{
    match order_of(alloc, plan) {
        Ok(order) => Ok(Rows::of(order)),
        Err(_) => Err(Memory),
    }
}

// Which files are made, how many inputs each rule misses, and the rules that can be taken.
#[derive(Drop)]
struct Progress {
    made: Vec<bool>,
    missing: Vec<usize>,
    ready: BTreeSet<u32>,
}

pub(crate) fn order_of(alloc: Global, plan: &Plan) -> Result<Vec<RuleNo>, AllocError>
    requires { IsWired plan.now }
    ensures { IfOk result (λ order. map (λ rule. rule.0) order.items ≡ serial_order plan.now) }
{
    let index = takers_of(alloc, plan)?;
    let mut progress = at_start(alloc, plan)?;
    let mut taken = Vec::new(alloc);
    'rounds: for _round in 0..plan.rules.len() {
        match progress.ready.pop_first() {
            Some(rule) => {
                taken.push(RuleNo(rule))?;
                let row = &plan.rules.as_slice()[rule as usize];
                finish(&mut progress, &index, &row.outputs)?;
            }
            None => break,
        }
    }
    Ok(taken)
}

// The takers of each file.
fn takers_of(alloc: Global, plan: &Plan) -> Result<Vec<Rows<u32>>, AllocError>
    requires { IsWired plan.now }
    ensures { IfOk result (λ index. IsIndex plan.now index.items) }
{
    let mut index = empty_index(alloc, plan.files.len())?;
    'rules: for rule in 0..plan.rules.len() {
        let row = &plan.rules.as_slice()[rule];
        add_takers(&mut index, rule as u32, &row.inputs)?;
    }
    Ok(index)
}

fn empty_index(alloc: Global, files: usize) -> Result<Vec<Rows<u32>>, AllocError>
    ensures len { IfOk result (λ index. length index.items ≡ files) }
    ensures empty { IfOk result (λ index. All (λ takers. takers ≡ []) index.items) }
{
    let mut index = Vec::new(alloc);
    'files: for _file in 0..files {
        index.push(Rows::new(alloc))?;
    }
    Ok(index)
}

// Puts a rule among the takers of each of its inputs.
fn add_takers(index: &mut Vec<Rows<u32>>, rule: u32, inputs: &Rows<Port>) -> Result<(), AllocError>
    requires { All (λ port. port.file.0 < length index.old.items) inputs.now }
    ensures len { OnOk result (length index.new.items ≡ length index.old.items) }
    ensures inside { OnOk result ((n : ℕ) → rule < n
        → All (All (λ t. t < n)) index.old.items → All (All (λ t. t < n)) index.new.items) }
    ensures own { OnOk result ((f : ℕ) → f < length index.old.items
        → times_in rule (slice_index_or index.new.items f [])
        ≡ times_in rule (slice_index_or index.old.items f []) + times_in f (files_of inputs.now)) }
    ensures others { OnOk result ((t f : ℕ) → (rule == t) ≡ false
        → times_in t (slice_index_or index.new.items f [])
        ≡ times_in t (slice_index_or index.old.items f [])) }
{
    for port in inputs.as_slice() {
        add_taker(index, port.file, rule)?;
    }
    Ok(())
}

fn add_taker(index: &mut Vec<Rows<u32>>, file: FileNo, rule: u32) -> Result<(), AllocError>
    requires { file.0 < length index.old.items }
    ensures { OnOk result (index.new.items ≡ slice_set index.old.items file.0
        (slice_index_or index.old.items file.0 [] ++ rule ∷ [])) }
{
    match index[file.0 as usize].push(rule) {
        Ok(()) => Ok(()),
        Err(_) => Err(AllocError),
    }
}

fn at_start(alloc: Global, plan: &Plan) -> Result<Progress, AllocError>
    requires { IsWired plan.now }
    ensures under_way { IfOk result (λ progress. IsUnderWay plan.now [] [] progress) }
    ensures marked { IfOk result (λ progress. IsMarked plan.now [] progress.made.items) }
{
    let made = sources(alloc, plan)?;
    let missing = missing_inputs(alloc, plan, &made)?;
    let ready = rules_without(alloc, &missing)?;
    Ok(Progress {
        made,
        missing,
        ready,
    })
}

fn sources(alloc: Global, plan: &Plan) -> Result<Vec<bool>, AllocError>
    ensures { IfOk result (λ made. made.items ≡ map (λ row. is_none row.maker) plan.now.files) }
{
    plan.files
        .as_slice()
        .iter()
        .map(|row| row.maker.is_none())
        .collect(alloc)
}

fn is_marked(made: &[bool], file: FileNo) -> bool
    ensures { result ≡ slice_index_or made.now file.0 false }
{
    match made.get(file.0 as usize) {
        Some(mark) => *mark,
        None => false,
    }
}

fn missing_of(made: &[bool], rule: &Rule) -> usize
    ensures { result ≡ unmade made.now (files_of rule.now.inputs) }
{
    let mut missing = 0;
    for port in rule.inputs.as_slice() {
        if !is_marked(made, port.file) {
            missing += 1;
        }
    }
    missing
}

fn missing_inputs(alloc: Global, plan: &Plan, made: &[bool]) -> Result<Vec<usize>, AllocError>
    ensures { IfOk result (λ missing. missing.items
        ≡ map (λ rule. unmade made.now (files_of rule.inputs)) plan.now.rules) }
{
    plan.rules
        .as_slice()
        .iter()
        .map(|rule| missing_of(made, rule))
        .collect(alloc)
}

// The rules that miss no input.
fn rules_without(alloc: Global, missing: &[usize]) -> Result<BTreeSet<u32>, AllocError>
    requires { length missing.now < 2 ^ 32 }
    ensures { IfOk result (λ ready. (t : ℕ) → contains nat_cmp ready t
        ≡ (nat_lt t (length missing.now) && (slice_index missing.now t == 0))) }
{
    let mut ready = BTreeSet::new(alloc);
    'rules: for rule in 0..missing.len() {
        if missing[rule] == 0 {
            ready.insert(rule as u32)?;
        }
    }
    Ok(ready)
}

// A rule hears that one input more is made.
fn note(progress: &mut Progress, rule: u32) -> Result<(), AllocError>
    requires { rule < length progress.old.missing.items }
    ensures under_way { OnOk result ((P : PlanValue) (taken rest : List ℕ)
        → IsUnderWay P taken (rule ∷ rest) progress.old → IsUnderWay P taken rest progress.new) }
    ensures made { OnOk result (progress.new.made.items ≡ progress.old.made.items) }
    ensures rules { OnOk result
        (length progress.new.missing.items ≡ length progress.old.missing.items) }
{
    let left = progress.missing[rule as usize].saturating_sub(1);
    progress.missing[rule as usize] = left;
    if left == 0 {
        progress.ready.insert(rule)?;
    }
    Ok(())
}

// All takers of a file hear that it is made.
fn announce(progress: &mut Progress, takers: &[u32]) -> Result<(), AllocError>
    requires { All (λ t. t < length progress.old.missing.items) takers.now }
    ensures under_way { OnOk result ((P : PlanValue) (taken : List ℕ)
        → IsUnderWay P taken takers.now progress.old → IsUnderWay P taken [] progress.new) }
    ensures made { OnOk result (progress.new.made.items ≡ progress.old.made.items) }
    ensures rules { OnOk result
        (length progress.new.missing.items ≡ length progress.old.missing.items) }
{
    for rule in takers {
        note(progress, *rule)?;
    }
    Ok(())
}

fn set_mark(made: &mut Vec<bool>, file: FileNo)
    requires { file.0 < length made.old.items }
    ensures { made.new.items ≡ slice_set made.old.items file.0 true }
{
    made[file.0 as usize] = true;
}

// Marks a file as made, and tells its takers.
fn mark(progress: &mut Progress, index: &[Rows<u32>], file: FileNo) -> Result<(), AllocError>
    requires inside { file.0 < length progress.old.made.items }
    requires files { length index.now ≡ length progress.old.made.items }
    requires rules { All (All (λ t. t < length progress.old.missing.items)) index.now }
    ensures under_way { OnOk result ((P : PlanValue) (taken : List ℕ) → IsIndex P index.now
        → IsUnderWay P taken [] progress.old → IsUnderWay P taken [] progress.new) }
    ensures made { OnOk result
        (progress.new.made.items ≡ slice_set progress.old.made.items file.0 true) }
    ensures rules { OnOk result
        (length progress.new.missing.items ≡ length progress.old.missing.items) }
{
    if is_marked(&progress.made, file) {
        return Ok(());
    }
    set_mark(&mut progress.made, file);
    announce(progress, index[file.0 as usize].as_slice())?;
    Ok(())
}

// Marks the outputs of a rule that was taken as made.
fn finish(
    progress: &mut Progress,
    index: &[Rows<u32>],
    outputs: &Rows<Port>,
) -> Result<(), AllocError>
    requires inside { All (λ port. port.file.0 < length progress.old.made.items) outputs.now }
    requires files { length index.now ≡ length progress.old.made.items }
    requires rules { All (All (λ t. t < length progress.old.missing.items)) index.now }
    ensures under_way { OnOk result ((P : PlanValue) (taken : List ℕ) → IsIndex P index.now
        → IsUnderWay P taken [] progress.old → IsUnderWay P taken [] progress.new) }
    ensures made { OnOk result ((f : ℕ) → f < length progress.old.made.items
        → slice_index_or progress.new.made.items f false
        ≡ (slice_index_or progress.old.made.items f false
        || contains_number f (files_of outputs.now))) }
{
    for port in outputs.as_slice() {
        mark(progress, index, port.file)?;
    }
    Ok(())
}
