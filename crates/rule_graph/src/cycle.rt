//! The loop that is named where a serial run leaves rules over, in time of the plan's ports.
ghost use Rattle.std.specs.Prelude.{◌≡◌, ◌<◌, ◌≤◌, ◌^◌, ◌==◌, true, false, not, IfOk};
ghost use Rattle.std.specs.Prelude.{IsTrue, MatchOption, length, min, replicate};
ghost use Rattle.std.specs.Prelude.{slice_set, slice_index, slice_index_or};
ghost use Rattle.std.specs.List.{prefix_len};
ghost use Rattle.std.specs.Option.{option_map, option_map_or};
ghost use Rattle.flow_types.specs.Plans.{contains_number, files_of, maker_of};
ghost use Rattle.rule_graph.specs.Progress.{IsWired};
ghost use Rattle.rule_graph.specs.Cycles.{left_over, from_first};
ghost use Rattle.rule_graph.specs.Loops.{IsNumbered, NoneNamedWhereAllAreTaken};
ghost use Rattle.rule_graph.specs.Loops.{NoneNamedWhereNoneIs, NamedLoopIsALoop};
ghost use Rattle.rule_graph.specs.Loops.{NamedLoopIsTheLoop, LoopsAreLeftOver};
ghost use Rattle.rule_graph.specs.Loops.{ValidPlansAreNumbered, named_loop, step};
ghost use Rattle.rule_graph.specs.Walking.{numbers_of, rule_number, file_number, is_never_made};
ghost use Rattle.rule_graph.specs.Walking.{AreMarks, HasNoMark, IsFirstMark, IsLeastOf};
ghost use Rattle.rule_graph.specs.Walking.{IsLeastPlace, IsWalkOf, ComesRound, IsTurned};

use crate::order::order_of;
use flow_types::{FileNo, Plan, Port, Rows, RuleNo};
use std::alloc::{AllocError, Global};

/// No loop is named exactly where the serial order has every rule, which is exactly where the plan
/// has no loop. The loop that is named is a loop of the plan: the one to which the steps from the
/// least rule left over lead, begun at its least rule. All this holds of plans whose files are
/// numbered, as those of valid plans are.
pub fn the_named_loop()
    ensures taken { NoneNamedWhereAllAreTaken }
    ensures none { NoneNamedWhereNoneIs }
    ensures a_loop { NamedLoopIsALoop }
    ensures the_loop { NamedLoopIsTheLoop }
    ensures left_over { LoopsAreLeftOver }
    ensures valid { ValidPlansAreNumbered }
{}

// The loop that is named, none where a serial run comes to every rule.
pub(crate) fn loop_of(alloc: Global, plan: &Plan) -> Result<Option<Vec<RuleNo>>, AllocError>
    requires { IsNumbered plan.now }
    ensures { IfOk result (λ v. option_map (λ r. numbers_of r.items) v ≡ named_loop plan.now) }
{
    let left = left_marks(alloc, plan)?;
    match first_marked(&left) {
        Some(first) => {
            let walk = walk_from(alloc, plan, &left, first)?;
            let rules = begun_at_least(alloc, loop_in(&walk))?;
            Ok(Some(rules))
        }
        None => Ok(None),
    }
}

// Marks the rules that a serial run leaves over.
fn left_marks(alloc: Global, plan: &Plan) -> Result<Vec<bool>, AllocError>
    requires { IsWired plan.now }
    ensures rules { IfOk result (λ left. length left.items ≡ length plan.now.rules) }
    ensures marks { IfOk result (λ left. AreMarks (left_over plan.now) left.items) }
{
    let mut left = marks(alloc, plan.rules.len(), true)?;
    let taken = order_of(alloc, plan)?;
    for rule in taken.as_slice() {
        set_mark(&mut left, *rule, false);
    }
    Ok(left)
}

// As many marks as there are rules.
fn marks(alloc: Global, count: usize, mark: bool) -> Result<Vec<bool>, AllocError>
    ensures { IfOk result (λ marks. marks.items ≡ replicate count mark) }
{
    vec![in alloc; mark; count]
}

fn set_mark(marks: &mut Vec<bool>, rule: RuleNo, mark: bool)
    requires { rule.0 < length marks.old.items }
    ensures { marks.new.items ≡ slice_set marks.old.items rule.0 mark }
{
    marks[rule.0 as usize] = mark;
}

fn is_marked(marks: &[bool], rule: RuleNo) -> bool
    ensures { result ≡ slice_index_or marks.now rule.0 false }
{
    match marks.get(rule.0 as usize) {
        Some(mark) => *mark,
        None => false,
    }
}

// The least rule that is marked.
fn first_marked(marks: &[bool]) -> Option<RuleNo>
    requires { length marks.now < 2 ^ 32 }
    ensures { MatchOption result (HasNoMark marks.now) (λ first. IsFirstMark marks.now first.0) }
{
    'rules: for rule in 0..marks.len() {
        if marks[rule] {
            return Some(RuleNo(rule as u32));
        }
    }
    None
}

fn maker_of(plan: &Plan, file: FileNo) -> Option<RuleNo>
    ensures { rule_number result ≡ maker_of plan.now file.0 }
{
    match plan.files.get(file.0 as usize) {
        Some(row) => row.maker,
        None => None,
    }
}

// Whether the file's maker is left over.
fn is_never_made(plan: &Plan, left: &[bool], file: FileNo) -> bool
    requires { AreMarks (left_over plan.now) left.now }
    ensures { result ≡ is_never_made plan.now file.0 }
{
    match maker_of(plan, file) {
        Some(maker) => is_marked(left, maker),
        None => false,
    }
}

fn lesser(least: Option<FileNo>, file: FileNo) -> FileNo
    ensures { result.0 ≡ option_map_or (λ other. min other.0 file.0) least file.0 }
{
    match least {
        Some(other) if other.0 < file.0 => other,
        _ => file,
    }
}

// The least input whose maker is left over.
fn least_input(plan: &Plan, left: &[bool], inputs: &Rows<Port>) -> Option<FileNo>
    requires { AreMarks (left_over plan.now) left.now }
    ensures { IsLeastOf (is_never_made plan.now) (files_of inputs.now) (file_number result) }
{
    let mut least = None;
    for port in inputs.as_slice() {
        if is_never_made(plan, left, port.file) {
            least = Some(lesser(least, port.file));
        }
    }
    least
}

// The maker of the rule's least input whose maker is left over.
fn maker_before(plan: &Plan, left: &[bool], rule: RuleNo) -> Option<RuleNo>
    requires { AreMarks (left_over plan.now) left.now }
    ensures { rule_number result ≡ step plan.now rule.0 }
{
    match plan.rules.get(rule.0 as usize) {
        Some(row) => match least_input(plan, left, &row.inputs) {
            Some(file) => maker_of(plan, file),
            None => None,
        },
        None => None,
    }
}

// The rules walked over, none twice, and the one that would come a second time.
#[derive(Drop)]
struct Walk {
    path: Vec<RuleNo>,
    next: RuleNo,
}

// Walks from a rule left over to the maker of its least input whose maker is left over, until a
// rule repeats.
fn walk_from(alloc: Global, plan: &Plan, left: &[bool], first: RuleNo) -> Result<Walk, AllocError>
    requires numbered { IsNumbered plan.now }
    requires marks { AreMarks (left_over plan.now) left.now }
    requires is_first { first.0 ≡ slice_index (left_over plan.now) 0 }
    requires is_left { IsTrue (contains_number first.0 (left_over plan.now)) }
    ensures walk { IfOk result (λ walk. IsWalkOf plan.now walk) }
    ensures repeats { IfOk result ComesRound }
{
    let mut seen = marks(alloc, plan.rules.len(), false)?;
    let mut path = Vec::new(alloc);
    let mut next = first;
    'steps: while !is_marked(&seen, next) {
        set_mark(&mut seen, next, true);
        path.push(next)?;
        match maker_before(plan, left, next) {
            Some(maker) => next = maker,
            None => break 'steps,
        }
    }
    Ok(Walk { path, next })
}

// Where the rule stands first.
fn place_of(rules: &[RuleNo], rule: RuleNo) -> usize
    ensures place { result ≡ prefix_len (λ r. not (r == rule.0)) (numbers_of rules.now) }
    ensures inside { result ≤ length rules.now }
{
    'places: for place in 0..rules.len() {
        if rules[place].0 == rule.0 {
            return place;
        }
    }
    rules.len()
}

// The part of the walk that comes round.
fn loop_in(walk: &Walk) -> &[RuleNo]
    ensures { numbers_of result.now ≡ from_first walk.now.next.0 (numbers_of walk.now.path.items) }
{
    let path = walk.path.as_slice();
    path.split_at(place_of(path, walk.next)).1
}

fn place_of_least(rules: &[RuleNo]) -> usize
    requires { 0 < length rules.now }
    ensures inside { result < length rules.now }
    ensures least { IsLeastPlace rules.now result }
{
    let mut least = 0;
    'places: for place in 0..rules.len() {
        if rules[place].0 < rules[least].0 {
            least = place;
        }
    }
    least
}

// The loop, read round from its least rule on.
fn begun_at_least(alloc: Global, rules: &[RuleNo]) -> Result<Vec<RuleNo>, AllocError>
    requires { 0 < length rules.now }
    ensures { IfOk result (λ turned. IsTurned (numbers_of rules.now) (numbers_of turned.items)) }
{
    let (before, from) = rules.split_at(place_of_least(rules));
    let mut turned = Vec::from_slice(alloc, from)?;
    turned.extend_from_slice(before)?;
    Ok(turned)
}
