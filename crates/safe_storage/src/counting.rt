//! The loops by which a walk begins: marks, counts of ports, and sums.
ghost use Rattle.std.specs.Prelude.{◌≡◌, ◌<◌, ◌≤◌, ◌+◌, ◌*◌, ◌^◌, ℕ, All, false, if◌then◌else◌};
ghost use Rattle.std.specs.Prelude.{None, Some, is_some, length, slice_index_or, sum_by};
ghost use Rattle.flow_types.specs.declared.numbers.RuleNo.{RuleNo as RuleValue};
ghost use Rattle.flow_types.specs.Plans.{IsValid, bound_of, files_of, made_files, maker_of, makes};
ghost use Rattle.flow_types.specs.Plans.{most_bytes, most_files, most_inputs, most_outputs};
ghost use Rattle.flow_types.specs.Plans.{most_rules, rule_numbers, takes};
ghost use Rattle.gc_refcount.specs.Counting.{open_ports, times, waiting};
ghost use Rattle.run_history.specs.Storage.{rule_bound};
ghost use Rattle.safe_storage.specs.Counters.{IsStand, bound_by, bytes_by, claim_share, counting};
ghost use Rattle.safe_storage.specs.Counters.{is_complete_phase, is_left_by, is_marked, phase_at};
ghost use Rattle.safe_storage.specs.Counters.{told};
ghost use Rattle.safe_walks.specs.Walk.{is_added};

use crate::stand::{Phase, Stand};
use flow_types::{FileNo, Plan, Port, Rule, RuleNo};

pub(crate) fn rule_of(plan: &Plan, rule: RuleNo) -> &Rule
    requires valid { IsValid plan.now }
    requires inside { rule.0 < length plan.now.rules }
    ensures takes { files_of result.now.inputs ≡ takes plan.now rule.0 }
    ensures makes { files_of result.now.outputs ≡ makes plan.now rule.0 }
    ensures inputs { All (λ port. port.file.0 < length plan.now.files) result.now.inputs }
    ensures outputs { All (λ port. port.file.0 < length plan.now.files) result.now.outputs }
    ensures few { length result.now.inputs ≤ most_inputs }
    ensures few_outputs { length result.now.outputs ≤ most_outputs }
    ensures bound { result.now.bound ≡ rule_bound plan.now rule.0 }
    ensures small { result.now.bound ≤ most_bytes }
{
    &plan.rules.as_slice()[rule.0 as usize]
}

/// The rule that makes the file, none of a source.
pub(crate) fn maker_of(plan: &Plan, file: FileNo) -> Option<RuleNo>
    requires { file.0 < length plan.now.files }
    ensures some { (rule : RuleValue) → result ≡ Some rule
        → maker_of plan.now file.0 ≡ Some rule.0 }
    ensures none { result ≡ None → maker_of plan.now file.0 ≡ None }
{
    plan.files.as_slice()[file.0 as usize].maker
}

/// The most bytes that the file may have.
pub(crate) fn bound_at(plan: &Plan, file: FileNo) -> u64
    requires { file.0 < length plan.now.files }
    ensures { result ≡ bound_of plan.now file.0 }
{
    plan.files.as_slice()[file.0 as usize].bound
}

/// The complete rules are marked, and no others.
pub(crate) fn mark_complete(over: &mut Vec<bool>, phases: &[Phase])
    requires { length over.old.items ≡ length phases.now }
    ensures marks { (r : ℕ)
        → is_marked over.new.items r ≡ is_complete_phase (phase_at phases.now r) }
    ensures same { length over.new.items ≡ length over.old.items }
{
    for at in 0..phases.len() {
        over[at] = matches!(phases[at], Phase::Complete);
    }
}

/// Nothing is counted.
pub(crate) fn set_back(counts: &mut Vec<u32>)
    ensures zero { (f : ℕ) → slice_index_or counts.new.items f 0 ≡ 0 }
    ensures same { length counts.new.items ≡ length counts.old.items }
{
    for at in 0..counts.len() {
        counts[at] = 0;
    }
}

// One port more takes each of these files in.
fn count_up(counts: &mut Vec<u32>, ports: &[Port])
    requires inside { All (λ port. port.file.0 < length counts.old.items) ports.now }
    requires room { (f : ℕ) → slice_index_or counts.old.items f 0 + length ports.now < 2 ^ 32 }
    ensures counts { (f : ℕ)
        → slice_index_or counts.new.items f 0
        ≡ slice_index_or counts.old.items f 0 + times f (files_of ports.now) }
    ensures same { length counts.new.items ≡ length counts.old.items }
{
    for port in ports {
        counts[port.file.0 as usize] += 1;
    }
}

// The ports of a rule are counted, where it isn't marked.
fn count_rule(counts: &mut Vec<u32>, plan: &Plan, over: &[bool], rule: RuleNo)
    requires valid { IsValid plan.now }
    requires inside { rule.0 < length plan.now.rules }
    requires rules { length over.now ≡ length plan.now.rules }
    requires files { length counts.old.items ≡ length plan.now.files }
    requires room { (f : ℕ) → slice_index_or counts.old.items f 0 + most_inputs < 2 ^ 32 }
    ensures counts { (f : ℕ)
        → slice_index_or counts.new.items f 0
        ≡ slice_index_or counts.old.items f 0 + open_ports (counting plan.now over.now) f rule.0 }
    ensures same { length counts.new.items ≡ length counts.old.items }
{
    if over[rule.0 as usize] {
        return;
    }
    count_up(counts, rule_of(plan, rule).inputs.as_slice());
}

/// The ports of the rules that aren't marked, by their files. Condition: nothing is counted.
pub(crate) fn count_open(counts: &mut Vec<u32>, plan: &Plan, over: &[bool])
    requires valid { IsValid plan.now }
    requires rules { length over.now ≡ length plan.now.rules }
    requires files { length counts.old.items ≡ length plan.now.files }
    requires zero { (f : ℕ) → slice_index_or counts.old.items f 0 ≡ 0 }
    ensures counts { (f : ℕ)
        → slice_index_or counts.new.items f 0 ≡ waiting (counting plan.now over.now) f }
    ensures same { length counts.new.items ≡ length counts.old.items }
{
    for rule in 0..plan.rules.len() as u32 {
        count_rule(counts, plan, over, RuleNo(rule));
    }
}

/// The file isn't dropped: it is kept, or a port that is counted takes it in.
pub(crate) fn is_left(plan: &Plan, left: &[u32], file: FileNo) -> bool
    requires inside { file.0 < length plan.now.files }
    requires files { length left.now ≡ length plan.now.files }
    ensures { result ≡ is_left_by plan.now left.now file.0 }
{
    plan.files.as_slice()[file.0 as usize].kept || left[file.0 as usize] > 0
}

// The bytes of the file, where it is a made one that isn't dropped.
fn bytes_of(plan: &Plan, stand: &Stand, left: &[u32], file: FileNo) -> u64
    requires stand { IsStand plan.now stand.now }
    requires inside { file.0 < length plan.now.files }
    requires files { length left.now ≡ length plan.now.files }
    ensures bytes { result ≡ (if is_some (maker_of plan.now file.0)
        then bytes_by (told stand.now) (is_left_by plan.now left.now) file.0 else 0) }
    ensures small { result ≤ most_bytes }
{
    if plan.files.as_slice()[file.0 as usize].maker.is_none() {
        return 0;
    }
    if !is_left(plan, left, file) {
        return 0;
    }
    stand.bytes[file.0 as usize]
}

/// The bytes of the made files that aren't dropped.
pub(crate) fn bytes_left(plan: &Plan, stand: &Stand, left: &[u32]) -> u64
    requires valid { IsValid plan.now }
    requires stand { IsStand plan.now stand.now }
    requires files { length left.now ≡ length plan.now.files }
    ensures sum { result
        ≡ sum_by (bytes_by (told stand.now) (is_left_by plan.now left.now)) (made_files plan.now) }
    ensures small { result ≤ most_files * most_bytes }
{
    let mut sum = 0;
    for file in 0..plan.files.len() as u32 {
        sum += bytes_of(plan, stand, left, FileNo(file));
    }
    sum
}

/// What the rule counts as before the walk passes it.
pub(crate) fn claim(plan: &Plan, stand: &Stand, rule: RuleNo) -> u64
    requires valid { IsValid plan.now }
    requires rules { length stand.now.phases.items ≡ length plan.now.rules }
    requires inside { rule.0 < length plan.now.rules }
    ensures share { result ≡ claim_share plan.now (told stand.now) rule.0 }
    ensures small { result ≤ most_bytes }
{
    match stand.phases[rule.0 as usize] {
        Phase::Claimed => rule_of(plan, rule).bound,
        Phase::Complete | Phase::Open => 0,
    }
}

/// The bounds of the claimed rules.
pub(crate) fn claims(plan: &Plan, stand: &Stand) -> u64
    requires valid { IsValid plan.now }
    requires rules { length stand.now.phases.items ≡ length plan.now.rules }
    ensures sum { result
        ≡ sum_by (claim_share plan.now (told stand.now)) (rule_numbers plan.now) }
    ensures small { result ≤ most_rules * most_bytes }
{
    let mut sum = 0;
    for rule in 0..plan.rules.len() as u32 {
        sum += claim(plan, stand, RuleNo(rule));
    }
    sum
}

/// What the rule adds to v where the walk comes to it.
pub(crate) fn addition(plan: &Plan, stand: &Stand, rule: RuleNo) -> u64
    requires valid { IsValid plan.now }
    requires rules { length stand.now.phases.items ≡ length plan.now.rules }
    requires inside { rule.0 < length plan.now.rules }
    ensures { result
        ≡ (if is_added (told stand.now) rule.0 then rule_bound plan.now rule.0 else 0) }
{
    match stand.phases[rule.0 as usize] {
        Phase::Open => rule_of(plan, rule).bound,
        Phase::Complete => 0,
        Phase::Claimed => 0,
    }
}

// The bound of the file, where it isn't dropped.
fn bound_of(plan: &Plan, left: &[u32], file: FileNo) -> u64
    requires valid { IsValid plan.now }
    requires inside { file.0 < length plan.now.files }
    requires files { length left.now ≡ length plan.now.files }
    ensures bound { result ≡ bound_by plan.now (is_left_by plan.now left.now) file.0 }
    ensures small { result ≤ most_bytes }
{
    if !is_left(plan, left, file) {
        return 0;
    }
    plan.files.as_slice()[file.0 as usize].bound
}

/// The bounds of the files of these ports that aren't dropped, together.
pub(crate) fn bounds_of(plan: &Plan, left: &[u32], ports: &[Port]) -> u64
    requires valid { IsValid plan.now }
    requires inside { All (λ port. port.file.0 < length plan.now.files) ports.now }
    requires files { length left.now ≡ length plan.now.files }
    requires few { length ports.now ≤ 2 ^ 32 }
    ensures { result
        ≡ sum_by (bound_by plan.now (is_left_by plan.now left.now)) (files_of ports.now) }
{
    let mut sum = 0;
    for port in ports {
        sum += bound_of(plan, left, port.file);
    }
    sum
}
