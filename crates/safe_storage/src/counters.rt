//! The counters of a walk.
ghost use Rattle.std.specs.Prelude.{◌≡◌, ◌<◌, ◌≤◌, ◌+◌, ◌^◌, ℕ, All, IfOk, false, length, true};
ghost use Rattle.std.specs.Prelude.{min, nat_lt, slice_index_or, slice_set, ◌||◌, ◌-◌};
ghost use Rattle.flow_types.specs.Plans.{IsValid, files_of, is_kept};
ghost use Rattle.gc_refcount.specs.Counting.{times};
ghost use Rattle.run_history.specs.Storage.{rule_bound};
ghost use Rattle.safe_storage.specs.Counters.{HasPlaces, IsLoaded, IsStand, IsWalk, is_marked};
ghost use Rattle.safe_storage.specs.Counters.{told};

use crate::counting::{
    bound_at, bounds_of, bytes_left, claim, claims, count_open, maker_of, mark_complete, rule_of,
    set_back,
};
use crate::stand::{Phase, Stand};
use flow_types::{FileNo, Memory, Plan, Port, RuleNo};
use std::alloc::Global;

/// What a walk counts: which rules count as complete, how many ports of the others take each file
/// in, the bounds of the outputs that aren't dropped of each rule that it has passed, and v.
#[derive(Drop)]
pub(crate) struct Counters {
    pub(crate) over: Vec<bool>,
    pub(crate) left: Vec<u32>,
    pub(crate) rest: Vec<u64>,
    pub(crate) load: u64,
}

impl Counters {
    /// Counters for a plan; nothing is counted yet.
    pub(crate) fn new(alloc: Global, plan: &Plan) -> Result<Counters, Memory>
        ensures { IfOk result (λ counters. HasPlaces plan.now counters) }
    {
        let mut over = Vec::new(alloc);
        if over.resize(plan.rules.len(), false).is_err() {
            return Err(Memory);
        }
        let mut left = Vec::new(alloc);
        if left.resize(plan.files.len(), 0).is_err() {
            return Err(Memory);
        }
        let mut rest = Vec::new(alloc);
        if rest.resize(plan.rules.len(), 0).is_err() {
            return Err(Memory);
        }
        Ok(Counters {
            over,
            left,
            rest,
            load: 0,
        })
    }

    /// Sets the counters back to the start of a walk.
    pub(crate) fn begin(&mut self, plan: &Plan, stand: &Stand)
        requires valid { IsValid plan.now }
        requires stand { IsStand plan.now stand.now }
        requires places { HasPlaces plan.now self.old }
        ensures walk { IsWalk plan.now (told stand.now) self.new }
        ensures over { (r : ℕ)
            → is_marked self.new.over.items r ≡ (told stand.now).complete r }
    {
        mark_complete(&mut self.over, &stand.phases);
        set_back(&mut self.left);
        count_open(&mut self.left, plan, &self.over);
        let held = bytes_left(plan, stand, &self.left);
        self.load = held + claims(plan, stand);
    }

    /// Passes a rule: it counts as complete from now on, and what is free by that is dropped. What
    /// an open rule adds isn't counted here.
    pub(crate) fn pass(&mut self, plan: &Plan, stand: &Stand, rule: RuleNo)
        requires valid { IsValid plan.now }
        requires stand { IsStand plan.now stand.now }
        requires inside { rule.0 < length plan.now.rules }
        requires walk { IsWalk plan.now (told stand.now) self.old }
        requires fresh { is_marked self.old.over.items rule.0 ≡ false }
        ensures walk { IsWalk plan.now (told stand.now) self.new }
        ensures over { self.new.over.items ≡ slice_set self.old.over.items rule.0 true }
    {
        self.keep_outputs(plan, stand, rule);
        self.take_off(plan, stand, rule_of(plan, rule).inputs.as_slice());
    }

    // The rule is marked, and its outputs count in its place.
    fn keep_outputs(&mut self, plan: &Plan, stand: &Stand, rule: RuleNo)
        requires valid { IsValid plan.now }
        requires stand { IsStand plan.now stand.now }
        requires inside { rule.0 < length plan.now.rules }
        requires loaded { IsLoaded plan.now (told stand.now) self.old.over.items
            self.old.left.items self.old.rest.items self.old.load }
        requires fresh { is_marked self.old.over.items rule.0 ≡ false }
        requires undone { (told stand.now).complete rule.0 ≡ false }
        ensures loaded { IsLoaded plan.now (told stand.now) self.new.over.items
            self.new.left.items self.new.rest.items self.new.load }
        ensures over { self.new.over.items ≡ slice_set self.old.over.items rule.0 true }
        ensures left { self.new.left ≡ self.old.left }
    {
        let row = rule_of(plan, rule);
        let rest = bounds_of(plan, &self.left, row.outputs.as_slice());
        self.load -= claim(plan, stand, rule);
        self.load += row.bound.min(rest);
        self.rest[rule.0 as usize] = rest;
        self.over[rule.0 as usize] = true;
    }

    // One port less takes each of these files in.
    fn take_off(&mut self, plan: &Plan, stand: &Stand, ports: &[Port])
        requires valid { IsValid plan.now }
        requires stand { IsStand plan.now stand.now }
        requires inside { All (λ port. port.file.0 < length plan.now.files) ports.now }
        requires counted { (f : ℕ)
            → times f (files_of ports.now) ≤ slice_index_or self.old.left.items f 0 }
        requires loaded { IsLoaded plan.now (told stand.now) self.old.over.items
            self.old.left.items self.old.rest.items self.old.load }
        ensures loaded { IsLoaded plan.now (told stand.now) self.new.over.items
            self.new.left.items self.new.rest.items self.new.load }
        ensures counts { (f : ℕ) → slice_index_or self.new.left.items f 0
            + times f (files_of ports.now) ≡ slice_index_or self.old.left.items f 0 }
        ensures over { self.new.over ≡ self.old.over }
    {
        for port in ports {
            self.take_off_one(plan, stand, port.file);
        }
    }

    // One port less takes the file in; with its last one it is dropped, unless it is kept.
    fn take_off_one(&mut self, plan: &Plan, stand: &Stand, file: FileNo)
        requires valid { IsValid plan.now }
        requires stand { IsStand plan.now stand.now }
        requires inside { file.0 < length plan.now.files }
        requires counted { 1 ≤ slice_index_or self.old.left.items file.0 0 }
        requires loaded { IsLoaded plan.now (told stand.now) self.old.over.items
            self.old.left.items self.old.rest.items self.old.load }
        ensures loaded { IsLoaded plan.now (told stand.now) self.new.over.items
            self.new.left.items self.new.rest.items self.new.load }
        ensures left { self.new.left.items ≡ slice_set self.old.left.items file.0
            (slice_index_or self.old.left.items file.0 0 - 1) }
        ensures over { self.new.over ≡ self.old.over }
    {
        let at = file.0 as usize;
        if self.stays(plan, file) {
            self.left[at] -= 1;
            return;
        }
        self.let_go(plan, stand, file);
        self.left[at] = 0;
    }

    // The file is kept, or has another port.
    fn stays(&self, plan: &Plan, file: FileNo) -> bool
        requires inside { file.0 < length plan.now.files }
        requires files { length self.now.left.items ≡ length plan.now.files }
        ensures { result
            ≡ (is_kept plan.now file.0 || nat_lt 1 (slice_index_or self.now.left.items file.0 0)) }
    {
        plan.files.as_slice()[file.0 as usize].kept || self.left[file.0 as usize] > 1
    }

    // The file is dropped, whose last port is taken off next.
    fn let_go(&mut self, plan: &Plan, stand: &Stand, file: FileNo)
        requires valid { IsValid plan.now }
        requires stand { IsStand plan.now stand.now }
        requires inside { file.0 < length plan.now.files }
        requires last { slice_index_or self.old.left.items file.0 0 ≡ 1 }
        requires unkept { is_kept plan.now file.0 ≡ false }
        requires loaded { IsLoaded plan.now (told stand.now) self.old.over.items
            self.old.left.items self.old.rest.items self.old.load }
        ensures loaded { IsLoaded plan.now (told stand.now) self.new.over.items
            (slice_set self.old.left.items file.0 0) self.new.rest.items self.new.load }
        ensures left { self.new.left ≡ self.old.left }
        ensures over { self.new.over ≡ self.old.over }
    {
        let Some(maker) = maker_of(plan, file) else {
            return;
        };
        let bytes = stand.bytes_at(file);
        if !self.is_passed(stand, maker) {
            self.load -= bytes;
            return;
        }
        let bound = rule_of(plan, maker).bound;
        let before = self.rest_of(maker);
        let after = before - bound_at(plan, file);
        self.rest[maker.0 as usize] = after;
        self.load -= bytes + (bound.min(before) - bound.min(after));
    }

    // The bounds of the rule's outputs that aren't dropped.
    fn rest_of(&self, rule: RuleNo) -> u64
        requires { rule.0 < length self.now.rest.items }
        ensures { result ≡ slice_index_or self.now.rest.items rule.0 0 }
    {
        self.rest[rule.0 as usize]
    }

    // The walk has passed the rule, and it isn't complete.
    fn is_passed(&self, stand: &Stand, rule: RuleNo) -> bool
        requires over { rule.0 < length self.now.over.items }
        requires phases { rule.0 < length stand.now.phases.items }
        ensures passed { result ≡ true → is_marked self.now.over.items rule.0 ≡ true }
        ensures undone { result ≡ true → (told stand.now).complete rule.0 ≡ false }
        ensures other { result ≡ false → is_marked self.now.over.items rule.0 ≡ true
            → (told stand.now).complete rule.0 ≡ true }
    {
        if matches!(stand.phases[rule.0 as usize], Phase::Complete) {
            return false;
        }
        self.over[rule.0 as usize]
    }
}
