//! What a table asks of its ready rules.
ghost use Rattle.std.specs.Prelude.{◌≡◌, ◌<◌, ◌≤◌, ◌+◌, ◌-◌, ℕ, find, length};
ghost use Rattle.flow_types.specs.Plans.{IsValid, most_bytes};
ghost use Rattle.task_core.specs.Asked.{AreCandidates, asks, asks_for, large_limits};
ghost use Rattle.task_core.specs.Asked.{bytes_under, kinds_for, link_limits, room_under, roomy_limits, short_left, short_limits};
ghost use Rattle.task_core.specs.Known.{known_bytes, number_in, reserved_sum, rules_of};
ghost use Rattle.task_core.specs.Known.{stored_sum};
ghost use Rattle.task_core.specs.States.{known_in};
ghost use Rattle.task_core.specs.Surveys.{IsBeside};

use crate::loads::Beside;
use crate::table::Table;
use flow_types::{LinkNo, RuleNo};
use ready_rules::Weight;

/// What is asked of a ready rule.
#[derive(Clone, Copy)]
pub(crate) enum Asked {
    Ready,
    /// Its inputs are too large.
    Large,
    /// The storage has room for it.
    Roomy,
    /// The storage has no room for it.
    Short,
    /// The storage has room for it, and a live link takes it.
    Taken,
}

/// What is asked of a ready rule that may run on a link.
#[derive(Clone, Copy)]
pub(crate) enum AskedFor {
    Ready,
    /// Its inputs are too large.
    Large,
    /// It fits the link.
    Fitting,
    /// It fits the link and the storage.
    Startable,
}

/// The most bytes of one rule's inputs together that a plan admits.
const MOST_TAKEN: u64 = 274_877_906_944;

/// The most bytes of one rule's outputs together.
const MOST_BYTES: u64 = 67_108_864;

/// The most of an amount that a rule states.
const MOST_AMOUNT: u64 = 1_000_000_000;

/// No limit.
const NO_LIMITS: Weight = Weight {
    here: true,
    stated: true,
    whole: true,
    cores: MOST_AMOUNT,
    memory: MOST_AMOUNT,
    disk: MOST_AMOUNT,
    bytes: MOST_TAKEN,
    bound: MOST_BYTES,
    bytes_left: MOST_TAKEN,
    bound_left: MOST_BYTES,
};

fn large_limits() -> Weight
    ensures { result ≡ large_limits }
{
    Weight {
        bytes_left: MOST_TAKEN - 134_217_729,
        ..NO_LIMITS
    }
}

// The limits, for the kinds of rules that a link takes.
fn kinds_for(link: LinkNo, limits: Weight) -> Weight
    ensures { result ≡ kinds_for link.0 limits }
{
    let here = link.0 == 0;
    Weight {
        here,
        stated: !here,
        whole: !here,
        ..limits
    }
}

// What is left under a limit.
fn room_under(limit: Option<u64>, held: u64) -> u64
    ensures { result ≡ room_under limit held }
{
    match limit {
        None => MOST_BYTES,
        Some(limit) => limit.saturating_sub(held),
    }
}

// How far below the most a bound is at most that has no room under a limit.
fn short_left(limit: Option<u64>, held: u64) -> u64
    ensures { result ≡ short_left limit held }
{
    let Some(limit) = limit else {
        return 0;
    };
    if limit < held {
        return MOST_BYTES;
    }
    MOST_BYTES.saturating_sub(limit - held).saturating_sub(1)
}

impl Table {
    // The bytes that are stored and those that are reserved.
    fn held(&self) -> u64
        ensures { result ≡ stored_sum (known_in self.now) + reserved_sum (known_in self.now) }
    {
        self.stored() + self.reserved()
    }

    // What the storage has room for.
    fn roomy_limits(&self, limits: Weight) -> Weight
        ensures { result ≡ roomy_limits (known_in self.now) limits }
    {
        Weight {
            bound: room_under(self.limit(), self.held()),
            ..limits
        }
    }

    fn short_limits(&self) -> Weight
        ensures { result ≡ short_limits (known_in self.now) }
    {
        Weight {
            bound_left: short_left(self.limit(), self.held()),
            ..NO_LIMITS
        }
    }

    // Limits under which each rule is of which this holds.
    pub(crate) fn limits(&self, asked: Asked) -> Weight
        requires valid { IsValid self.now.plan }
        requires small { (f : ℕ) → known_bytes (known_in self.now) f ≤ most_bytes }
        ensures { AreCandidates (known_in self.now) result (asks (known_in self.now) asked) }
    {
        match asked {
            Asked::Ready => NO_LIMITS,
            Asked::Large => large_limits(),
            Asked::Short => self.short_limits(),
            Asked::Roomy => self.roomy_limits(NO_LIMITS),
            Asked::Taken => self.roomy_limits(NO_LIMITS),
        }
    }

    pub(crate) fn holds(&self, asked: Asked, rule: RuleNo) -> bool
        requires { rule.0 < length self.now.plan.rules }
        ensures { result ≡ asks (known_in self.now) asked rule.0 }
    {
        match asked {
            Asked::Ready => self.is_ready(rule),
            Asked::Large => self.is_ready(rule) && self.passes_inputs(rule),
            Asked::Roomy => self.is_ready(rule) && self.has_storage(rule),
            Asked::Short => self.is_short(rule),
            Asked::Taken => self.is_taken(rule),
        }
    }

    // The least rule of which this holds.
    pub(crate) fn first_of(&self, asked: Asked) -> Option<RuleNo>
        ensures { number_in result ≡ find (asks (known_in self.now) asked)
            (rules_of (known_in self.now)) }
    {
        let progress = self.progress();
        let limits = self.limits(asked);
        let count = self.rule_count();
        let mut from = 0;
        'rules: while from < count {
            let Some(rule) = progress.least(RuleNo(from), &limits) else {
                return None;
            };
            if self.holds(asked, rule) {
                return Some(rule);
            }
            from = rule.0 + 1;
        }
        None
    }

    // Limits under which each rule is of which this holds.
    pub(crate) fn limits_for(&self, asked: AskedFor, beside: &Beside) -> Weight
        requires known { IsBeside (known_in self.now) beside.now }
        requires valid { IsValid self.now.plan }
        requires small { (f : ℕ) → known_bytes (known_in self.now) f ≤ most_bytes }
        ensures { AreCandidates (known_in self.now) result
            (asks_for (known_in self.now) beside.now.link.0 asked) }
    {
        match asked {
            AskedFor::Ready => kinds_for(beside.link, NO_LIMITS),
            AskedFor::Large => kinds_for(beside.link, large_limits()),
            AskedFor::Fitting => beside.limits(),
            AskedFor::Startable => self.roomy_limits(beside.limits()),
        }
    }

    pub(crate) fn holds_for(&self, asked: AskedFor, beside: &Beside, rule: RuleNo) -> bool
        requires inside { rule.0 < length self.now.plan.rules }
        requires known { IsBeside (known_in self.now) beside.now }
        ensures { result ≡ asks_for (known_in self.now) beside.now.link.0 asked rule.0 }
    {
        if !self.is_ready_for(rule, beside.link) {
            return false;
        }
        match asked {
            AskedFor::Ready => true,
            AskedFor::Large => self.passes_inputs(rule),
            AskedFor::Fitting => self.fits(beside, rule),
            AskedFor::Startable => self.fits(beside, rule) && self.has_storage(rule),
        }
    }

    // The least rule of which this holds.
    pub(crate) fn first_for(&self, asked: AskedFor, beside: &Beside) -> Option<RuleNo>
        requires { IsBeside (known_in self.now) beside.now }
        ensures { number_in result ≡ find (asks_for (known_in self.now) beside.now.link.0 asked)
            (rules_of (known_in self.now)) }
    {
        let progress = self.progress();
        let limits = self.limits_for(asked, beside);
        let count = self.rule_count();
        let mut from = 0;
        'rules: while from < count {
            let Some(rule) = progress.least(RuleNo(from), &limits) else {
                return None;
            };
            if self.holds_for(asked, beside, rule) {
                return Some(rule);
            }
            from = rule.0 + 1;
        }
        None
    }
}

impl Beside {
    // What the link may run beside what runs there.
    fn limits(&self) -> Weight
        ensures { result ≡ link_limits self.now.link.0 self.now.stated self.now.occupied }
    {
        let Some(stated) = self.stated else {
            return NO_LIMITS;
        };
        let here = self.link.0 == 0;
        let left = self.occupied.left(stated.total);
        let largest = stated.largest;
        Weight {
            here,
            stated: !here,
            whole: !here && self.occupied.is_empty(),
            cores: u64::from(left.cores.min(largest.cores)),
            memory: u64::from(left.memory.min(largest.memory)),
            disk: u64::from(left.disk.min(largest.disk)),
            bytes: self.bytes_left(stated.cache),
            ..NO_LIMITS
        }
    }

    // What the link has left of its cache beside what runs there.
    fn bytes_left(&self, cache: Option<u64>) -> u64
        ensures { result ≡ bytes_under cache self.now.occupied.bytes }
    {
        match cache {
            None => MOST_TAKEN,
            Some(cache) => self.occupied.left_bytes(cache),
        }
    }
}
