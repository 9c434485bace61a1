//! Numbers of rules in their order.
ghost use Rattle.std.specs.Prelude.{◌≡◌, ◌<◌, ◌≤◌, ◌+◌, IfOk, [], length, map, drop, nat_lt};
ghost use Rattle.std.specs.List.{insert, remove};
ghost use Rattle.ready_rules.specs.Lines.{IsAscending, IsPlaceOf, Line, number, placed, without};

use flow_types::{Memory, RuleNo};
use std::alloc::Global;
use std::marker::Model;

/// Numbers of rules, ascending, and lent as a slice. They stand at the end of a list of as many
/// places as there are rules, so that a number comes and goes without memory. Both move the lesser
/// numbers by one place: the least comes and goes at no cost.
#[derive(Drop)]
pub struct Ascending {
    rules: Vec<RuleNo>,
    from: usize,
}

impl Model for Ascending {
    ghost use Rattle.std.specs.Prelude.{◌≤◌, drop, length, map};
    ghost use Rattle.ready_rules.specs.Lines.{IsAscending, Line, number};

    ghost Value = { Line };

    ghost view = { λ a. record {
      numbers = map number (drop a.from a.rules.items);
      places = length a.rules.items;
    } };

    ghost invariant = { λ a. (a.from ≤ length a.rules.items)
        × IsAscending (map number (drop a.from a.rules.items)) };
}

// How many of the numbers are less than that of the rule.
fn place_of(rules: &[RuleNo], rule: RuleNo) -> usize
    requires { IsAscending (map number rules.now) }
    ensures { IsPlaceOf rule.0 (map number rules.now) result }
{
    let number = rule.0;
    rules.partition_point(|other| other.0 < number)
}

// The rule stands at this place from now on, and those before it one place earlier.
fn put_in(rules: &mut Vec<RuleNo>, from: usize, at: usize, rule: RuleNo)
    requires { from + at < length rules.old.items }
    ensures rest { drop from rules.new.items ≡ insert (drop (from + 1) rules.old.items) at rule }
    ensures same { length rules.new.items ≡ length rules.old.items }
{
    rules[from] = rule;
    rules[from..from + at + 1].rotate_left(1);
}

// The rule at this place stands there no more, and those before it one place later.
fn take_out(rules: &mut Vec<RuleNo>, from: usize, at: usize)
    requires { from + at < length rules.old.items }
    ensures rest { drop (from + 1) rules.new.items ≡ remove (drop from rules.old.items) at }
    ensures same { length rules.new.items ≡ length rules.old.items }
{
    rules.copy_within(from..from + at, from + 1);
}

impl Ascending {
    /// No number, with places for so many.
    pub fn new(alloc: Global, places: usize) -> Result<Ascending, Memory>
        ensures { IfOk result (λ line. line ≡ record { numbers = []; places = places }) }
    {
        let mut rules = Vec::new(alloc);
        if rules.resize(places, RuleNo(0)).is_err() {
            return Err(Memory);
        }
        Ok(Ascending {
            rules,
            from: places,
        })
    }

    /// The numbers.
    pub fn as_slice(&self) -> &[RuleNo]
        ensures { map number result.now ≡ self.now.numbers }
    {
        &self.rules[self.from..]
    }

    /// No number from now on.
    pub fn clear(&mut self)
        ensures { self.new ≡ record self.old { numbers = [] } }
    {
        self.from = self.rules.len();
    }

    /// One number more. Condition: there is a place for it.
    pub fn add(&mut self, rule: RuleNo)
        requires { length self.old.numbers < self.old.places }
        ensures { self.new ≡ record self.old { numbers = placed rule.0 self.old.numbers } }
    {
        let at = place_of(&self.rules[self.from..], rule);
        self.from -= 1;
        put_in(&mut self.rules, self.from, at, rule);
    }

    /// One number less: the first that isn't less than that of the rule.
    pub fn remove(&mut self, rule: RuleNo)
        ensures { self.new ≡ record self.old { numbers = without rule.0 self.old.numbers } }
    {
        let at = place_of(&self.rules[self.from..], rule);
        if at < self.rules.len() - self.from {
            take_out(&mut self.rules, self.from, at);
            self.from += 1;
        }
    }
}
