//! Which rules run on which link.
ghost use Rattle.std.specs.Prelude.{◌≡◌, ◌<◌, ◌≤◌, ◌+◌, ◌==◌, ℕ, IfOk, [], length, map, true};
ghost use Rattle.std.specs.Prelude.{if◌then◌else◌};
ghost use Rattle.std.specs.List.Sorted.{IsNonDecreasingBy};
ghost use Rattle.flow_types.specs.Plans.{contains_number};
ghost use Rattle.ready_rules.specs.Lines.{IsAscending, IsPlaceOf, number, placed, without};
ghost use Rattle.running_rules.specs.Tasks.{IsBehind, IsFirstOf, IsSpan, IsTaskPlace, tasks_on};

use flow_types::{LinkNo, Memory, RuleNo};
use std::alloc::Global;
use std::marker::Model;

/// The rules that run, ordered by their links and then by their numbers, so that those of one link
/// are lent as a slice. There is room for so many rules as are said at first, so no step takes
/// memory.
#[derive(Drop)]
pub struct Running {
    links: Vec<LinkNo>,
    rules: Vec<RuleNo>,
}

impl Model for Running {
    ghost use Rattle.std.specs.Prelude.{◌≡◌};
    ghost use Rattle.std.specs.Vec.{vec_capacity};
    ghost use Rattle.running_rules.specs.Tasks.{AreTasks, Tasks};

    ghost Value = { Tasks };

    ghost view = { λ r. record {
      links = r.links.items;
      rules = r.rules.items;
      places = vec_capacity r.rules;
    } };

    ghost invariant = { λ r. AreTasks (record {
      links = r.links.items;
      rules = r.rules.items;
      places = vec_capacity r.rules;
    }) × (vec_capacity r.links ≡ vec_capacity r.rules) };
}

// How many of the links are less than this one.
fn first_of(links: &[LinkNo], link: LinkNo) -> usize
    requires { IsNonDecreasingBy (λ link. link.0) links.now }
    ensures { IsFirstOf link.0 links.now result }
{
    let number = link.0;
    links.partition_point(|other| other.0 < number)
}

// How many of the links are at most this one.
fn behind(links: &[LinkNo], link: LinkNo) -> usize
    requires { IsNonDecreasingBy (λ link. link.0) links.now }
    ensures { IsBehind link.0 links.now result }
{
    let number = link.0;
    links.partition_point(|other| other.0 <= number)
}

// How many of the rules are less than this one.
fn place_of(rules: &[RuleNo], rule: RuleNo) -> usize
    requires { IsAscending (map number rules.now) }
    ensures { IsPlaceOf rule.0 (map number rules.now) result }
{
    let number = rule.0;
    rules.partition_point(|other| other.0 < number)
}

impl Running {
    /// No rule runs, with room for so many.
    pub fn new(alloc: Global, places: usize) -> Result<Running, Memory>
        ensures { IfOk result (λ running. running
            ≡ record { links = []; rules = []; places = places }) }
    {
        let Ok(links) = Vec::with_capacity(alloc, places) else {
            return Err(Memory);
        };
        let Ok(rules) = Vec::with_capacity(alloc, places) else {
            return Err(Memory);
        };
        Ok(Running { links, rules })
    }

    // Where the rules of a link begin, and where they end.
    fn span(&self, link: LinkNo) -> (usize, usize)
        ensures { IsSpan self.now link.0 result.0 result.1 }
    {
        (first_of(&self.links, link), behind(&self.links, link))
    }

    /// The rules that run on a link, ascending. It looks for the link by halves.
    pub fn on(&self, link: LinkNo) -> &[RuleNo]
        ensures rules { map number result.now ≡ tasks_on self.now link.0 }
        ensures ascending { IsAscending (map number result.now) }
    {
        let (from, to) = self.span(link);
        &self.rules[from..to]
    }

    // The place of a rule of a link.
    fn place(&self, link: LinkNo, rule: RuleNo) -> usize
        ensures { IsTaskPlace self.now link.0 rule.0 result }
    {
        let (from, to) = self.span(link);
        from + place_of(&self.rules[from..to], rule)
    }

    /// One rule more runs on a link. Condition: there is room for it.
    pub fn add(&mut self, link: LinkNo, rule: RuleNo)
        requires { length self.old.rules < self.old.places }
        ensures count { length self.new.rules ≡ length self.old.rules + 1 }
        ensures places { self.new.places ≡ self.old.places }
        ensures tasks { (k : ℕ) → tasks_on self.new k
            ≡ (if link.0 == k then placed rule.0 (tasks_on self.old k) else tasks_on self.old k) }
    {
        let at = self.place(link, rule);
        let _ = self.links.insert(at, link);
        let _ = self.rules.insert(at, rule);
    }

    /// One rule less runs on a link. Condition: it runs there.
    pub fn remove(&mut self, link: LinkNo, rule: RuleNo)
        requires { contains_number rule.0 (tasks_on self.old link.0) ≡ true }
        ensures count { length self.new.rules + 1 ≡ length self.old.rules }
        ensures places { self.new.places ≡ self.old.places }
        ensures tasks { (k : ℕ) → tasks_on self.new k
            ≡ (if link.0 == k then without rule.0 (tasks_on self.old k) else tasks_on self.old k) }
    {
        let at = self.place(link, rule);
        self.links.remove(at);
        self.rules.remove(at);
    }

    /// No rule runs any more.
    pub fn clear(&mut self)
        ensures { self.new ≡ record self.old { links = []; rules = [] } }
    {
        self.links.clear();
        self.rules.clear();
    }
}
