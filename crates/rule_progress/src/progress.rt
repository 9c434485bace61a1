//! What the rules of a plan do, step by step.
ghost use Rattle.std.specs.Prelude.{◌≡◌, ◌<◌, ◌≤◌, ◌+◌, ◌||◌, ℕ, IfOk, Option, None, [], length, map};
ghost use Rattle.std.specs.Prelude.{true, false};
ghost use Rattle.std.specs.List.{AllWithin};
ghost use Rattle.flow_types.specs.Plans.{IsValid, contains_number};
ghost use Rattle.run_history.specs.declared.states.RuleState.{RuleState};
ghost use Rattle.run_history.specs.declared.states.RuleState.TheVariants.{Waiting};
ghost use Rattle.ready_rules.specs.Lines.{number, placed, without};
ghost use Rattle.ready_rules.specs.Pendings.{bytes_of, is_ready, least_ready, ready_in};
ghost use Rattle.ready_rules.specs.Pendings.{waits_in, with_wait};
ghost use Rattle.ready_rules.specs.Shelves.{number_in};
ghost use Rattle.rule_progress.specs.Progress.{HasGot, HasOpened, IsProgress, MayCome, MayGo};
ghost use Rattle.rule_progress.specs.Progress.{closed_as};

use crate::needs::{needs_of, ports_of};
use crate::takers::Takers;
use flow_types::{FileNo, Memory, Plan, RuleNo};
use ready_rules::{Ascending, Pending, Weight, come_all, go_all};
use run_history::Options;
use std::alloc::Global;
use std::marker::Model;

/// Which rules wait and what they lack, which run, which have failed, and how many are complete. A
/// step costs the ports of its rule or file, and takes no memory.
#[derive(Drop)]
pub struct Progress {
    pending: Pending,
    takers: Takers,
    running: Ascending,
    failed: Ascending,
    done: u32,
}

impl Model for Progress {
    ghost use Rattle.rule_progress.specs.Progress.{Progressing};

    ghost Value = { Progressing };

    ghost view = { λ p. record {
      pending = p.pending;
      takers = p.takers;
      running = p.running;
      failed = p.failed;
      done = p.done;
    } };
}

// Each of the first so many rules waits.
fn wait_all(pending: &mut Pending, count: u32)
    requires { count ≡ length pending.old.waits }
    ensures needs { pending.new.needs ≡ pending.old.needs }
    ensures lacks { pending.new.lacks ≡ pending.old.lacks }
    ensures bytes { pending.new.bytes ≡ pending.old.bytes }
    ensures same { length pending.new.waits ≡ length pending.old.waits }
    ensures waits { (r : ℕ) → r < count → waits_in pending.new r ≡ true }
{
    let mut at = count;
    'rules: while at > 0 {
        at -= 1;
        pending.wait(RuleNo(at));
    }
}

// Each of these rules waits.
fn wait_again(pending: &mut Pending, rules: &[RuleNo])
    requires { AllWithin (λ rule. rule.0 < length pending.old.waits) rules.now
        0 (length rules.now) }
    ensures needs { pending.new.needs ≡ pending.old.needs }
    ensures lacks { pending.new.lacks ≡ pending.old.lacks }
    ensures bytes { pending.new.bytes ≡ pending.old.bytes }
    ensures same { length pending.new.waits ≡ length pending.old.waits }
    ensures waits { (r : ℕ) → waits_in pending.new r
        ≡ (waits_in pending.old r || contains_number r (map number rules.now)) }
{
    for rule in rules {
        pending.wait(*rule);
    }
}

impl Progress {
    /// All rules of a plan wait, and no file is there. Condition: the plan is valid.
    pub fn new(alloc: Global, plan: &Plan, options: Options) -> Result<Progress, Memory>
        requires { IsValid plan.now }
        ensures { IfOk result (λ progress. (states : ℕ → RuleState) (sizes : ℕ → Option ℕ)
            → ((r : ℕ) → r < length plan.now.rules → states r ≡ Waiting)
            → ((f : ℕ) → sizes f ≡ None)
            → IsProgress plan.now options states sizes progress) }
    {
        let count = plan.rules.len();
        let needs = needs_of(alloc, plan, options)?;
        let ports = ports_of(alloc, plan)?;
        let mut pending = Pending::new(alloc, needs, ports)?;
        wait_all(&mut pending, count as u32);
        let takers = Takers::new(alloc, plan)?;
        let running = Ascending::new(alloc, count)?;
        let failed = Ascending::new(alloc, count)?;
        Ok(Progress {
            pending,
            takers,
            running,
            failed,
            done: 0,
        })
    }

    /// A file is there from now on, of so many bytes.
    pub fn come(&mut self, file: FileNo, size: u64)
        requires { MayCome self.old file.0 size }
        ensures { HasGot self.old file.0 size self.new }
    {
        come_all(&mut self.pending, self.takers.of(file), size);
    }

    /// A file, of so many bytes, is there no more.
    pub fn go(&mut self, file: FileNo, size: u64)
        requires { MayGo self.old file.0 size }
        ensures { HasGot self.new file.0 size self.old }
    {
        go_all(&mut self.pending, self.takers.of(file), size);
    }

    /// A rule that waited runs.
    pub fn start(&mut self, rule: RuleNo)
        requires inside { rule.0 < length self.old.pending.waits }
        requires room { length self.old.running.numbers < self.old.running.places }
        ensures { self.new ≡ record self.old {
          pending = with_wait self.old.pending rule.0 false;
          running = record self.old.running { numbers = placed rule.0 self.old.running.numbers };
        } }
    {
        self.pending.hold(rule);
        self.running.add(rule);
    }

    // A rule that ran waits again.
    fn wait(&mut self, rule: RuleNo)
        requires { rule.0 < length self.old.pending.waits }
        ensures { self.new ≡ record self.old {
          pending = with_wait self.old.pending rule.0 true;
          running = record self.old.running { numbers = without rule.0 self.old.running.numbers };
        } }
    {
        self.running.remove(rule);
        self.pending.wait(rule);
    }

    // A rule that ran has failed.
    fn fail(&mut self, rule: RuleNo)
        requires { length self.old.failed.numbers < self.old.failed.places }
        ensures { self.new ≡ record self.old {
          running = record self.old.running { numbers = without rule.0 self.old.running.numbers };
          failed = record self.old.failed { numbers = placed rule.0 self.old.failed.numbers };
        } }
    {
        self.running.remove(rule);
        self.failed.add(rule);
    }

    /// A rule that ran waits again, or has failed.
    pub fn close(&mut self, rule: RuleNo, has_failed: bool)
        requires inside { rule.0 < length self.old.pending.waits }
        requires room { length self.old.failed.numbers < self.old.failed.places }
        ensures { self.new ≡ closed_as self.old rule.0 has_failed }
    {
        if has_failed {
            self.fail(rule);
        } else {
            self.wait(rule);
        }
    }

    /// A rule that ran is complete.
    pub fn finish(&mut self, rule: RuleNo)
        requires { self.old.done < 4294967295 }
        ensures { self.new ≡ record self.old {
          running = record self.old.running { numbers = without rule.0 self.old.running.numbers };
          done = self.old.done + 1;
        } }
    {
        self.running.remove(rule);
        self.done += 1;
    }

    /// A run is opened: each rule that ran or has failed waits.
    pub fn reopen(&mut self)
        requires running { (r : ℕ) → contains_number r self.old.running.numbers ≡ true
            → r < length self.old.pending.waits }
        requires failed { (r : ℕ) → contains_number r self.old.failed.numbers ≡ true
            → r < length self.old.pending.waits }
        ensures { HasOpened self.old self.new }
    {
        wait_again(&mut self.pending, self.running.as_slice());
        wait_again(&mut self.pending, self.failed.as_slice());
        self.running.clear();
        self.failed.clear();
    }

    /// The rules that run, ascending.
    pub fn running(&self) -> &[RuleNo]
        ensures { map number result.now ≡ self.now.running.numbers }
    {
        self.running.as_slice()
    }

    /// The rules that have failed, ascending.
    pub fn failed(&self) -> &[RuleNo]
        ensures { map number result.now ≡ self.now.failed.numbers }
    {
        self.failed.as_slice()
    }

    /// The rules that wait and have their inputs, ascending.
    pub fn ready(&self) -> &[RuleNo]
        ensures { map number result.now ≡ ready_in self.now.pending }
    {
        self.pending.ready()
    }

    /// How many rules are complete.
    pub fn done(&self) -> u32
        ensures { result ≡ self.now.done }
    {
        self.done
    }

    /// Whether a rule waits and has its inputs.
    pub fn is_ready(&self, rule: RuleNo) -> bool
        requires { rule.0 < length self.now.pending.waits }
        ensures { result ≡ is_ready self.now.pending rule.0 }
    {
        self.pending.is_ready(rule)
    }

    /// The bytes of the inputs of a rule that are there.
    pub fn bytes(&self, rule: RuleNo) -> u64
        requires { rule.0 < length self.now.pending.waits }
        ensures { result ≡ bytes_of self.now.pending rule.0 }
    {
        self.pending.bytes(rule)
    }

    /// The least ready rule, from this one on, that takes no more than the limits.
    pub fn least(&self, from: RuleNo, limits: &Weight) -> Option<RuleNo>
        requires { from.0 ≤ length self.now.pending.waits }
        ensures { number_in result ≡ least_ready self.now.pending from.0 limits.now }
    {
        self.pending.least(from, limits)
    }
}
