//! What is known of each rule behind the records of a part, and how many rules are in each state.
ghost use Rattle.std.specs.Prelude.{◌≡◌, ◌<◌, ◌≤◌, ◌+◌, ◌++◌, ◌∷◌, ◌^◌, ◌-◌, [], false, true, List};
ghost use Rattle.std.specs.Prelude.{if◌then◌else◌, IfOk, None, Some, length};
ghost use Rattle.flow_types.specs.declared.records.Record.{Record as RecordValue};
ghost use Rattle.flow_types.specs.Plans.{most_rules};
ghost use Rattle.run_history.specs.History.{is_cleaned};
ghost use Rattle.run_history.specs.Storage.{has_failed, is_complete_state, is_failed_state};
ghost use Rattle.run_history.specs.Storage.{is_running_state, is_waiting_state};
ghost use Rattle.log_text.specs.Tallies.{IsOpened, IsPut, IsTally, Tells, is_below};
ghost use Rattle.log_text.specs.Tallies.{row_at, row_in, state_of};

use crate::counts::{Counts, is_failed};
use flow_types::{AttemptNo, Record, RuleNo};
use run_history::RuleState;
use std::alloc::{AllocError, Global};

/// A rule as the records left it: whether it is done, and, of the run with this number, its open
/// attempt and its failures.
#[derive(Clone, Copy)]
pub(crate) struct Row {
    done: bool,
    run: u64,
    running: Option<AttemptNo>,
    failures: u64,
}

/// The rows of all rules and their counts behind so many records. The runs of the part are counted
/// from 1, and the last of them has these retries.
#[derive(Drop)]
pub(crate) struct Tally {
    rows: Vec<Row>,
    counts: Counts,
    records: u64,
    runs: u64,
    retries: u32,
}

/// A rule of which nothing is recorded.
const BLANK_ROW: Row = Row {
    done: false,
    run: 0,
    running: None,
    failures: 0,
};

impl Row {
    // This attempt runs.
    fn started(self, attempt: AttemptNo) -> Row
        ensures { result ≡ record self { running = Some attempt } }
    {
        Row {
            running: Some(attempt),
            ..self
        }
    }

    // No attempt runs.
    fn closed(self) -> Row
        ensures { result ≡ record self { running = None } }
    {
        Row {
            running: None,
            ..self
        }
    }

    // The attempt made the rule's outputs.
    fn finished(self) -> Row
        ensures { result ≡ record self { done = true; running = None } }
    {
        Row {
            done: true,
            running: None,
            ..self
        }
    }

    // The attempt failed.
    fn failed(self) -> Row
        requires { self.failures < 2 ^ 64 - 1 }
        ensures { result ≡ record self { running = None; failures = self.failures + 1 } }
    {
        Row {
            running: None,
            failures: self.failures + 1,
            ..self
        }
    }
}

impl Tally {
    /// The tally over so many rules before the first record.
    pub(crate) fn new(alloc: Global, rules: usize) -> Result<Tally, AllocError>
        requires { rules ≤ most_rules }
        ensures counted { IfOk result (λ tally. IsTally rules tally) }
        ensures tells { IfOk result (λ tally. Tells tally []) }
        ensures records { IfOk result (λ tally. tally.records ≡ 0) }
    {
        let mut rows = Vec::new(alloc);
        rows.resize(rules, BLANK_ROW)?;
        let counts = Counts {
            waiting: rules as u32,
            running: 0,
            complete: 0,
            failed: 0,
        };
        Ok(Tally {
            rows,
            counts,
            records: 0,
            runs: 0,
            retries: 0,
        })
    }

    /// How many rules are in each state.
    pub(crate) fn counts(&self) -> Counts
        ensures { result ≡ self.now.counts }
    {
        self.counts
    }

    // The row of a rule, in the last run.
    fn row(&self, rule: RuleNo) -> Row
        requires { rule.0 < length self.now.rows.items }
        ensures { result ≡ row_in self.now.runs (row_at self.now rule.0) }
    {
        let row = self.rows[rule.0 as usize];
        if row.run == self.runs {
            return row;
        }
        Row {
            done: row.done,
            run: self.runs,
            running: None,
            failures: 0,
        }
    }

    fn state_of(&self, row: Row) -> RuleState
        ensures { result ≡ state_of self.now.retries row }
    {
        if row.done {
            return RuleState::Complete;
        }
        match row.running {
            Some(attempt) => RuleState::Running(attempt),
            None if row.failures > u64::from(self.retries) => RuleState::Failed,
            None => RuleState::Waiting,
        }
    }

    /// Whether a rule has failed.
    pub(crate) fn has_failed(&self, rule: RuleNo) -> bool
        requires { rule.0 < length self.now.rows.items }
        ensures { (H : List RecordValue) → Tells self.now H → result ≡ has_failed H rule.0 }
    {
        is_failed(self.state_of(self.row(rule)))
    }

    // One record later the rule has this row.
    fn put(&mut self, rule: RuleNo, row: Row)
        requires inside { rule.0 < length self.old.rows.items }
        requires counted { IsTally (length self.old.rows.items) self.old }
        requires few { self.old.records < 2 ^ 64 - 1 }
        requires run { row.run ≡ self.old.runs }
        requires failures { row.failures ≤ self.old.records + 1 }
        ensures counted { IsTally (length self.old.rows.items) self.new }
        ensures put { IsPut self.old rule.0 row self.new }
    {
        let from = self.state_of(self.row(rule));
        let to = self.state_of(row);
        self.counts = self.counts.moved(from, to);
        self.rows[rule.0 as usize] = row;
        self.records += 1;
    }

    // One record later a run is opened: no attempt runs, and no failure counts.
    fn open(&mut self, retries: u32)
        requires counted { IsTally (length self.old.rows.items) self.old }
        requires few { self.old.records < 2 ^ 64 - 1 }
        ensures counted { IsTally (length self.old.rows.items) self.new }
        ensures opened { IsOpened self.old retries self.new }
    {
        self.counts = Counts {
            waiting: self.rows.len() as u32 - self.counts.complete,
            running: 0,
            complete: self.counts.complete,
            failed: 0,
        };
        self.records += 1;
        self.runs += 1;
        self.retries = retries;
    }

    /// Takes one more record in. It looks at no other rule than the record's, and takes no memory.
    pub(crate) fn note(&mut self, entry: &Record)
        requires counted { IsTally (length self.old.rows.items) self.old }
        requires few { self.old.records < 2 ^ 64 - 1 }
        requires inside { is_below (length self.old.rows.items) entry.now ≡ true }
        requires goes_on { is_cleaned entry.now ≡ false }
        ensures counted { IsTally (length self.old.rows.items) self.new }
        ensures records { self.new.records ≡ self.old.records + 1 }
        ensures tells { (H : List RecordValue) → Tells self.old H
            → Tells self.new (H ++ entry.now ∷ []) }
    {
        match entry {
            Record::Opened { retries, .. } | Record::Resumed { retries, .. } => self.open(*retries),
            Record::Started { rule, attempt, .. } => {
                let row = self.row(*rule);
                self.put(*rule, row.started(*attempt))
            }
            Record::Done { rule, .. } => {
                let row = self.row(*rule);
                self.put(*rule, row.finished())
            }
            Record::Failed { rule, .. } => {
                let row = self.row(*rule);
                self.put(*rule, row.failed())
            }
            Record::Lost { rule, .. } => {
                let row = self.row(*rule);
                self.put(*rule, row.closed())
            }
            Record::Dropped { .. } | Record::Ended { .. } => self.records += 1,
        }
    }
}
