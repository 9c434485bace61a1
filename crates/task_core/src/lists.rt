//! What a table lends of what it keeps.
ghost use Rattle.std.specs.Prelude.{◌≡◌, ◌<◌, List, filter, length, map};
ghost use Rattle.ready_rules.specs.Lines.{number};
ghost use Rattle.run_history.specs.declared.moves.Move.{Move};
ghost use Rattle.run_history.specs.Links.{records_of, running_on};
ghost use Rattle.run_history.specs.States.{file_state, rule_state};
ghost use Rattle.run_history.specs.Storage.{ready_rules};
ghost use Rattle.task_core.specs.Known.{is_on, ready, running};
ghost use Rattle.task_core.specs.States.{known_in};
ghost use Rattle.task_core.specs.Stands.{Stands, has_started};

use crate::table::Table;
use flow_types::{FileNo, LinkNo, RuleNo};
use run_history::{FileState, Mode, RuleState};

impl Table {
    /// The rules that wait and have their inputs, ascending. The list is kept: it looks at no rule.
    pub fn ready(&self) -> &[RuleNo]
        ensures known { map number result.now ≡ ready (known_in self.now) }
        ensures rules { (moves : List Move) → Stands self.now moves
            → map number result.now ≡ ready_rules self.now.plan (records_of moves) }
    {
        self.progress().ready()
    }

    /// The rules that run on a link, ascending, as the records say. The list is kept: it looks for
    /// the link by halves, and at no rule.
    pub fn running_on(&self, link: LinkNo) -> &[RuleNo]
        ensures known { map number result.now
            ≡ filter (is_on (known_in self.now) link.0) (running (known_in self.now)) }
        ensures rules { (moves : List Move) → Stands self.now moves
            → map number result.now ≡ running_on self.now.plan (records_of moves) link.0 }
    {
        self.tasks_on(link)
    }

    /// Whether a Started of the part names the rule. It looks at this rule alone.
    pub fn started(&self, rule: RuleNo) -> bool
        requires { rule.0 < length self.now.plan.rules }
        ensures { (moves : List Move) → Stands self.now moves
            → result ≡ has_started (records_of moves) rule.0 }
    {
        self.row(rule).started
    }

    /// What a rule is doing, as the records say. It looks at this rule alone.
    pub fn rule_state(&self, rule: RuleNo) -> RuleState
        requires { rule.0 < length self.now.plan.rules }
        ensures { (moves : List Move) → Stands self.now moves
            → result ≡ rule_state (records_of moves) rule.0 }
    {
        self.state(rule)
    }

    /// What there is of a file, as the records say. It looks at this file alone.
    pub fn file_state(&self, file: FileNo) -> FileState
        requires { file.0 < length self.now.plan.files }
        ensures { (moves : List Move) → Stands self.now moves
            → result ≡ file_state self.now.plan (records_of moves) file.0 }
    {
        self.file(file)
    }

    /// Which files are collected.
    pub fn mode(&self) -> Mode
        ensures { result ≡ self.now.options.mode }
    {
        self.options().mode
    }
}
