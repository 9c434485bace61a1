//! Claims: a rule starts on a link, and its task goes over it.
ghost use Rattle.std.specs.Prelude.{◌≡◌, ◌<◌, IfOk, IfSome, OnOk, false, length, position};
ghost use Rattle.flow_types.specs.declared.plan.Plan.{Plan as PlanValue};
ghost use Rattle.link_session.specs.Keys.{lacking};
ghost use Rattle.link_session.specs.Sessions.{is_open, started};
ghost use Rattle.run_history.specs.Links.{records_of};
ghost use Rattle.run_history.specs.declared.options.Options.{Options as OptionsValue};
ghost use Rattle.net_world.specs.Plays.{Dispatches, IsClaimed, IsShown, SendsOut, Turns};
ghost use Rattle.world_laws.specs.Worlds.{World, at_link, claimed_rule, claims, task_at};
ghost use Rattle.world_laws.specs.Worlds.{task_with};

use crate::play::{Line, Play, note};
use flow_types::{AttemptNo, FileNo, LinkNo, Memory, Record, Rows, Task};
use task_core::Started;
use world_contents::{rule_at, rule_of, task_with};

impl Play {
    // The task of an attempt, where its rule is one of the plan.
    pub(crate) fn task_at(&self, attempt: AttemptNo) -> Result<Option<Task>, Memory>
        ensures { IfOk result (λ task. (P : PlanValue) (O : OptionsValue) (w : World)
            → IsShown P O w self.now → task ≡ task_at P (records_of w.moves) attempt) }
    {
        let Some(rule) = rule_at(self.records.as_slice(), attempt) else {
            return Ok(None);
        };
        if !self.has_rule(rule) {
            return Ok(None);
        }
        let plan = self.table.plan();
        let run = self.table.runs_so_far().saturating_sub(1);
        let task = task_with(self.alloc, plan, rule_of(plan, rule), attempt, run)?;
        Ok(Some(task))
    }

    // A task goes over the link at this place, with the inputs that its peer lacks.
    fn dispatch(&mut self, at: usize, task: Task) -> Result<(), Memory>
        ensures { OnOk result (Dispatches at task self.old self.new) }
    {
        let Some(line) = self.lines.get_mut(at) else {
            return Ok(());
        };
        if line.session.has(task.attempt) {
            return Ok(());
        }
        let files = begin(line, &task)?;
        let peer = line.peer;
        self.send_task(peer, files.as_slice(), task)
    }

    // An attempt that was started on a link goes over it; on the local place nothing is sent.
    fn send_out(&mut self, link: LinkNo, attempt: AttemptNo) -> Result<(), Memory>
        ensures { OnOk result (SendsOut link.0 attempt self.old self.new) }
    {
        let Some(at) = place_of(&self.lines, link) else {
            return Ok(());
        };
        match self.task_at(attempt)? {
            Some(task) => self.dispatch(at, task),
            None => Ok(()),
        }
    }

    // What a claim for a link logs, and the attempt that is to go over it.
    pub(crate) fn log_claim(&mut self, link: LinkNo) -> Result<Option<AttemptNo>, Memory>
        ensures { IfOk result (λ found. (P : PlanValue) (O : OptionsValue) (w : World)
            → IsShown P O w self.old → IsClaimed P O w link.0 found self.new) }
    {
        if !self.table.lives(link) {
            return Ok(None);
        }
        match self.table.claim(link) {
            Ok(Started { rule, attempt }) => {
                let entry = Record::Started {
                    moment: 0,
                    rule,
                    attempt,
                    link,
                };
                note(&mut self.records, entry)?;
                Ok(Some(attempt))
            }
            Err(_) => Ok(None),
        }
    }

    // A rule starts on a link, where a claim gives one.
    pub(crate) fn claim(&mut self, link: LinkNo) -> Result<(), Memory>
        ensures { OnOk result (Turns (λ P O w. claims P w link.0 (claimed_rule P O w link.0))
            self.old self.new) }
    {
        match self.log_claim(link)? {
            Some(attempt) => self.send_out(link, attempt),
            None => Ok(()),
        }
    }
}

// Where the link stands.
fn place_of(lines: &[Line], link: LinkNo) -> Option<usize>
    ensures place { result ≡ position (at_link link.0) lines.now }
    ensures within { IfSome result (λ at. at < length lines.now) }
{
    lines.iter().position(|line| line.link.0 == link.0)
}

// A task begins on a link; answers the files that its peer lacks.
fn begin(line: &mut Line, task: &Task) -> Result<Rows<FileNo>, Memory>
    requires { is_open task.now.attempt line.old.session.attempts ≡ false }
    ensures files { IfOk result (λ files. files
        ≡ lacking line.old.session.known task.now.run task.now.inputs) }
    ensures line { OnOk result (line.new
        ≡ record line.old { session = started line.old.session task.now }) }
{
    line.session.start(task)
}
