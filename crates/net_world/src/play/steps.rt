//! Events of a world.
ghost use Rattle.std.specs.Prelude.{◌≡◌, ◌<◌, ◌≤◌, IsErrOf, OnOk};
ghost use Rattle.flow_types.specs.declared.job.Job.{Job as JobValue};
ghost use Rattle.world_laws.specs.declared.events.WorldEvent.TheVariants as events;
ghost use Rattle.world_laws.specs.Due.{due_down, due_up};
ghost use Rattle.net_world.specs.Plays.{Turns};
ghost use Rattle.net_world.specs.Steps.{Leads, RunsAs, StepsBy, in_world};
ghost use Rattle.world_laws.specs.Worlds.{claim_logged, claimed_rule, cut_short, happens_down};
ghost use Rattle.world_laws.specs.Worlds.{happens_up, job_run};

use crate::play::Play;
use flow_types::{LinkNo, Memory, Outcome};
use outside::{Commands, Runner};
use world_laws::{Cut, WorldEvent};
use world_peers::WorldFault;

impl Play {
    // What a claim logs, and nothing is sent.
    fn cut_claim(&mut self, link: LinkNo) -> Result<(), Memory>
        ensures { OnOk result
            (Turns (λ P O w. claim_logged w link.0 (claimed_rule P O w link.0)) self.old self.new) }
    {
        self.log_claim(link)?;
        Ok(())
    }

    // What a cut leaves of its event.
    fn cut<F: Commands, R: Runner<F>>(&mut self, cut: Cut, runner: &mut R) -> Result<(), WorldFault>
        ensures ran { OnOk result (((job : JobValue) → R.tells runner.old job)
            → RunsAs F.gives F.may_fail (λ P w. job_run P w (events.Crash cut))
            (λ P w. due_up P w (events.Crash cut))
            (λ P O w outcome. cut_short P O w cut outcome) self.old self.new) }
        ensures cause { IsErrOf result WorldFault.Runner → R.count runner.old < R.count runner.new }
        ensures later { R.count runner.old ≤ R.count runner.new }
        ensures still_tells { (job : JobValue) → R.tells runner.old job → R.tells runner.new job }
    {
        match cut {
            Cut::Nothing => Ok(()),
            Cut::Claim(link) => in_world(self.cut_claim(link)),
            Cut::RunLocal(attempt) => self.run_local(attempt, runner),
            Cut::Collect => in_world(self.log_drop()),
            Cut::End => in_world(self.end()),
            Cut::Deliver(at) => in_world(self.log_delivery(at)),
            Cut::Lose(attempt) => in_world(self.close(attempt, &Outcome::NotRun)),
        }
    }

    // The master crashes, and with it the event that the cut names.
    fn crash<F: Commands, R: Runner<F>>(
        &mut self,
        cut: Cut,
        runner: &mut R,
    ) -> Result<(), WorldFault>
        ensures ran { OnOk result (((job : JobValue) → R.tells runner.old job)
            → RunsAs F.gives F.may_fail (λ P w. job_run P w (events.Crash cut))
            (λ P w. due_up P w (events.Crash cut))
            (λ P O w outcome. happens_up P O w (events.Crash cut) outcome) self.old self.new) }
        ensures cause { IsErrOf result WorldFault.Runner → R.count runner.old < R.count runner.new }
        ensures later { R.count runner.old ≤ R.count runner.new }
        ensures still_tells { (job : JobValue) → R.tells runner.old job → R.tells runner.new job }
    {
        self.cut(cut, runner)?;
        in_world(self.stop())
    }

    // An event while the master runs.
    fn step_up<F: Commands, R: Runner<F>>(
        &mut self,
        event: WorldEvent,
        runner: &mut R,
    ) -> Result<(), WorldFault>
        ensures ran { OnOk result (((job : JobValue) → R.tells runner.old job)
            → RunsAs F.gives F.may_fail (λ P w. job_run P w event)
            (λ P w. due_up P w event) (λ P O w outcome. happens_up P O w event outcome) self.old self.new) }
        ensures cause { IsErrOf result WorldFault.Runner → R.count runner.old < R.count runner.new }
        ensures later { R.count runner.old ≤ R.count runner.new }
        ensures still_tells { (job : JobValue) → R.tells runner.old job → R.tells runner.new job }
    {
        match event {
            WorldEvent::Join(joiner) => in_world(self.join(joiner)),
            WorldEvent::Claim(link) => in_world(self.claim(link)),
            WorldEvent::RunLocal(attempt) => self.run_local(attempt, runner),
            WorldEvent::Collect => in_world(self.collect()),
            WorldEvent::End => in_world(self.end()),
            WorldEvent::Deliver(at) => in_world(self.deliver(at)),
            WorldEvent::LoseLink(link) => in_world(self.lose_link(link)),
            WorldEvent::Evict(peer) => in_world(self.evict(peer)),
            WorldEvent::Run(peer) => self.run(peer, runner),
            WorldEvent::Crash(cut) => self.crash(cut, runner),
            WorldEvent::Resume => in_world(self.resume()),
        }
    }

    // An event from a crash to a resume: only peers act.
    fn step_down<F: Commands, R: Runner<F>>(
        &mut self,
        event: WorldEvent,
        runner: &mut R,
    ) -> Result<(), WorldFault>
        ensures ran { OnOk result (((job : JobValue) → R.tells runner.old job)
            → RunsAs F.gives F.may_fail (λ P w. job_run P w event)
            (λ P w. due_down w event) (λ P O w outcome. happens_down P O w event outcome) self.old self.new) }
        ensures cause { IsErrOf result WorldFault.Runner → R.count runner.old < R.count runner.new }
        ensures later { R.count runner.old ≤ R.count runner.new }
        ensures still_tells { (job : JobValue) → R.tells runner.old job → R.tells runner.new job }
    {
        match event {
            WorldEvent::Evict(peer) => in_world(self.evict(peer)),
            WorldEvent::Run(peer) => self.run(peer, runner),
            WorldEvent::Resume => in_world(self.resume()),
            WorldEvent::Join(_)
            | WorldEvent::Claim(_)
            | WorldEvent::RunLocal(_)
            | WorldEvent::Collect
            | WorldEvent::End
            | WorldEvent::Deliver(_)
            | WorldEvent::LoseLink(_)
            | WorldEvent::Crash(_) => Ok(()),
        }
    }

    /// One event; one that isn't enabled changes nothing.
    pub(crate) fn step<F: Commands, R: Runner<F>>(
        &mut self,
        event: WorldEvent,
        runner: &mut R,
    ) -> Result<(), WorldFault>
        ensures ran { OnOk result (((job : JobValue) → R.tells runner.old job)
            → StepsBy F.gives F.may_fail event self.old self.new) }
        ensures cause { IsErrOf result WorldFault.Runner → R.count runner.old < R.count runner.new }
        ensures later { R.count runner.old ≤ R.count runner.new }
        ensures still_tells { (job : JobValue) → R.tells runner.old job → R.tells runner.new job }
    {
        if self.up {
            self.step_up(event, runner)
        } else {
            self.step_down(event, runner)
        }
    }

    /// These events in their order.
    pub(crate) fn play<F: Commands, R: Runner<F>>(
        &mut self,
        events: &[WorldEvent],
        runner: &mut R,
    ) -> Result<(), WorldFault>
        ensures ran { OnOk result (((job : JobValue) → R.tells runner.old job)
            → Leads F.gives F.may_fail events.now self.old self.new) }
        ensures cause { IsErrOf result WorldFault.Runner → R.count runner.old < R.count runner.new }
        ensures later { R.count runner.old ≤ R.count runner.new }
        ensures still_tells { (job : JobValue) → R.tells runner.old job → R.tells runner.new job }
    {
        for event in events {
            self.step(*event, runner)?;
        }
        Ok(())
    }
}

// The answer of a call that runs no job, as one of a world.
fn in_world(answer: Result<(), Memory>) -> Result<(), WorldFault>
    ensures { result ≡ in_world answer }
{
    match answer {
        Ok(()) => Ok(()),
        Err(Memory) => Err(WorldFault::Memory),
    }
}
