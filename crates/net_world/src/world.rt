//! Worlds that are played over the machines of the programs.
ghost use Rattle.std.specs.Prelude.{◌<◌, ◌≤◌, IfOk, IsErrOf, IsTrue};
ghost use Rattle.flow_types.specs.declared.job.Job.{Job as JobValue};
ghost use Rattle.flow_types.specs.Plans.{IsValid};
ghost use Rattle.net_world.specs.Ends.{EndsIn};
ghost use Rattle.world_contents.specs.Sources.{fit_sources};

use crate::play::Play;
use flow_types::{Bytes, FileNo, Memory, Plan, Record, Rows};
use outside::{Commands, Runner};
use run_history::Options;
use std::alloc::Global;
use world_laws::WorldEvent;
use world_peers::{Sent, WorldFault};

/// A made file that is present, with its content.
#[derive(Drop)]
pub struct Holding {
    pub file: FileNo,
    pub content: Bytes,
}

/// What a world shows at its end: the master's records, its made files that are present, ascending,
/// and all messages that were ever sent, in the order of sending.
#[derive(Drop)]
pub struct World {
    pub records: Rows<Record>,
    pub files: Rows<Holding>,
    pub sent: Rows<Sent>,
}

/// Plays these events in their order over the machines that the programs run; one that isn't
/// enabled changes nothing. Condition: the plan is valid, and the sources fit it, in the order of
/// their numbers.
pub fn run_world<F: Commands, R: Runner<F>>(
    alloc: Global,
    plan: &Plan,
    sources: &Rows<Bytes>,
    options: &Options,
    events: &Rows<WorldEvent>,
    runner: &mut R,
) -> Result<World, WorldFault>
    requires valid { IsValid plan.now }
    requires sources { IsTrue (fit_sources plan.now sources.now) }
    ensures reached { IfOk result (λ shown. ((job : JobValue) → R.tells runner.old job)
        → EndsIn plan.now options.now F.gives F.may_fail sources.now events.now shown) }
    ensures cause { IsErrOf result WorldFault.Runner → R.count runner.old < R.count runner.new }
    ensures later { R.count runner.old ≤ R.count runner.new }
    ensures still_tells { (job : JobValue) → R.tells runner.old job → R.tells runner.new job }
{
    let mut play = match Play::begin(alloc, plan, sources.as_slice(), options) {
        Ok(play) => play,
        Err(Memory) => return Err(WorldFault::Memory),
    };
    play.play(events.as_slice(), runner)?;
    match play.into_world() {
        Ok(world) => Ok(world),
        Err(Memory) => Err(WorldFault::Memory),
    }
}
