//! Peers that run their jobs.
ghost use Rattle.std.specs.Prelude.{◌≡◌, ◌<◌, ◌≤◌, IsErrOf, OnOk};
ghost use Rattle.flow_types.specs.declared.job.Job.{Job as JobValue};
ghost use Rattle.net_world.specs.Plays.{RunsPeer};

use crate::play::Play;
use flow_types::Memory;
use outside::{Commands, Runner};
use world_peers::WorldFault;

impl Play {
    // A worker that isn't gone runs its least job and reports it.
    pub(crate) fn run<F: Commands, R: Runner<F>>(
        &mut self,
        peer: u32,
        runner: &mut R,
    ) -> Result<(), WorldFault>
        ensures ran { OnOk result (((job : JobValue) → R.tells runner.old job)
            → RunsPeer F.gives F.may_fail peer self.old self.new) }
        ensures cause { IsErrOf result WorldFault.Runner → R.count runner.old < R.count runner.new }
        ensures later { R.count runner.old ≤ R.count runner.new }
        ensures still_tells { (job : JobValue) → R.tells runner.old job → R.tells runner.new job }
    {
        let Some(member) = self.peers.get_mut(peer as usize) else {
            return Ok(());
        };
        let doing = member.run(runner)?;
        match self.carry_out(peer, doing) {
            Ok(()) => Ok(()),
            Err(Memory) => Err(WorldFault::Memory),
        }
    }
}
