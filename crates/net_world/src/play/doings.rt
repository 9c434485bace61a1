//! What steps of peers ask for.
ghost use Rattle.std.specs.Prelude.{OnOk};
ghost use Rattle.std.specs.Prelude.{◌<◌};
ghost use Rattle.net_world.specs.Done.{done};
ghost use Rattle.net_world.specs.Plays.{Turns};
ghost use Rattle.world_laws.specs.Worlds.{carried};

use crate::play::Play;
use flow_types::Memory;
use foreman_core::ForemanActs;
use world_peers::{Doing, Party, leave_link, send_below, send_to};

impl Play {
    // A foreman sends what it has to, and leaves the link that it is to leave.
    fn carry(&mut self, foreman: u32, acts: ForemanActs) -> Result<(), Memory>
        ensures { OnOk result (Turns (λ P O w. carried w foreman acts) self.old self.new) }
    {
        let ForemanActs {
            up,
            down,
            leave,
            bye: _,
        } = acts;
        send_to(&mut self.bag, Party::Master, foreman, up)?;
        send_below(&mut self.bag, self.peers.as_slice(), foreman, down)?;
        leave_link(&mut self.peers, foreman, leave);
        Ok(())
    }

    // What a peer's step asks for is done.
    pub(crate) fn carry_out(&mut self, peer: u32, doing: Doing) -> Result<(), Memory>
        ensures { OnOk result (Turns (λ P O w. done w peer doing) self.old self.new) }
    {
        match doing {
            Doing::Nothing => Ok(()),
            Doing::Tells { to, sent } => send_to(&mut self.bag, to, peer, sent),
            Doing::Carries(acts) => self.carry(peer, acts),
        }
    }
}
