//! Worlds that begin.
ghost use Rattle.std.specs.Prelude.{◌≡◌, IfOk, length};
ghost use Rattle.flow_types.specs.Plans.{IsValid, sources_of};
ghost use Rattle.link_session.specs.Sessions.{State};
ghost use Rattle.net_world.specs.Plays.{IsShown};
ghost use Rattle.world_laws.specs.Reach.{first_world, opening};
ghost use Rattle.world_contents.specs.Sources.{sources_in};

use crate::play::{Play, note};
use flow_types::{Bytes, Memory, Plan};
use rule_graph::plan_digest;
use run_history::Options;
use std::alloc::Global;
use task_core::Table;
use world_contents::{first_contents, opening};

impl Play {
    /// The first run is opened, the master holds the sources, and nobody has come.
    pub(crate) fn begin(
        alloc: Global,
        plan: &Plan,
        sources: &[Bytes],
        options: &Options,
    ) -> Result<Play, Memory>
        requires valid { IsValid plan.now }
        requires sources { length sources.now ≡ length (sources_of plan.now) }
        ensures { IfOk result (λ play. (fresh : State) → IsShown plan.now options.now
            (first_world plan.now options.now (sources_in plan.now sources.now) fresh) play) }
    {
        let contents = first_contents(alloc, plan, sources)?;
        let mut records = Vec::new(alloc);
        note(&mut records, opening(alloc, plan, sources, options)?)?;
        let digest = plan_digest(plan);
        let owned = plan.copy(alloc)?;
        match Table::new(alloc, owned, *options, &digest, records.as_slice()) {
            Ok(table) => Ok(Play {
                alloc,
                table,
                records,
                contents,
                lines: Vec::new(alloc),
                peers: Vec::new(alloc),
                bag: Vec::new(alloc),
                up: true,
            }),
            Err(_) => Err(Memory),
        }
    }
}
