//! Cases that are played.
ghost use Rattle.std.specs.Prelude.{IsTrue};
ghost use Rattle.flow_types.specs.Plans.{IsValid};
ghost use Rattle.world_contents.specs.Sources.{fit_sources};

use crate::checks::first_bad;
use crate::random::{Random, draw_events};
use crate::script::{Expected, Script};
use crate::seen::Seen;
use crate::shown::{file_name, shown_world};
use anyhow::{Result, bail};
use flow_types::{Plan, Rows};
use net_world::{World, WorldEvent, run_world};
use std::alloc::Global;

/// The answer to a case.
pub fn played(alloc: Global, plan: &Plan, script: &mut Script) -> Result<String>
    requires valid { IsValid plan.now }
    requires sources { IsTrue (fit_sources plan.now script.old.sources) }
{
    match script.random {
        Some(random) => random_worlds(alloc, plan, script, random),
        None => {
            let world = run_world(
                alloc,
                plan,
                &script.sources,
                &script.options,
                &script.events,
                &mut script.runner,
            );
            match world {
                Ok(world) => shown_world(alloc, plan, &world),
                Err(fault) => Ok(format!(in alloc; "{fault}\n")?),
            }
        }
    }
}

// So many worlds of random events.
fn random_worlds(alloc: Global, plan: &Plan, script: &mut Script, random: Random) -> Result<String>
    requires valid { IsValid plan.now }
    requires sources { IsTrue (fit_sources plan.now script.old.sources) }
{
    let Script {
        sources,
        options,
        runner,
        expected,
        ..
    } = script;
    let mut seen = Seen::new(alloc);
    for number in 0..random.worlds {
        let seed = random.seed.wrapping_add(number);
        let events = Rows::of(draw_events(alloc, random, seed)?);
        match run_world(alloc, plan, sources, options, &events, runner) {
            Ok(world) => {
                look_at(alloc, plan, expected, number, &world)?;
                seen.look_at(alloc, &world)?;
            }
            Err(fault) => bail!("world {number}: {fault}"),
        }
    }
    let worlds = random.worlds;
    let events = random.events;
    let mut text = format!(in alloc; "{worlds} worlds of {events} events are in order\n")?;
    text.push_str(&seen.line(alloc)?)?;
    Ok(text)
}

// Looks at the records and the files of a world.
fn look_at(
    alloc: Global,
    plan: &Plan,
    expected: &[Expected],
    number: u64,
    world: &World,
) -> Result<()> {
    if let Some(at) = first_bad(alloc, world.records.as_slice())? {
        bail!("world {number}: record {at} is out of order");
    }
    for holding in world.files.as_slice() {
        let name = file_name(alloc, plan, holding.file)?;
        let content = holding.content.as_slice();
        if !expected.iter().any(|it| it.name.as_str() == name.as_str()
            && it.content.as_slice() == content)
        {
            bail!("world {number}: {name} isn't as expected");
        }
    }
    Ok(())
}
