//! What a world shows.
ghost use Rattle.std.specs.Prelude.{◌≡◌, ◌<◌, ◌∷◌, ◌++◌, [], IfOk, OnOk, filter, filter_map};
ghost use Rattle.std.specs.Prelude.{length};
ghost use Rattle.flow_types.specs.declared.plan.Plan.{Plan as PlanValue};
ghost use Rattle.run_history.specs.declared.options.Options.{Options as OptionsValue};
ghost use Rattle.net_world.specs.Plays.{IsShown};
ghost use Rattle.net_world.specs.Results.{Shows, holdings, is_made, present_holding};
ghost use Rattle.world_laws.specs.Worlds.{World as WorldState};

use crate::play::Play;
use crate::{Holding, World};
use flow_types::{Bytes, FileNo, Memory, Plan, Rows};
use world_contents::{content_at, is_present};

impl Play {
    // The file is taken, with its content, where it was made and is present.
    fn take_holding(&self, files: &mut Vec<Holding>, file: FileNo) -> Result<(), Memory>
        requires { file.0 < length self.now.table.plan.files }
        ensures { OnOk result ((P : PlanValue) (O : OptionsValue) (w : WorldState)
            → IsShown P O w self.now → files.new.items ≡ files.old.items
            ++ filter_map (present_holding P w) (filter (is_made P) (file.0 ∷ []))) }
    {
        if !is_made(self.table.plan(), file) {
            return Ok(());
        }
        if !is_present(&self.table, file) {
            return Ok(());
        }
        let Some(content) = content_at(self.contents.as_slice(), file) else {
            return Ok(());
        };
        let content = Bytes::of(self.alloc, content.as_slice())?;
        add_holding(files, Holding { file, content })
    }

    // The made files that are present.
    fn holdings(&self) -> Result<Rows<Holding>, Memory>
        ensures { IfOk result (λ files. (P : PlanValue) (O : OptionsValue) (w : WorldState)
            → IsShown P O w self.now → files ≡ holdings P w) }
    {
        let mut files = Vec::new(self.alloc);
        for file in 0..self.table.plan().files.len() as u32 {
            self.take_holding(&mut files, FileNo(file))?;
        }
        Ok(Rows::of(files))
    }

    /// What the world shows.
    pub(crate) fn into_world(self) -> Result<World, Memory>
        ensures { IfOk result (λ shown. (P : PlanValue) (O : OptionsValue) (w : WorldState)
            → IsShown P O w self → Shows P w shown) }
    {
        let files = self.holdings()?;
        Ok(World {
            records: Rows::of(self.records),
            files,
            sent: Rows::of(self.bag),
        })
    }
}

// One more file.
fn add_holding(files: &mut Vec<Holding>, holding: Holding) -> Result<(), Memory>
    ensures { OnOk result (files.new.items ≡ files.old.items ++ holding ∷ []) }
{
    match files.push(holding) {
        Ok(()) => Ok(()),
        Err(_) => Err(Memory),
    }
}

// A rule makes the file.
fn is_made(plan: &Plan, file: FileNo) -> bool
    ensures { result ≡ is_made plan.now file.0 }
{
    match plan.files.get(file.0 as usize) {
        Some(row) => row.maker.is_some(),
        None => false,
    }
}
