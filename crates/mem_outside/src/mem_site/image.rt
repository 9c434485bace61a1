//! What a crash leaves of a site in memory.
ghost use Rattle.std.specs.Prelude.{◌≡◌, ◌≤◌, ℕ, [], nat_lt, IfOk, OnOk};
ghost use Rattle.std.specs.List.{position};
ghost use Rattle.outside.specs.Disk.{IsImage};
ghost use Rattle.mem_outside.specs.Calls.{no_calls};
ghost use Rattle.mem_outside.specs.Entries.{files_in};
ghost use Rattle.mem_outside.specs.MemSite.{files_of, calls_of, start_of, steps_of, images_of};
ghost use Rattle.mem_outside.specs.MemSite.{leaves_at, moment_at, reads_at, synced_at};
ghost use Rattle.mem_outside.specs.Steps.{is_durable, stepped, settled, reads, synced, up_to};

use super::MemSite;
use crate::calls::CallList;
use crate::entries::{self, Entries};
use crate::step::{Change, Step};
use flow_types::Memory;
use std::alloc::{AllocError, Global};

// What reads give after some steps, and what was on the disk when each file was last synced.
#[derive(Drop)]
struct Disk {
    written: Entries,
    synced: Entries,
}

impl MemSite {
    /// What a crash may leave at the moment when the call of that number had ended, or now where
    /// there was no such call. At choice 0 each file is as it was when it was last synced or put,
    /// and at any other as reads gave it.
    ///
    /// The site that is answered has no other image, and its calls are numbered from 0 again.
    pub fn image(&self, alloc: Global, call: u64, choice: u64) -> Result<MemSite, Memory>
        ensures image { IfOk result (λ image. IsImage (leaves_at call self.now) (files_of image)) }
        ensures since { IfOk result (λ image. (t : ℕ)
            → t ≤ moment_at call self.now → images_of self.now t (files_of image)) }
        ensures synced { choice ≡ 0
            → IfOk result (λ image. files_of image ≡ synced_at call self.now) }
        ensures written { choice ≡ 1
            → IfOk result (λ image. files_of image ≡ reads_at call self.now) }
        ensures start { IfOk result (λ image. start_of image ≡ files_of image) }
        ensures steps { IfOk result (λ image. steps_of image ≡ []) }
        ensures calls { IfOk result (λ image. calls_of image ≡ no_calls) }
    {
        let steps = steps_up_to(&self.steps, call);
        let Ok(Disk { written, synced }) = replay(alloc, &self.start, steps) else {
            return Err(Memory);
        };
        let is_least = choice == 0;
        if is_least {
            return settled_site(alloc, synced);
        }
        settled_site(alloc, written)
    }
}

// A site with these files, all on the disk.
fn settled_site(alloc: Global, files: Entries) -> Result<MemSite, Memory>
    ensures files { IfOk result (λ site. files_of site ≡ files_in files) }
    ensures start { IfOk result (λ site. start_of site ≡ files_in files) }
    ensures steps { IfOk result (λ site. steps_of site ≡ []) }
    ensures calls { IfOk result (λ site. calls_of site ≡ no_calls) }
{
    let Ok(start) = entries::copy(&files) else {
        return Err(Memory);
    };
    Ok(MemSite {
        alloc,
        start,
        entries: files,
        steps: Vec::new(alloc),
        calls: CallList::new(alloc),
    })
}

// The place of the first step of a later call.
fn first_after(steps: &[Step], call: u64) -> Option<usize>
    ensures { result ≡ position (λ step. nat_lt call step.call) steps.now }
{
    steps.iter().position(|step| step.call > call)
}

fn steps_up_to(steps: &[Step], call: u64) -> &[Step]
    ensures { result.now ≡ up_to call steps.now }
{
    match first_after(steps, call) {
        Some(at) => &steps[..at],
        None => steps,
    }
}

// What some steps make of files that were on the disk.
fn replay(alloc: Global, start: &Entries, steps: &[Step]) -> Result<Disk, AllocError>
    ensures written { IfOk result
        (λ disk. files_in disk.written ≡ reads (files_in start.now) steps.now) }
    ensures synced { IfOk result
        (λ disk. files_in disk.synced ≡ synced (files_in start.now) steps.now) }
{
    let mut disk = Disk {
        written: entries::copy(start)?,
        synced: entries::copy(start)?,
    };
    for step in steps {
        disk.step(alloc, step)?;
    }
    Ok(disk)
}

impl Disk {
    fn step(&mut self, alloc: Global, step: &Step) -> Result<(), AllocError>
        ensures written { OnOk result
            (files_in self.new.written ≡ stepped step.now (files_in self.old.written)) }
        ensures synced { OnOk result (files_in self.new.synced
            ≡ settled step.now (files_in self.old.written) (files_in self.old.synced)) }
    {
        let name = step.name.as_bytes();
        entries::apply(alloc, &mut self.written, name, &step.change)?;
        if is_durable(&step.change) {
            entries::settle(alloc, &self.written, &mut self.synced, name)?;
        }
        Ok(())
    }
}

// What the change leaves is on the disk.
fn is_durable(change: &Change) -> bool
    ensures { result ≡ is_durable change.now }
{
    match change {
        Change::Put(_) | Change::Sync => true,
        Change::Write(_, _) | Change::Cut(_) | Change::Remove => false,
    }
}
