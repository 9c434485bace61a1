//! `key` tells the job's key; `look` what the archive has of it, and how often the store failed
//! before and after where it did; `keep CONTENT` keeps it as the job's only output; `run` runs the
//! job by the runner over the archive, and tells what it answered and how often the runner failed
//! in all.
ghost use Rattle.std.specs.Prelude.{◌≡◌, ◌∷◌, [], true, IfOk};
ghost use Rattle.result_archive.specs.Entries.{Suits};

use crate::archive::files::FOLDER;
use crate::archive::words::name_of;
use cases::shown;
use flow_types::{Bytes, Job, Name, Outcome, Rows};
use mem_outside::{Blank, MemSite, TableRunner};
use outside::{Fault, Runner};
use result_archive::{ArchiveRunner, OnSite, Vault, VaultFault};
use std::alloc::{AllocError, Global};
use std::marker::Brand;
use std::mem;
use std::sync::{Mutex, Wait};

type Archive = Vault<OnSite<MemSite>, Brand>;

/// A runner that knows what a table tells.
pub type Table = TableRunner<Blank>;

/// What a runner over an archive answered, and how often the runner within failed in all.
#[derive(Drop)]
pub struct Answer {
    pub outcome: Result<Outcome, Fault>,
    pub faults: u64,
}

// The archive over the files of this site, which it takes.
fn archive(alloc: Global, store: &mut MemSite) -> Result<Archive, AllocError> {
    let site = mem::replace(store, MemSite::new(alloc));
    let dir = name_of(alloc, FOLDER)?;
    if dir.as_bytes().len() > 900 {
        return Err(AllocError);
    }
    Ok(Vault::new(OnSite { site }, dir))
}

// Gives the files back.
fn put_back(store: &mut MemSite, archive: Archive) {
    let OnSite { site } = archive.into_store();
    *store = site;
}

/// What the archive has of the job.
pub fn looked(
    alloc: Global,
    store: &mut MemSite,
    job: &Job,
) -> Result<Result<Option<Rows<Bytes>>, VaultFault>, AllocError> {
    let mut archive = archive(alloc, store)?;
    let found = archive.look(alloc, job);
    put_back(store, archive);
    Ok(found)
}

/// What the runner over the archive answers of the job.
pub fn ran<W: Wait + Sync>(
    rt: &W,
    alloc: Global,
    store: &mut MemSite,
    runner: &mut Table,
    job: &Job,
) -> Result<Answer, AllocError> {
    let vault = Mutex::new(archive(alloc, store)?);
    let inner = mem::replace(runner, Table::new(alloc));
    let mut over: ArchiveRunner<'_, Blank, W, Table, MemSite, Brand> = ArchiveRunner::new(
        rt, inner, &vault,
    );
    let outcome = over.run(alloc, job);
    let faults = over.faults();
    *runner = over.into_inner();
    put_back(store, vault.into_inner());
    Ok(Answer { outcome, faults })
}

// Whether this is such an output as the job may have. It has to have one.
fn is_fit(job: &Job, output: &Bytes) -> bool
    ensures { result ≡ true → Suits job.now (output.now ∷ []) }
{
    match job.outputs.as_slice() {
        [want] => {
            let len = output.as_slice().len();
            len <= MOST_BYTES && len as u64 <= want.bound
        }
        _ => false,
    }
}

// The most bytes of a job's outputs together.
const MOST_BYTES: usize = 67_108_864;

fn one(alloc: Global, output: Bytes) -> Result<Rows<Bytes>, AllocError>
    ensures { IfOk result (λ rows. rows ≡ output ∷ []) }
{
    let mut rows = Rows::new(alloc);
    match rows.push(output) {
        Ok(()) => Ok(rows),
        Err(_) => Err(AllocError),
    }
}

/// Keeps this as the job's only output.
pub fn kept(
    alloc: Global,
    store: &mut MemSite,
    job: &Job,
    content: &str,
) -> Result<&'static str, AllocError> {
    let Ok(output) = Bytes::of(alloc, content.as_bytes()) else {
        return Err(AllocError);
    };
    if !is_fit(job, &output) {
        return Ok("no such output");
    }
    let outs = one(alloc, output)?;
    let mut archive = archive(alloc, store)?;
    let kept = archive.keep(alloc, job, &outs);
    put_back(store, archive);
    Ok(told_of(kept))
}

fn told_of(kept: Result<(), VaultFault>) -> &'static str {
    match kept {
        Ok(()) => "kept",
        Err(
            VaultFault::Store {
                before: _,
                after: _,
            },
        ) => "not kept",
        Err(VaultFault::Memory) => "no memory",
    }
}

fn shown_contents(alloc: Global, contents: &[Bytes]) -> Result<String, AllocError> {
    let mut text = String::new(alloc);
    for content in contents {
        let bytes = shown(alloc, content.as_slice())?;
        text.push_str(" [")?;
        text.push_str(&bytes)?;
        text.push_str("]")?;
    }
    Ok(text)
}

fn shown_fault(alloc: Global, fault: VaultFault) -> Result<String, AllocError> {
    match fault {
        VaultFault::Store { before, after } => {
            format!(in alloc; "the store failed: {before}, {after}")
        }
        VaultFault::Memory => Err(AllocError),
    }
}

/// What a look found.
pub fn shown_look(
    alloc: Global,
    found: Result<Option<Rows<Bytes>>, VaultFault>,
) -> Result<String, AllocError> {
    match found {
        Ok(Some(outs)) => {
            let mut text = String::from_str(alloc, "found")?;
            text.push_str(&shown_contents(alloc, outs.as_slice())?)?;
            Ok(text)
        }
        Ok(None) => String::from_str(alloc, "nothing"),
        Err(fault) => shown_fault(alloc, fault),
    }
}

fn shown_outcome(alloc: Global, outcome: &Outcome) -> Result<String, AllocError> {
    match outcome {
        Outcome::Success(contents) => {
            let mut text = String::from_str(alloc, "success")?;
            text.push_str(&shown_contents(alloc, contents.as_slice())?)?;
            Ok(text)
        }
        Outcome::Failed(_) => String::from_str(alloc, "failed"),
        Outcome::NotRun => String::from_str(alloc, "not run"),
    }
}

/// What a runner answered, and its count.
pub fn shown_answer(alloc: Global, answer: &Answer) -> Result<String, AllocError> {
    let mut text = match &answer.outcome {
        Ok(outcome) => shown_outcome(alloc, outcome)?,
        Err(Fault::Failed) => String::from_str(alloc, "the runner failed")?,
        Err(Fault::Memory) => return Err(AllocError),
    };
    let faults = answer.faults;
    let count = format!(in alloc; ", {faults}")?;
    text.push_str(&count)?;
    Ok(text)
}
