//! `damages` looks for the job with each bit of its entry turned that `turn` turns, cut to each
//! length, cut so behind a closed gate, and a byte longer, and tells where something is found.
//! `stops CALLS` looks for it in what a crash behind each of the store's first calls leaves: what
//! was synced, and all that was written. `faults CALLS` runs it for each of these calls over a
//! store of which that call fails, and looks for it in what a crash leaves of what was synced. The
//! last two tell only where the answer isn't that of the call before. The archive stays as it was.
use crate::archive::asks::{Table, looked, ran, shown_answer, shown_look};
use crate::archive::files::{bytes_in, entry_of, site_with, turn};
use crate::archive::words::noted;
use flow_types::{Job, Memory, Name};
use mem_outside::MemSite;
use std::alloc::{AllocError, Global};
use std::sync::Wait;

// Whether nothing is found of the job where these bytes are its entry.
fn is_none(alloc: Global, job: &Job, name: &Name, bytes: &[u8]) -> Result<bool, AllocError> {
    let mut store = site_with(alloc, name, bytes)?;
    match looked(alloc, &mut store, job)? {
        Ok(found) => Ok(found.is_none()),
        Err(_) => Ok(false),
    }
}

// The bytes with one of them turned.
fn turned(alloc: Global, bytes: &[u8], place: usize) -> Result<Vec<u8>, AllocError> {
    let mut turned = Vec::from_slice(alloc, bytes)?;
    turn(&mut turned, place);
    Ok(turned)
}

// Whether nothing is found where one byte is turned, and where what stands behind it is gone, the
// gate being open or closed.
fn is_lost(
    alloc: Global,
    job: &Job,
    name: &Name,
    bytes: &[u8],
    shut: &[u8],
    place: usize,
) -> Result<bool, AllocError> {
    let turned = turned(alloc, bytes, place)?;
    let cut = bytes.get(..place).unwrap_or(&[]);
    let torn = shut.get(..place).unwrap_or(&[]);
    Ok(
        is_none(alloc, job, name, &turned)?
            && is_none(alloc, job, name, cut)?
            && is_none(alloc, job, name, torn)?,
    )
}

/// How many bytes the entry has, and the first place at which a damage is not seen.
pub fn damages(alloc: Global, store: &MemSite, job: &Job) -> Result<String, AllocError> {
    let name = entry_of(alloc, job)?;
    let bytes = bytes_in(alloc, store, &name)?;
    let shut = turned(alloc, &bytes, 0)?;
    let len = bytes.len();
    for place in 0..len {
        if !is_lost(alloc, job, &name, &bytes, &shut, place)? {
            return format!(in alloc; "found at {place}");
        }
    }
    let mut longer = bytes;
    longer.push(0)?;
    if is_none(alloc, job, &name, &longer)? {
        return format!(in alloc; "nothing in {len} ways");
    }
    String::from_str(alloc, "found where it is longer")
}

// What a crash behind a call leaves, at this choice.
fn image(alloc: Global, store: &MemSite, call: u64, choice: u64) -> Result<MemSite, AllocError> {
    store.image(alloc, call, choice).map_err(|_| AllocError)
}

// What is found of the job in this image.
fn found_in(
    alloc: Global,
    store: &MemSite,
    job: &Job,
    call: u64,
    choice: u64,
) -> Result<String, AllocError> {
    let mut left = image(alloc, store, call, choice)?;
    shown_look(alloc, looked(alloc, &mut left, job)?)
}

// What is found of the job in both images of a call.
fn found_at(alloc: Global, store: &MemSite, job: &Job, call: u64) -> Result<String, AllocError> {
    let mut text = found_in(alloc, store, job, call, 0)?;
    text.push_str("; ")?;
    text.push_str(&found_in(alloc, store, job, call, 1)?)?;
    Ok(text)
}

// Adds a line for this call, where it says something else than the last one.
fn add_line(
    alloc: Global,
    text: &mut String,
    last: &mut String,
    call: u64,
    line: String,
) -> Result<(), AllocError> {
    if line.as_str() != last.as_str() {
        let head = format!(in alloc; "\n{call}: ")?;
        text.push_str(&head)?;
        text.push_str(&line)?;
        *last = line;
    }
    Ok(())
}

/// What a crash behind each of the first so many calls leaves of the job.
pub fn stops(alloc: Global, store: &MemSite, job: &Job, calls: u64) -> Result<String, AllocError> {
    let mut text = String::from_str(alloc, "behind each call")?;
    let mut last = String::new(alloc);
    for call in 0..calls {
        let line = found_at(alloc, store, job, call)?;
        add_line(alloc, &mut text, &mut last, call, line)?;
    }
    Ok(text)
}

// What the runner answers where this call of the store fails, and what is found afterwards.
fn faulted<W: Wait + Sync>(
    rt: &W,
    alloc: Global,
    store: &MemSite,
    runner: &mut Table,
    job: &Job,
    call: u64,
) -> Result<String, AllocError> {
    let mut failing = image(alloc, store, u64::MAX, 1)?;
    noted(failing.fail_at(call))?;
    let answer = ran(rt, alloc, &mut failing, runner, job)?;
    let mut text = shown_answer(alloc, &answer)?;
    text.push_str("; ")?;
    text.push_str(&found_in(alloc, &failing, job, u64::MAX, 0)?)?;
    Ok(text)
}

/// What the runner answers where each of the store's first so many calls fails.
pub fn faults<W: Wait + Sync>(
    rt: &W,
    alloc: Global,
    store: &MemSite,
    runner: &mut Table,
    job: &Job,
    calls: u64,
) -> Result<String, AllocError> {
    let mut text = String::from_str(alloc, "without each call")?;
    let mut last = String::new(alloc);
    for call in 0..calls {
        let line = faulted(rt, alloc, store, runner, job, call)?;
        add_line(alloc, &mut text, &mut last, call, line)?;
    }
    Ok(text)
}
