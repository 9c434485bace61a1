//! Files by name.
ghost use Rattle.std.specs.Prelude.{◌≡◌, Some, None, OnOk, OnErr, IfOk, option_map, take};
ghost use Rattle.outside.specs.Files.{content, written};
ghost use Rattle.mem_outside.specs.Entries.{files_in, with_file};
ghost use Rattle.mem_outside.specs.Steps.{value_after};

use crate::step::Change;
use std::alloc::{AllocError, Global};
use std::collections::BTreeMap;

pub(crate) type Entries = BTreeMap<Vec<u8>, Vec<u8>>;

pub(crate) fn file<'a>(entries: &'a Entries, name: &[u8]) -> Option<&'a [u8]>
    ensures { option_map (λ bytes. bytes.now) result ≡ files_in entries.now name.now }
{
    match entries.get(name) {
        Some(bytes) => Some(bytes.as_slice()),
        None => None,
    }
}

// Does a change to a file.
pub(crate) fn apply(
    alloc: Global,
    entries: &mut Entries,
    name: &[u8],
    change: &Change,
) -> Result<(), AllocError>
    ensures ok { OnOk result (files_in entries.new ≡ with_file name.now
        (value_after change.now (files_in entries.old name.now)) (files_in entries.old)) }
    ensures err { OnErr result (files_in entries.new ≡ files_in entries.old) }
{
    match change {
        Change::Put(bytes) => put(alloc, entries, name, bytes.as_slice()),
        Change::Write(at, bytes) => write(alloc, entries, name, *at as usize, bytes.as_slice()),
        Change::Cut(len) => {
            cut(entries, name, *len as usize);
            Ok(())
        }
        Change::Remove => {
            remove(entries, name);
            Ok(())
        }
        Change::Sync => Ok(()),
    }
}

// Puts a file in the place of the one that has the name, if there is one.
fn put(alloc: Global, entries: &mut Entries, name: &[u8], content: &[u8]) -> Result<(), AllocError>
    ensures ok { OnOk result
        (files_in entries.new ≡ with_file name.now (Some content.now) (files_in entries.old)) }
    ensures err { OnErr result (files_in entries.new ≡ files_in entries.old) }
{
    let key = Vec::from_slice(alloc, name)?;
    let copy = Vec::from_slice(alloc, content)?;
    entries.insert(key, copy)?;
    Ok(())
}

pub(crate) fn copy(entries: &Entries) -> Result<Entries, AllocError>
    ensures { IfOk result (λ copy. files_in copy ≡ files_in entries.now) }
{
    entries.clone()
}

// Puts what the one has under the name in the place of what the other has there.
pub(crate) fn settle(
    alloc: Global,
    written: &Entries,
    synced: &mut Entries,
    name: &[u8],
) -> Result<(), AllocError>
    ensures { OnOk result (files_in synced.new
        ≡ with_file name.now (files_in written.now name.now) (files_in synced.old)) }
{
    match file(written, name) {
        Some(bytes) => put(alloc, synced, name, bytes),
        None => {
            remove(synced, name);
            Ok(())
        }
    }
}

// Writes over the bytes of the file from `at`, or from their end where that comes first, and past
// their end. It makes the file where there is none.
fn write(
    alloc: Global,
    entries: &mut Entries,
    name: &[u8],
    at: usize,
    bytes: &[u8],
) -> Result<(), AllocError>
    ensures ok { OnOk result (files_in entries.new ≡ with_file name.now
        (Some (written at bytes.now (content (files_in entries.old name.now))))
        (files_in entries.old)) }
    ensures err { OnErr result (files_in entries.new ≡ files_in entries.old) }
{
    match entries.get_mut(name) {
        Some(file) => overwrite(file, at, bytes),
        None => put(alloc, entries, name, bytes),
    }
}

// Cuts the file, if it is there.
fn cut(entries: &mut Entries, name: &[u8], len: usize)
    ensures { files_in entries.new ≡ with_file name.now
        (option_map (λ bytes. take len bytes) (files_in entries.old name.now))
        (files_in entries.old) }
{
    if let Some(file) = entries.get_mut(name) {
        file.truncate(len);
    }
}

fn remove(entries: &mut Entries, name: &[u8])
    ensures { files_in entries.new ≡ with_file name.now None (files_in entries.old) }
{
    entries.remove(name);
}

// Writes over the bytes from `at`, or from their end where that comes first, and past their end.
fn overwrite(file: &mut Vec<u8>, at: usize, bytes: &[u8]) -> Result<(), AllocError>
    ensures ok { OnOk result (file.new.items ≡ written at bytes.now file.old.items) }
    ensures err { OnErr result (file.new.items ≡ file.old.items) }
{
    let at = at.min(file.len());
    let inside = bytes.len().min(file.len() - at);
    let (over, past) = bytes.split_at(inside);
    file.extend_from_slice(past)?;
    file.as_mut_slice()[at..at + inside].copy_from_slice(over);
    Ok(())
}
