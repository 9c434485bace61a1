//! The job's entry, and its bytes changed: `turn PLACE` turns a bit of the byte there, `cut LENGTH`
//! leaves so many bytes, `grow` adds a byte, `drop` leaves none. `store fails CALL` says that a
//! call of the store is to fail; they are numbered from 0 since the entry was changed last.
use crate::archive::words::{name_of, noted, number};
use flow_types::{Job, Name};
use mem_outside::MemSite;
use result_archive::job_key;
use std::alloc::{AllocError, Global};

/// The folder of the archive's entries.
pub const FOLDER: &str = "kept";

/// The job's key in hexadecimal digits.
pub fn key_of(alloc: Global, job: &Job) -> Result<String, AllocError> {
    match job_key(alloc, job) {
        Ok(key) => hex::encode(alloc, key.0),
        Err(_) => Err(AllocError),
    }
}

/// The name of the job's entry.
pub fn entry_of(alloc: Global, job: &Job) -> Result<Name, AllocError> {
    let key = key_of(alloc, job)?;
    let mut path = String::from_str(alloc, FOLDER)?;
    path.push_str("/")?;
    path.push_str(&key)?;
    name_of(alloc, &path)
}

/// What stands under the name, no bytes where there is no file.
pub fn bytes_in(alloc: Global, site: &MemSite, name: &Name) -> Result<Vec<u8>, AllocError> {
    match site.get(name.as_bytes()) {
        Some(bytes) => Vec::from_slice(alloc, bytes),
        None => Ok(Vec::new(alloc)),
    }
}

/// A site with these bytes under the name alone.
pub fn site_with(alloc: Global, name: &Name, bytes: &[u8]) -> Result<MemSite, AllocError> {
    let mut site = MemSite::new(alloc);
    noted(site.put(name, bytes))?;
    Ok(site)
}

/// Turns a bit of the byte at this place, each place another one.
pub fn turn(bytes: &mut [u8], place: usize) {
    if let Some(byte) = bytes.get_mut(place) {
        *byte ^= 1u8 << (place % 8) as u32;
    }
}

// Changes the bytes as a line of this kind tells. Tells whether there is such a kind.
fn change(bytes: &mut Vec<u8>, kind: &str, word: &str) -> Result<bool, AllocError> {
    match kind {
        "turn" => turn(bytes, number(word) as usize),
        "cut" => bytes.truncate(number(word) as usize),
        "grow" => bytes.push(0)?,
        _ => return Ok(false),
    }
    Ok(true)
}

/// Makes the line's change of the job's entry. Tells whether there is such a kind.
pub fn change_entry(
    alloc: Global,
    store: &mut MemSite,
    job: &Job,
    kind: &str,
    word: &str,
) -> Result<bool, AllocError> {
    if kind == "drop" {
        *store = MemSite::new(alloc);
        return Ok(true);
    }
    let name = entry_of(alloc, job)?;
    let mut bytes = bytes_in(alloc, store, &name)?;
    if !change(&mut bytes, kind, word)? {
        return Ok(false);
    }
    *store = site_with(alloc, &name, &bytes)?;
    Ok(true)
}
