//! `pack LINK TOTAL CACHE NEEDS BYTES`: whether a task with these needs and bytes of inputs fits a
//! link with nothing on it, `local` or `remote`. TOTAL is `CORES/MEMORY/DISK`, and NEEDS is that or
//! `whole`.
use crate::calls::words::{first, said};
use flow_types::{Amounts, LinkNo, Needs};
use resource_pack::Pack;
use std::alloc::{AllocError, Global};

fn amounts(word: &str) -> Option<Amounts> {
    let (cores, rest) = word.split_once('/')?;
    let (memory, disk) = rest.split_once('/')?;
    Some(Amounts {
        cores: cores.parse::<u32>().ok()?,
        memory: memory.parse::<u32>().ok()?,
        disk: disk.parse::<u32>().ok()?,
    })
}

fn needs(word: &str) -> Option<Needs> {
    if word == "whole" {
        return Some(Needs::Whole);
    }
    Some(Needs::Stated(amounts(word)?))
}

fn fits_local(
    alloc: Global,
    total: Amounts,
    cache: u64,
    needs: Needs,
    bytes: u64,
) -> Result<bool, AllocError> {
    let mut pack = Pack::new(alloc);
    match pack.add(LinkNo(0), total, total, cache) {
        Ok(()) => Ok(pack.fits(LinkNo(0), needs, bytes)),
        Err(_) => Err(AllocError),
    }
}

fn fits_remote(
    alloc: Global,
    total: Amounts,
    cache: u64,
    needs: Needs,
    bytes: u64,
) -> Result<bool, AllocError> {
    let mut pack = Pack::new(alloc);
    match pack.add(LinkNo(1), total, total, cache) {
        Ok(()) => Ok(pack.fits(LinkNo(1), needs, bytes)),
        Err(_) => Err(AllocError),
    }
}

/// Whether a task fits a link.
pub fn of_pack(alloc: Global, line: &str) -> Result<String, AllocError> {
    let (link, rest) = first(line);
    let (total, rest) = first(rest);
    let (cache, rest) = first(rest);
    let (task, bytes) = first(rest);
    let (Some(total), Some(needs)) = (amounts(total), needs(task)) else {
        return said(alloc, "no amounts");
    };
    let (Ok(cache), Ok(bytes)) = (cache.parse::<u64>(), bytes.parse::<u64>()) else {
        return said(alloc, "no number");
    };
    let fits = if link == "local" {
        fits_local(alloc, total, cache, needs, bytes)?
    } else {
        fits_remote(alloc, total, cache, needs, bytes)?
    };
    said(alloc, if fits { "fits" } else { "doesn't fit" })
}
