//! Records that stand in a folder's log before a run.
ghost use Rattle.log_records.specs.Spelling.{ListsFew};

use crate::plans::LOG;
use flow_types::{Name, Record};
use log_recover::recover;
use mem_outside::MemSite;
use std::alloc::Global;

/// A record isn't appended: the log is damaged or full, a call of the folder failed, or memory was
/// wanting.
#[derive(Clone, Copy, Debug)]
pub struct Unlogged;

/// Appends a record to the log of the folder, be it one that may stand there or not. A log that is
/// absent is begun.
pub fn append(alloc: Global, site: &mut MemSite, entry: &Record) -> Result<(), Unlogged>
    requires { ListsFew entry.now }
{
    let Ok(name) = Name::of(alloc, LOG) else {
        return Err(Unlogged);
    };
    let Ok((mut log, _)) = recover(alloc, site, name) else {
        return Err(Unlogged);
    };
    match log.append(site, entry) {
        Ok(()) => Ok(()),
        Err(_) => Err(Unlogged),
    }
}
