//! What was synced in the folder outlives a program that is killed, and can be removed: calls that
//! no run makes yet.
use flow_types::Name;
use outside::{Fault, Site};
use real_outside::{FolderSite, Owner};
use std::alloc::Global;
use std::fs::File;
use std::io::ErrorKind;
use std::os::unix::process::ExitStatusExt;
use std::process::{Command, ExitStatus, Processes};
use std::rt::{Env, Files};
use std::test::Fail;
use std::{env, fs, io, process};

// The test is run a second time, as a program of its own, with this variable.
const TO_BE_KILLED: &str = "MAKEFLOW_TO_BE_KILLED";

const SIGKILL: i32 = 9;

// The test that runs, once more, in this folder.
fn run_again<R: Env + Processes + AllocGlobal>(rt: &R) -> io::Result<ExitStatus> {
    let mut words = env::args(rt)?;
    let Some(program) = words.next() else {
        return Err(io::Error::from(ErrorKind::NotFound));
    };
    let mut again = Command::new(rt.alloc(), program)?;
    for word in words {
        again.arg(word)?;
    }
    again.env(TO_BE_KILLED, "1")?;
    again.status(rt)
}

// Kills this program.
fn kill_self<R: Processes>(rt: &R, alloc: Global) -> io::Result<ExitStatus> {
    let mut kill = Command::new(alloc, "/bin/sh")?;
    kill.arg("-c")?;
    kill.arg("kill -9 $PPID")?;
    kill.status(rt)
}

// Makes a file in new folders, syncs it, writes over it, and is killed.
fn write_and_be_killed<R: Files<File = File> + AllocGlobal + Processes + Sync>(
    rt: &R,
    alloc: Global,
    owner: &Owner,
    name: &Name,
) -> Result<(), Fail> {
    let mut site = FolderSite::new(rt, owner);
    site.write(name, 0, b"kept")?;
    site.sync(name)?;
    site.write(name, 4, b" and more")?;
    kill_self(rt, alloc)?;
    Err(Fail::new("it wasn't killed"))
}

#[test]
fn what_was_synced_outlives_a_kill_until_it_is_removed(rt: HostRuntime) -> Result<(), Fail> {
    let alloc = rt.alloc();
    let owner = Owner::of(&rt, process::id(rt.process()))?;
    let name = Name::of(alloc, b"new/folders/file")?;
    if env::var(&rt, TO_BE_KILLED).is_ok() {
        return write_and_be_killed(&rt, alloc, &owner, &name);
    }
    assert_eq!(rt; run_again(&rt)?.signal(), Some(SIGKILL));
    let mut site = FolderSite::new(&rt, &owner);
    let mut bytes = [0u8; 4];
    assert_eq!(rt; site.read(&name, 0, &mut bytes), Ok(4));
    assert_eq!(rt; bytes.as_slice(), b"kept".as_slice());
    let folder = Name::of(alloc, b"new/folders")?;
    assert_eq!(rt; site.remove(&folder), Err(Fault::Failed));
    assert_eq!(rt; site.remove(&name), Ok(()));
    assert_eq!(rt; site.remove(&name), Ok(()));
    assert_eq!(rt; site.sync(&name), Ok(()));
    assert_eq!(rt; site.size(&name), Ok(None));
    assert_eq!(rt; site.faults(), 1);
    fs::remove_dir_all(&rt, "new")?;
    Ok(())
}
