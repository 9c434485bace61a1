//! What programs that share folders see of each other, and jobs that are too long for the system.
use flow_types::{Job, Name, Outcome, Pair, Rows, Text, Want};
use outside::{Fault, Runner, Site};
use real_outside::{FolderSite, Owner, ShellRunner, System};
use std::alloc::{AllocError, Global};
use std::test::Fail;
use std::{fs, process};

// A log, an output, and what two dead programs left, one of them of another host.
fn put_files(rt: &HostRuntime, owner: &Owner) -> Result<[Name; 4], Fail> {
    let alloc = rt.alloc();
    let host = owner.host();
    let dead = format!(in alloc; ".a.{host}.4294967295.makeflow-part")?;
    let elsewhere = format!(in alloc; ".a.not-{host}.4294967295.makeflow-part")?;
    fs::write(rt, "log", "log")?;
    fs::write(rt, "out", "old bytes")?;
    fs::write(rt, dead.as_str(), "left")?;
    fs::write(rt, elsewhere.as_str(), "left")?;
    let log = Name::of(alloc, b"log")?;
    let out = Name::of(alloc, b"out")?;
    let dead = Name::of(alloc, dead.as_str().as_bytes())?;
    let elsewhere = Name::of(alloc, elsewhere.as_str().as_bytes())?;
    Ok([log, out, dead, elsewhere])
}

// Writes the output, and answers its length.
fn change(site: &mut FolderSite<HostRuntime>, names: &[Name; 4]) -> Result<Option<u64>, Fault> {
    site.sync(&names[0])?;
    site.write(&names[1], 0, b"new")?;
    site.cut(&names[1], 3)?;
    site.size(&names[1])
}

// The lengths of all files, as a program sees them that shares the log.
fn seen(site: &mut FolderSite<HostRuntime>, names: &[Name; 4]) -> Result<[Option<u64>; 4], Fault> {
    site.sync(&names[0])?;
    let log = site.size(&names[0])?;
    let out = site.size(&names[1])?;
    let dead = site.size(&names[2])?;
    let elsewhere = site.size(&names[3])?;
    Ok([log, out, dead, elsewhere])
}

// Goes on with the log, and removes all files.
fn take_over(site: &mut FolderSite<HostRuntime>, names: &[Name; 4]) -> Result<(), Fault> {
    site.sync(&names[0])?;
    site.write(&names[0], 3, b"more")?;
    for name in names {
        site.remove(name)?;
    }
    Ok(())
}

#[test]
fn a_file_changes_at_its_sync_and_for_one_program_alone(rt: HostRuntime) -> Result<(), Fail> {
    let owner = Owner::of(&rt, process::id(rt.process()))?;
    let names = put_files(&rt, &owner)?;
    let mut first = FolderSite::new(&rt, &owner);
    let mut second = FolderSite::new(&rt, &owner);
    assert_eq!(rt; change(&mut first, &names), Ok(Some(3)));
    assert_eq!(rt;
        seen(&mut second, &names),
        Ok([Some(3), Some(9), None, Some(4)])
    );
    assert_eq!(rt; second.write(&names[0], 3, b"more"), Err(Fault::Failed));
    assert_eq!(rt; second.faults(), 1);
    assert_eq!(rt; first.sync(&names[1]), Ok(()));
    assert_eq!(rt;
        seen(&mut second, &names),
        Ok([Some(3), Some(3), None, Some(4)])
    );
    drop(first);
    let mut third = FolderSite::new(&rt, &owner);
    assert_eq!(rt; take_over(&mut third, &names), Ok(()));
    Ok(())
}

// A word that no system takes, with quotes in it.
fn long_text(alloc: Global) -> Result<String, AllocError> {
    let mut text = String::from_str(alloc, "it's 'so' \\' long: ")?;
    for _ in 0..150_000 {
        text.push('x')?;
    }
    Ok(text)
}

fn long_job(alloc: Global) -> Result<Job, Fail> {
    let long = long_text(alloc)?;
    let words = format!(in alloc; "printf %s \"$0$#$A\" > out # {long}")?;
    let variable = Pair {
        name: Text::of(alloc, "A")?,
        value: Text::from_string(long),
    };
    let want = Want {
        remote: Name::of(alloc, b"out")?,
        bound: 1_000_000,
    };
    Ok(Job {
        command: Text::from_string(words),
        env: Rows::of(vec![in alloc; variable]?),
        inputs: Rows::new(alloc),
        outputs: Rows::of(vec![in alloc; want]?),
    })
}

#[test]
fn a_long_command_sees_a_long_variable(rt: HostRuntime) -> Result<(), Fail> {
    let alloc = rt.alloc();
    let owner = Owner::of(&rt, process::id(rt.process()))?;
    let job = long_job(alloc)?;
    let mut runner = ShellRunner::new(&rt, &owner);
    let outcome = Runner::<System>::run(&mut runner, alloc, &job)?;
    let Outcome::Success(made) = outcome else {
        return Err(Fail::new("it failed"));
    };
    let long = long_text(alloc)?;
    let wanted = format!(in alloc; "/bin/sh0{long}")?;
    match made.get(0) {
        Some(content) => assert!(rt; content.as_slice() == wanted.as_bytes()),
        None => return Err(Fail::new("nothing was made")),
    }
    Ok(())
}
