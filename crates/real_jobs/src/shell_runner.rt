//! Jobs by the system's shell.
ghost use Rattle.std.specs.Prelude.{IfOk};
ghost use Rattle.outside.specs.Jobs.{IsShaped};

use crate::below::Below;
use crate::job_folder::{clear_folders, fill_folder, new_folder, remove_folder, remove_job};
use crate::outputs::take_outputs;
use crate::script::{is_long, needs_script, read_script, write_script};
use crate::workplace::Workplace;
use flow_types::{Failure, Job, Outcome};
use outside::{Commands, Fault, Runner};
use real_files::{counted_or_memory, failure_counted, folder_of};
use real_programs::{Owner, SHELL, number_of, program, run_printing, run_program};
use std::alloc::Global;
use std::fs::File;
use std::io::ErrorKind;
use std::os::unix::process::ExitStatusExt;
use std::process::{ExitStatus, Processes, SystemProcess};
use std::rt::{Env, Files};
use std::sync::Wait;
use std::{io, str};

// A shell that prints how another one ended, for a program that isn't told.
const RELAY: &str = "\"$0\" -c -- \"$1\" > /dev/null; echo \"$?\"";

// What a shell adds to the number of a signal that ended a command.
const SIGNALLED: i32 = 128;

/// Runs each job by `sh -c` in a folder of its own under the temporary folder, which no other runner
/// takes. The folder goes when
/// the job ends, whatever happened; one that can't be removed is a fault. It is locked until then,
/// and before the first job the folders go that programs of this host and user left unlocked.
#[derive(Drop)]
pub struct ShellRunner<'a, R> {
    rt: &'a R,
    owner: &'a Owner,
    // From its first job on.
    place: Option<Workplace>,
    faults: u64,
    failures: u64,
}

impl<'a, R> ShellRunner<'a, R> {
    /// `owner` is this program, by which its folders differ from those of others.
    pub fn new(rt: &'a R, owner: &'a Owner) -> Self {
        ShellRunner {
            rt,
            owner,
            place: None,
            faults: 0,
            failures: 0,
        }
    }
}

fn status_of(status: ExitStatus) -> i32 {
    match (status.code(), status.signal()) {
        (Some(code), _) => code,
        (None, Some(signal)) => signal.saturating_add(SIGNALLED),
        (None, None) => SIGNALLED,
    }
}

// The status of a shell that is told this, in the folder and with the job's variables.
fn run_told<R: Processes + Wait>(
    rt: &R,
    alloc: Global,
    owner: &Owner,
    place: &Workplace,
    folder: &str,
    job: &Job,
    told: &str,
) -> io::Result<i32> {
    let mut shell = if owner.is_told() {
        program(alloc, SHELL, &["-c", "--", told])?
    } else {
        program(alloc, SHELL, &["-c", RELAY, SHELL, told])?
    };
    for pair in job.env.as_slice() {
        if !is_long(pair) {
            shell.env(pair.name.as_str(), pair.value.as_str())?;
        }
    }
    // The shell would set it so itself. By it a command is known as this program's.
    shell.env("PWD", folder)?;
    shell.current_dir(folder)?;
    if owner.is_told() {
        let status = run_program(rt, owner, &shell, place.streams())?;
        Ok(status_of(status))
    } else {
        status_said(run_printing(rt, alloc, owner, &shell)?.as_slice())
    }
}

// The status that the outer shell printed.
fn status_said(said: &[u8]) -> io::Result<i32> {
    if let Ok(text) = str::from_utf8(said)
        && let Some(number) = number_of(text.trim())
        && let Ok(status) = i32::try_from(number)
    {
        return Ok(status);
    }
    Err(io::Error::from(ErrorKind::InvalidData))
}

// The status of a shell that reads the command from a file in a folder beside the job's.
fn run_read<R: Files + Processes + Wait>(
    rt: &R,
    alloc: Global,
    owner: &Owner,
    place: &Workplace,
    beside: &str,
    folder: &str,
    job: &Job,
) -> io::Result<i32> {
    write_script(rt, alloc, beside, job)?;
    let (_, name) = folder_of(beside);
    let told = read_script(alloc, name)?;
    run_told(rt, alloc, owner, place, folder, job, told.as_str())
}

// The command's status.
fn run_shell<R: Files<File = File> + Processes<Started = SystemProcess> + AllocGlobal + Wait>(
    rt: &R,
    owner: &Owner,
    place: &Workplace,
    folder: &str,
    job: &Job,
) -> io::Result<i32> {
    owner.be_watched(rt);
    if !needs_script(job) {
        let command = job.command.as_str();
        return run_told(rt, rt.alloc(), owner, place, folder, job, command);
    }
    let beside = new_folder(rt, owner, place)?;
    let status = run_read(rt, rt.alloc(), owner, place, beside.path(), folder, job);
    remove_folder(rt, owner, beside.path())?;
    status
}

fn run_in<R: Files<File = File> + Processes<Started = SystemProcess> + AllocGlobal + Wait>(
    rt: &R,
    alloc: Global,
    owner: &Owner,
    place: &mut Workplace,
    folder: &str,
    below: &Below,
    job: &Job,
) -> io::Result<Outcome>
    ensures { IfOk result (IsShaped job.now) }
{
    fill_folder(rt, alloc, owner, place, folder, below, job)?;
    let status = run_shell(rt, owner, place, folder, job)?;
    if status != 0 {
        return Ok(Outcome::Failed(Failure::Status(status)));
    }
    take_outputs(rt, alloc, folder, job)
}

fn run_job<R: Files<File = File> + Processes<Started = SystemProcess> + AllocGlobal + Wait>(
    rt: &R,
    alloc: Global,
    owner: &Owner,
    place: &mut Workplace,
    job: &Job,
) -> io::Result<Outcome>
    ensures { IfOk result (IsShaped job.now) }
{
    let below = Below::of(alloc, job)?;
    let folder = new_folder(rt, owner, place)?;
    let outcome = run_in(rt, alloc, owner, place, folder.path(), &below, job);
    remove_job(rt, owner, folder.path(), &below, job)?;
    outcome
}

// As `run_job`. Before the first job there is no place yet.
fn run_at<R: Files<File = File> + Env + Processes<Started = SystemProcess> + AllocGlobal + Wait>(
    rt: &R,
    alloc: Global,
    owner: &Owner,
    place: &mut Option<Workplace>,
    job: &Job,
) -> io::Result<Outcome>
    ensures { IfOk result (IsShaped job.now) }
{
    if let Some(place) = place {
        return run_job(rt, alloc, owner, place, job);
    }
    clear_folders(rt, owner);
    let mut first = Workplace::of(rt)?;
    let outcome = run_job(rt, alloc, owner, &mut first, job);
    *place = Some(first);
    outcome
}

impl<
    'a,
    F: Commands,
    R: Files<File = File> + Env + Processes<Started = SystemProcess> + AllocGlobal + Wait + Sync,
> Runner<F> for ShellRunner<'a, R> {
    ghost tells = { λ s job. ⊥ };

    ghost sure = { λ s. ⊥ };

    ghost count = { λ s. s.faults };

    ghost failures = { λ s. s.failures };

    fn run(&mut self, alloc: Global, job: &Job) -> Result<Outcome, Fault> {
        let answer = run_at(self.rt, alloc, self.owner, &mut self.place, job);
        let outcome = counted_or_memory(&mut self.faults, answer)?;
        failure_counted(&mut self.failures, outcome)
    }

    fn faults(&self) -> u64 {
        self.faults
    }
}
