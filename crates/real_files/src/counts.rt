//! How the objects count what the system refused.
ghost use Rattle.std.specs.Prelude.{◌≡◌, ◌<◌, ◌-◌, ◌^◌, Ok, IfOk, IfErr};
ghost use Rattle.outside.specs.Causes.{HasCause, IsAmple};
ghost use Rattle.outside.specs.Jobs.{CountsFailure};

use flow_types::Outcome;
use outside::{Fault, failed};
use std::io;
use std::io::ErrorKind;

/// What the system answered, each refusal counted.
pub fn counted<T>(count: &mut u64, answer: io::Result<T>) -> Result<T, Fault>
    ensures cause { HasCause count.old count.new result }
    ensures ample { IsAmple (count.old < 2 ^ 64 - 1) (count.new < 2 ^ 64 - 1) count.new result }
    ensures value { IfOk result (λ value. answer ≡ Ok value) }
{
    match answer {
        Ok(value) => Ok(value),
        Err(_) => Err(failed(count)),
    }
}

/// As [`counted`], where want of memory is no refusal.
pub fn counted_or_memory<T>(count: &mut u64, answer: io::Result<T>) -> Result<T, Fault>
    ensures cause { HasCause count.old count.new result }
    ensures value { IfOk result (λ value. answer ≡ Ok value) }
{
    match answer {
        Err(e) if e.kind() == ErrorKind::OutOfMemory => Err(Fault::Memory),
        answer => counted(count, answer),
    }
}

/// What a command came to, a failed one counted: want of memory where the count stands at its last
/// value.
pub fn failure_counted(failures: &mut u64, outcome: Outcome) -> Result<Outcome, Fault>
    ensures failures { CountsFailure failures.old failures.new result }
    ensures value { IfOk result (λ told. told ≡ outcome) }
    ensures memory { IfErr result (λ fault. fault ≡ Fault.Memory) }
{
    if let Outcome::Failed(_) = outcome {
        if *failures == u64::MAX {
            return Err(Fault::Memory);
        }
        *failures += 1;
    }
    Ok(outcome)
}
