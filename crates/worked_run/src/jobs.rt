//! Jobs of the commands, each over one input of three bytes, with an output of at most six.
use flow_types::{Bytes, Failure, Given, Job, Name, Outcome, Rows, Text, Want};
use mem_commands::JoinedRunner;
use outside::Runner;
use std::alloc::{AllocError, Global};

/// The job of this command.
pub fn job(alloc: Global, command: &str) -> Result<Job, AllocError> {
    let (Ok(command), Ok(content), Ok(from), Ok(to)) = (
        Text::of(alloc, command),
        Bytes::of(alloc, b"abc"),
        Name::of(alloc, b"a"),
        Name::of(alloc, b"b"),
    ) else {
        return Err(AllocError);
    };
    let input = Given {
        remote: from,
        content,
    };
    let output = Want {
        remote: to,
        bound: 6,
    };
    Ok(Job {
        command,
        env: Rows::new(alloc),
        inputs: Rows::of(vec![in alloc; input]?),
        outputs: Rows::of(vec![in alloc; output]?),
    })
}

/// How the job ends.
pub fn answer(alloc: Global, job: &Job) -> &'static str {
    match JoinedRunner::new().run(alloc, job) {
        Ok(Outcome::Success(contents)) => shown(contents.as_slice()),
        Ok(Outcome::Failed(Failure::Status(1))) => "status 1",
        Ok(Outcome::Failed(Failure::TooLong { index: 0, size: 7 })) => "7 bytes are too long",
        _ => "something else",
    }
}

// What the one output has.
fn shown(contents: &[Bytes]) -> &'static str {
    match contents {
        [content] if content.as_slice() == b"abcde".as_slice() => "abcde",
        _ => "other bytes",
    }
}
