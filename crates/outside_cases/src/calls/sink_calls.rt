//! `sink ..`: `fails CALL`, `write TEXT`, `bytes` and `faults`.
use crate::calls::words::{bytes_of, done, first, noted, number, said};
use cases::shown;
use mem_outside::MemSink;
use outside::Sink;
use std::alloc::{AllocError, Global};

/// Makes a call of the sink, and says its answer.
pub fn of_sink(alloc: Global, sink: &mut MemSink, line: &str) -> Result<String, AllocError> {
    let (call, rest) = first(line);
    match call {
        "fails" => match number(rest) {
            Some(call) => noted(alloc, sink.fail_at(call)),
            None => said(alloc, "no number"),
        },
        "write" => done(alloc, sink.write(bytes_of(rest))),
        "bytes" => {
            let bytes = shown(alloc, sink.bytes())?;
            format!(in alloc; "[{bytes}]")
        }
        "faults" => {
            let faults = sink.faults();
            format!(in alloc; "{faults}")
        }
        _ => said(alloc, "no call"),
    }
}
