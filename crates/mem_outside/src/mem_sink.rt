//! A place in memory to print to.
ghost use Rattle.std.specs.Prelude.{◌≡◌, [], OnOk, OnErr};
ghost use Rattle.outside.specs.Causes.{HasCause};
ghost use Rattle.outside.specs.Sent.{Sends};
ghost use Rattle.mem_outside.specs.Calls.{no_calls, with_failure, IsDueCall};
ghost use Rattle.mem_outside.specs.MemSink.{bytes_of, calls_of};

use crate::calls::CallList;
use flow_types::Memory;
use outside::{Fault, Sink};
use std::alloc::Global;

/// The bytes that were printed. The writes are numbered from 0.
#[derive(Drop)]
pub struct MemSink {
    bytes: Vec<u8>,
    calls: CallList,
}

impl MemSink {
    /// A sink without bytes, no write to which is to fail.
    pub fn new(alloc: Global) -> MemSink
        ensures bytes { bytes_of result ≡ [] }
        ensures calls { calls_of result ≡ no_calls }
    {
        MemSink {
            bytes: Vec::new(alloc),
            calls: CallList::new(alloc),
        }
    }

    /// The write of that number is to fail, and takes no byte.
    pub fn fail_at(&mut self, call: u64) -> Result<(), Memory>
        ensures ok { OnOk result (calls_of self.new ≡ with_failure call (calls_of self.old)) }
        ensures err { OnErr result (calls_of self.new ≡ calls_of self.old) }
        ensures bytes { bytes_of self.new ≡ bytes_of self.old }
    {
        self.calls.fail_at(call)
    }

    /// All that was printed.
    pub fn bytes(&self) -> &[u8]
        ensures { result.now ≡ bytes_of self.now }
    {
        self.bytes.as_slice()
    }
}

impl Sink for MemSink {
    ghost tells = { Unit {0} };

    ghost bytes = { bytes_of };

    ghost count = { λ sink. (calls_of sink).faults };

    fn write(&mut self, text: &[u8]) -> Result<(), Fault>
        ensures bytes { Sends result text.now (bytes_of self.old) (bytes_of self.new) }
        ensures err { OnErr result (bytes_of self.new ≡ bytes_of self.old) }
        ensures cause { HasCause (calls_of self.old).faults (calls_of self.new).faults result }
        ensures call { IsDueCall (calls_of self.old) (calls_of self.new) result }
    {
        self.calls.begin()?;
        match self.bytes.extend_from_slice(text) {
            Ok(()) => Ok(()),
            Err(_) => Err(Fault::Memory),
        }
    }

    fn faults(&self) -> u64
        ensures { result ≡ (calls_of self.now).faults }
    {
        self.calls.faults()
    }
}
