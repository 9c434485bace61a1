//! Standard output.
ghost use Rattle.std.specs.Prelude.{[]};

use outside::{Fault, Sink};
use real_files::counted;
use std::io;
use std::io::Write;

/// Writes all that it is given to standard output at once.
#[derive(Drop)]
pub struct StdoutSink<'a, R> {
    rt: &'a R,
    faults: u64,
}

impl<'a, R: Print> StdoutSink<'a, R> {
    /// The standard output of this program.
    pub fn new(rt: &'a R) -> Self {
        StdoutSink { rt, faults: 0 }
    }
}

fn print_all<R: Print>(rt: &R, text: &[u8]) -> io::Result<()> {
    let mut out = io::writer(rt);
    out.write_all(text)?;
    out.flush()
}

impl<'a, R: Print + Sync> Sink for StdoutSink<'a, R> {
    ghost tells = { ⊥ };

    ghost bytes = { λ s. [] };

    ghost count = { λ s. s.faults };

    fn write(&mut self, text: &[u8]) -> Result<(), Fault> {
        let answer = print_all(self.rt, text);
        counted(&mut self.faults, answer)
    }

    fn faults(&self) -> u64 {
        self.faults
    }
}
