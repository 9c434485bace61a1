//! What is so of the records of every world, looked at record by record.
use flow_types::Record;
use std::alloc::{AllocError, Global};

/// The attempts that run, and how many were started.
#[derive(Drop)]
struct Book {
    running: Vec<u64>,
    started: u64,
}

impl Book {
    // Attempts are started in the order of their numbers.
    fn starts(&mut self, attempt: u64) -> Result<bool, AllocError> {
        let next = self.started == attempt;
        self.started = attempt.saturating_add(1);
        self.running.push(attempt)?;
        Ok(next)
    }

    // Only an attempt that runs ends.
    fn ends(&mut self, attempt: u64) -> bool {
        let before = self.running.len();
        self.running.retain(|other| *other != attempt);
        self.running.len() < before
    }

    fn takes(&mut self, record: &Record) -> Result<bool, AllocError> {
        match record {
            Record::Opened { .. } => Ok(self.started == 0),
            Record::Resumed { .. } => {
                self.running.clear();
                Ok(true)
            }
            Record::Started { attempt, .. } => self.starts(attempt.0),
            Record::Done { attempt, .. } => Ok(self.ends(attempt.0)),
            Record::Failed { attempt, .. } => Ok(self.ends(attempt.0)),
            Record::Lost { attempt, .. } => Ok(self.ends(attempt.0)),
            Record::Dropped { .. } => Ok(true),
            Record::Ended { .. } => Ok(self.running.is_empty()),
        }
    }
}

/// The place of the first record that may not stand where it does.
pub fn first_bad(alloc: Global, records: &[Record]) -> Result<Option<usize>, AllocError> {
    let mut book = Book {
        running: Vec::new(alloc),
        started: 0,
    };
    for (at, record) in records.iter().enumerate() {
        if !book.takes(record)? {
            return Ok(Some(at));
        }
    }
    Ok(None)
}
