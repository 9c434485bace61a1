//! What was seen in some world.
use flow_types::{Message, Record};
use net_world::{Party, Sent, World};
use std::alloc::{AllocError, Global};

/// What may be seen, in the order in which it is told.
const KINDS: [&str; 16] = [
    "local done",
    "worker's done",
    "failed",
    "lost",
    "dropped",
    "resumed",
    "ended",
    "put",
    "task",
    "missing",
    "unlink",
    "repeated task",
    "totals",
    "task handed on",
    "done told to a foreman",
    "done through a foreman",
];

/// The peers that stated totals, and the attempts whose ends they told.
#[derive(Drop)]
struct Foremen {
    peers: Vec<u32>,
    attempts: Vec<u64>,
}

impl Foremen {
    fn new(alloc: Global) -> Foremen {
        Foremen {
            peers: Vec::new(alloc),
            attempts: Vec::new(alloc),
        }
    }

    fn look_at(&mut self, sent: &Sent) -> Result<(), AllocError> {
        let Party::Peer(peer) = sent.from else {
            return Ok(());
        };
        match sent.message {
            Message::Totals { .. } => self.peers.push(peer)?,
            Message::Done { attempt, .. } => {
                if sent.to == Party::Master && self.peers.iter().any(|other| *other == peer) {
                    self.attempts.push(attempt.0)?;
                }
            }
            _ => {}
        }
        Ok(())
    }

    // The record is the Done of such an attempt.
    fn has_told(&self, record: &Record) -> bool {
        match record {
            Record::Done { attempt, .. } => self.attempts.iter().any(|told| *told == attempt.0),
            _ => false,
        }
    }
}

/// The kinds that were seen.
#[derive(Drop)]
pub struct Seen {
    kinds: Vec<&'static str>,
}

impl Seen {
    /// Nothing was seen.
    pub fn new(alloc: Global) -> Seen {
        Seen {
            kinds: Vec::new(alloc),
        }
    }

    fn add(&mut self, kind: &'static str) -> Result<(), AllocError> {
        if !self.kinds.iter().any(|seen| *seen == kind) {
            self.kinds.push(kind)?;
        }
        Ok(())
    }

    /// Looks at a world.
    pub fn look_at(&mut self, alloc: Global, world: &World) -> Result<(), AllocError> {
        let mut links = Vec::new(alloc);
        for record in world.records.as_slice() {
            self.look_at_record(&mut links, record)?;
        }
        let mut tasks = Vec::new(alloc);
        let mut book = Foremen::new(alloc);
        for sent in world.sent.as_slice() {
            self.look_at_message(&mut tasks, &sent.message)?;
            self.look_at_ends(sent)?;
            book.look_at(sent)?;
        }
        for record in world.records.as_slice() {
            if book.has_told(record) {
                self.add("done through a foreman")?;
            }
        }
        Ok(())
    }

    // What is handed on by a foreman, or told to one.
    fn look_at_ends(&mut self, sent: &Sent) -> Result<(), AllocError> {
        let (Party::Peer(_), Party::Peer(_)) = (sent.from, sent.to) else {
            return Ok(());
        };
        match sent.message {
            Message::Task(_) => self.add("task handed on"),
            Message::Done { .. } => self.add("done told to a foreman"),
            _ => Ok(()),
        }
    }

    fn look_at_record(&mut self, links: &mut Vec<u32>, record: &Record) -> Result<(), AllocError> {
        match record {
            Record::Started { link, .. } => {
                links.push(link.0)?;
                Ok(())
            }
            Record::Done { attempt, .. } => match links.get(attempt.0 as usize) {
                Some(0) => self.add("local done"),
                _ => self.add("worker's done"),
            },
            Record::Failed { .. } => self.add("failed"),
            Record::Lost { .. } => self.add("lost"),
            Record::Dropped { .. } => self.add("dropped"),
            Record::Resumed { .. } => self.add("resumed"),
            Record::Ended { .. } => self.add("ended"),
            Record::Opened { .. } => Ok(()),
        }
    }

    fn look_at_message(
        &mut self,
        tasks: &mut Vec<u64>,
        message: &Message,
    ) -> Result<(), AllocError> {
        match message {
            Message::Put { .. } => self.add("put"),
            Message::Unlink { .. } => self.add("unlink"),
            Message::Missing { .. } => self.add("missing"),
            Message::Totals { .. } => self.add("totals"),
            Message::Task(task) => {
                let attempt = task.attempt.0;
                if tasks.iter().any(|other| *other == attempt) {
                    self.add("repeated task")?;
                }
                tasks.push(attempt)?;
                self.add("task")
            }
            _ => Ok(()),
        }
    }

    /// The kinds, on a line.
    pub fn line(&self, alloc: Global) -> Result<String, AllocError> {
        let mut text = String::from_str(alloc, "seen:")?;
        for kind in KINDS {
            if self.kinds.iter().any(|seen| *seen == kind) {
                text.push_str(" ")?;
                text.push_str(kind)?;
                text.push_str(",")?;
            }
        }
        text.push_str("\n")?;
        Ok(text)
    }
}
