//! What passed over a link in memory.
ghost use Rattle.std.specs.Prelude.{◌≡◌, [], ◌∷◌, OnOk, OnErr};
ghost use Rattle.links.specs.Passings.{sent_in};
ghost use Rattle.links.specs.declared.passing.Passed.TheVariants as passed;

use flow_types::{Bytes, Memory};
use links::Passed;
use std::alloc::Global;
use std::collections::VecDeque;
use std::marker::Model;

// What passed, the newest first, and what was sent, in one piece. Contracts see what passed.
#[derive(Drop)]
pub(crate) struct Traffic {
    alloc: Global,
    passed: VecDeque<Passed>,
    sent: Vec<u8>,
}

impl Model for Traffic {
    ghost use Rattle.std.specs.Prelude.{◌≡◌, List};
    ghost use Rattle.links.specs.Passings.{sent_in};
    ghost use Rattle.links.specs.declared.passing.Passed.{Passed};

    ghost Value = { List Passed };

    ghost view = { λ t. t.passed.items };

    ghost invariant = { λ t. t.sent.items ≡ sent_in t.passed.items };
}

impl Traffic {
    pub(crate) fn new(alloc: Global) -> Traffic
        ensures { result ≡ [] }
    {
        Traffic {
            alloc,
            passed: VecDeque::new(alloc),
            sent: Vec::new(alloc),
        }
    }

    // Notes bytes that are sent, or nothing where there is no memory.
    pub(crate) fn send(&mut self, bytes: &[u8]) -> Result<(), Memory>
        ensures ok { OnOk result (self.new ≡ passed.Sent bytes.now ∷ self.old) }
        ensures err { OnErr result (self.new ≡ self.old) }
    {
        let copy = Bytes::of(self.alloc, bytes)?;
        if self.passed.reserve(1).is_err() {
            return Err(Memory);
        }
        if self.sent.extend_from_slice(bytes).is_err() {
            return Err(Memory);
        }
        self.passed.push_front_reserved(Passed::Sent(copy));
        Ok(())
    }

    // Notes bytes that are received, or nothing where there is no memory.
    pub(crate) fn receive(&mut self, bytes: &[u8]) -> Result<(), Memory>
        ensures ok { OnOk result (self.new ≡ passed.Received bytes.now ∷ self.old) }
        ensures err { OnErr result (self.new ≡ self.old) }
    {
        let copy = Bytes::of(self.alloc, bytes)?;
        if self.passed.push_front(Passed::Received(copy)).is_err() {
            return Err(Memory);
        }
        Ok(())
    }

    // All that was sent.
    pub(crate) fn sent(&self) -> &[u8]
        ensures { result.now ≡ sent_in self.now }
    {
        self.sent.as_slice()
    }
}
