//! How the rules and the files of a run stand, as far as a walk goes by it.
ghost use Rattle.std.specs.Prelude.{◌≡◌, ◌<◌, IfOk, length, replicate};
ghost use Rattle.safe_storage.specs.Counters.{told};
ghost use Rattle.safe_storage.specs.declared.stand.Phase.TheVariants as phase;

use flow_types::{FileNo, Memory, Plan};
use std::alloc::Global;

/// What a rule is for a walk: complete, claimed since it was started before, or still to come.
#[derive(Clone, Copy, Debug, PartialEq, Eq)]
pub(crate) enum Phase {
    Open,
    Claimed,
    Complete,
}

/// A note of how each rule stands, and of the bytes of each file that is present.
#[derive(Drop)]
pub(crate) struct Stand {
    pub(crate) phases: Vec<Phase>,
    pub(crate) bytes: Vec<u64>,
}

impl Stand {
    /// Nothing is started, and no file is there.
    pub(crate) fn blank(alloc: Global, plan: &Plan) -> Result<Stand, Memory>
        ensures phases { IfOk result (λ stand.
            stand.phases.items ≡ replicate (length plan.now.rules) phase.Open) }
        ensures bytes { IfOk result (λ stand.
            stand.bytes.items ≡ replicate (length plan.now.files) 0) }
    {
        let mut phases = Vec::new(alloc);
        if phases.resize(plan.rules.len(), Phase::Open).is_err() {
            return Err(Memory);
        }
        let mut bytes = Vec::new(alloc);
        if bytes.resize(plan.files.len(), 0).is_err() {
            return Err(Memory);
        }
        Ok(Stand { phases, bytes })
    }

    /// The bytes of a file.
    pub(crate) fn bytes_at(&self, file: FileNo) -> u64
        requires { file.0 < length self.now.bytes.items }
        ensures { result ≡ (told self.now).bytes file.0 }
    {
        self.bytes[file.0 as usize]
    }
}
