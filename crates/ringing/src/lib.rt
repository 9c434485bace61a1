//! A gate that rings once a report has been put.
#![tactic(auto)]

use flow_types::Job;
use links::Ring;
use worker_pool::Gate;

/// A gate that rings behind each report, so that who waits for links hears it too.
#[derive(Drop)]
pub struct Ringing<'a, G, K: Drop> {
    gate: &'a G,
    ringer: Option<K>,
}

impl<'a, G, K: Drop> Ringing<'a, G, K> {
    /// This gate, and what it rings, if there is something.
    pub fn new(gate: &'a G, ringer: Option<K>) -> Ringing<'a, G, K> {
        Ringing { gate, ringer }
    }
}

impl<'a, G: Gate, K: Ring> Gate for Ringing<'a, G, K> {
    fn pass(&self, job: &Job) {
        self.gate.pass(job);
    }

    fn reported(&self) {
        self.gate.reported();
        if let Some(ringer) = self.ringer.as_ref() {
            ringer.ring();
        }
    }
}
