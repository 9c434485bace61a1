//! Outcomes of a row of trials.
use std::alloc::{AllocError, Global};

/// The text of a row of trials: a line for each whose outcome isn't that of the one before it.
#[derive(Drop)]
pub struct Steps {
    text: String,
    last: String,
}

impl Steps {
    /// No trials.
    pub fn new(alloc: Global) -> Steps {
        Steps {
            text: String::new(alloc),
            last: String::new(alloc),
        }
    }

    /// The trial of that number had this outcome.
    pub fn add(&mut self, alloc: Global, trial: u64, outcome: String) -> Result<(), AllocError> {
        if outcome != self.last {
            let line = format!(in alloc; "from {trial}: {outcome}\n")?;
            self.text.push_str(&line)?;
            self.last = outcome;
        }
        Ok(())
    }

    /// The lines.
    pub fn into_text(self) -> String {
        self.text
    }
}
