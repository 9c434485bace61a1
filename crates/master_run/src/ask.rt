//! What a call is asked for.
use command_words::Work;
use flow_types::{Name, Plan};
use wq_run::Workers;

/// What a call is asked for.
#[derive(Drop)]
pub struct Ask {
    /// The plan of the flow.
    pub plan: Plan,
    /// What is to be done with it.
    pub work: Work,
    /// The name of the log.
    pub log: Name,
    /// What a run goes by.
    pub options: run_history::Options,
    /// Where workers come to a run that asks for them.
    pub workers: Workers,
    /// How many jobs of a run may be run at once on this machine.
    pub jobs: u32,
}
