//! What stands before each job.
use flow_types::Job;

/// What a job passes before it is run. It may hold the job for a while, as a test does that wants
/// two jobs to run at once.
pub trait Gate: Send + Sync + Drop {
    /// Comes back once the job may be run.
    fn pass(&self, job: &Job);

    /// Its report has been put, and may be heard.
    fn reported(&self) {}
}

/// Each job passes at once.
#[derive(Drop)]
pub struct OpenGate;

impl Gate for OpenGate {
    fn pass(&self, _job: &Job) {}
}
