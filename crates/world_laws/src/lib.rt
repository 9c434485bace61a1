//! The world of all machines: a master, its foremen, all workers and every message that was ever
//! sent, whatever is dispatched, lost, repeated, late, evicted, crashed or resumed; its laws, and
//! worked worlds.
#![tactic(auto)]

mod events;
mod examples;
mod laws;

pub use events::{Cut, Joiner, WorldEvent};
pub use examples::{
    collection_comes_first, done_goes_through_a_foreman, foreman_is_gone, job_delivered_twice,
    lost_link_runs_again, missing_input_is_put_again, old_done_is_stale,
    old_done_of_a_foreman_is_stale, start_that_was_not_sent, worker_of_a_foreman_is_gone,
};
pub use laws::{
    events_lead_on, every_answer_is_of_its_job, every_peer_runs_its_jobs,
    every_report_fits_a_frame, every_world_is_true,
};
