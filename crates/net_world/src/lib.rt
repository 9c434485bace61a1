//! Worlds that are played: the machines of a master, its foremen and all workers, as they run over
//! a list of events.
#![tactic(auto)]

mod play;
mod world;

pub use world::{Holding, World, run_world};
pub use world_contents::fit_sources;
pub use world_laws::{
    Cut, Joiner, WorldEvent, collection_comes_first, done_goes_through_a_foreman, events_lead_on,
    every_answer_is_of_its_job, every_peer_runs_its_jobs, every_report_fits_a_frame,
    every_world_is_true, foreman_is_gone, job_delivered_twice, lost_link_runs_again,
    missing_input_is_put_again, old_done_is_stale, old_done_of_a_foreman_is_stale,
    start_that_was_not_sent, worker_of_a_foreman_is_gone,
};
pub use world_peers::{Home, Leader, Member, Party, Peer, Sent, WorldFault};
