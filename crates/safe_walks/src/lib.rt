//! What a run will have stored at most if it goes on alone, and which rules may start beside one
//! another so that there is always room for that. Nothing runs here.
#![tactic(auto)]

mod examples;
mod laws;

pub use examples::{
    chain_in_80_bytes, lesser_of_two_bounds, pairs_one_by_one, two_pairs_in_80_bytes,
};
pub use laws::{
    admitted_start_keeps_the_walk, call_stays_safe, claim_may_go, first_may_start,
    one_walk_answers, peak_is_walked, record_keeps_the_walk, run_stays_safe,
    safe_admission_admits_one, safe_run_has_a_rule, safe_run_has_room, walk_stays_under_more,
};
