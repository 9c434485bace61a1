//! Whole files on a site: written so that they outlive a crash.
#![tactic(auto)]

mod outputs;
mod put;

pub use outputs::put_outputs;
pub use put::put_file;
