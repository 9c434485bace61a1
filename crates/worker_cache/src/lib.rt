//! The contents that a peer keeps between tasks.
#![tactic(auto)]

mod cache;
mod fault;
mod held;
mod leaving;
mod room;
mod rows;
mod table;

pub use cache::Cache;
pub use fault::PutRefused;
pub use held::Held;
pub use table::Table;
