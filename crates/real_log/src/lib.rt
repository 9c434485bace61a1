//! The log of a flow in a real folder: who writes it, and what those see who only read it.
#![tactic(auto)]

mod draft;
mod first_look;
mod flow_lock;

pub use first_look::FirstLook;
pub use flow_lock::FlowLock;
