//! The programs of peers: a worker over one link, and what a foreman has in common with it.
#![tactic(auto)]

mod cause;
mod ear;
mod halt;
mod lingers;
mod pace;
mod pool;
mod printing;
mod top;
mod voice;
mod work;

pub use cause::PeerCause;
pub use ear::Ear;
pub use halt::Halt;
pub use lingers::Lingers;
pub use printing::tell;
pub use top::{PeerEnded, worker_top};
pub use voice::say;
