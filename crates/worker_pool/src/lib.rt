//! Threads that run jobs, and the course that says which.
//!
//! The caller's thread asks a course what to start, and tells it how that ended. Each runner has a
//! thread of its own, takes starts from one queue and puts reports into another. `run_pool` runs a
//! list of jobs, and `drive` runs what a `Course` gives.
//!
//! A caller whose loop is no `Course` serves a `Pool` by itself:
//!
//! ```text
//! let (tickets, pass) = new_tickets(alloc)?;
//! let (line, token) = Line::<B>::new(alloc)?;
//! let (mut pool, mut other) = Pool::new(&line, tickets, pass, token);
//! both(rt, &line, runners, gate, &mut other, &mut pool, ..);
//! pool.end(rt, other);
//!
//! // in `both`:
//! join_mut(
//!     rt,
//!     &mut || work_all(rt, line, gate, other, runners),
//!     &mut || {
//!         // while `pool.seen()` is a number and there is more to do:
//!         //     `pool.give(rt, start)` where fewer than 64 are out, or
//!         //     `pool.hear()`, and where no report is ready `pool.rest(rt, seen)`
//!         pool.close();
//!     },
//! );
//! ```
//!
//! `B` is `Brand`, which takes any pick of whose tickets they are and which outcomes fit a job.
//! Without `close` the runners never end. After `end` the runners' counts tell how many jobs that
//! were heard weren't run or failed.
#![tactic(auto)]

mod bell;
mod chief;
mod counted;
mod course;
mod crew;
mod driving;
mod entry;
mod gate;
mod hand;
mod handed;
mod jobs;
mod line;
mod list;
mod pool;
mod ran;
mod steer;
mod step;
mod terms;
mod ticket;
mod work;

pub use course::Course;
pub use crew::work_all;
pub use driving::drive;
pub use gate::{Gate, OpenGate};
pub use line::{Line, Token};
pub use list::run_pool;
pub use pool::Pool;
pub use step::{Event, Step};
pub use terms::Terms;
pub use ticket::{Ticket, Tickets, new_tickets};
