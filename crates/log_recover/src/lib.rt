//! Recovery of the log: the records that its file spells.
#![tactic(auto)]

mod begin;
mod fault;
mod found;
mod laws;
mod read;
mod recovery;
mod scan;
mod settle;
mod step;
mod window;

pub use fault::RecoverFault;
pub use laws::files_spell_one_list;
pub use recovery::recover;
