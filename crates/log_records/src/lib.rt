//! Records of the log: one spelling each, written and read back. A spelling is a kind byte and a
//! body; the length and the gate that the log puts before it are the log's.
#![tactic(auto)]

mod contents;
mod fault;
mod laws;
mod parts;
mod placing;
mod reading;
mod writing;

pub use fault::RecordFault;
pub use laws::records_are_spelled_once;
pub use reading::read_record;
pub use writing::{record_len, write_record, write_record_at};
