//! Streams of frames: what a link carries, what a row of frames is, and where a stream leaves the
//! grammar. Definitions and laws alone: the decoder, a link's two ends and their programs cite
//! them.
#![tactic(auto)]

mod laws;

pub use laws::frames_carry_their_messages;
