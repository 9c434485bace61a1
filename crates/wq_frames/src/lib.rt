//! Messages out of a stream that comes in any pieces.
#![tactic(auto)]

mod codec;
mod feeder;
mod laws;

pub use codec::{FrameCodec, FrameFault, MOST_BODY};
pub use feeder::{FeedFault, Feeder, Heard};
pub use laws::{fronts_are_frames, runs_are_streams};
