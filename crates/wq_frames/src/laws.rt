//! Laws of frames and of feeders, each the contract of a function that does nothing.
ghost use Rattle.wq_frames.specs.Fronts.{FrontsAreFrames, FramesAreTaken, WaitsForTheRest};
ghost use Rattle.wq_frames.specs.Runs.{RunsAreStreams, StreamsAreOne};

/// What is taken off the front is a frame's body, each frame at the front is taken, and a feeder
/// waits exactly where the bytes left are the beginning of a frame.
pub fn fronts_are_frames()
    ensures frames { FrontsAreFrames }
    ensures taken { FramesAreTaken }
    ensures waits { WaitsForTheRest }
{}

/// Whatever the pieces, the messages that a feeder gave and the bytes left are those of the bytes
/// fed; and bytes are frames and a rest that begins no frame in one way only.
pub fn runs_are_streams()
    ensures given { RunsAreStreams }
    ensures one { StreamsAreOne }
{}
