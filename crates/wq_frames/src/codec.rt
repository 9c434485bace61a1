//! The codec of frames: a length in four bytes, and a body of that length.
ghost use Rattle.std.specs.Prelude.{◌≡◌, ◌≤◌, length, IfOk, IfNone};
ghost use Rattle.byteorder.specs.Endian.{big_number};
ghost use Rattle.tokio_util.specs.Codec.Next.{Decodes};
ghost use Rattle.wq_frames.specs.Laws.{gives_frames, frames_stable, frames_partial, frames_end};

use byteorder::{BigEndian, ByteOrder};
use bytes::BytesMut;
use std::io;
use thiserror::Error;
use tokio_util::codec::Decoder;

/// The most bytes of a body.
pub const MOST_BODY: u32 = 71_303_168;

/// Why no frame can be taken.
#[derive(Clone, Copy, Debug, PartialEq, Eq, Error)]
pub enum FrameFault {
    /// A length above the limit.
    #[error("a frame of {0} bytes")]
    TooLong(u32),
    /// There is no memory to cut the frame off.
    #[error("out of memory")]
    Memory,
}

impl From<io::Error> for FrameFault {
    ghost use Rattle.wq_frames.specs.declared.codec.FrameFault.TheVariants.{Memory};

    ghost from_gives = { λ _ e. e ≡ Memory };

    fn from(_e: io::Error) -> FrameFault {
        FrameFault::Memory
    }
}

/// Takes bodies off the front of a stream. A cut shares the buffer and copies nothing; one for
/// which there is no memory leaves the stream as it was.
#[derive(Clone, Copy)]
pub struct FrameCodec;

impl Decoder for FrameCodec {
    type Item = BytesMut;

    type Error = FrameFault;

    ghost gives = { gives_frames };

    ghost stable = { frames_stable };

    ghost partial_has_no_frame = { frames_partial };

    ghost end_is_partial = { frames_end };

    fn decode(&mut self, src: &mut BytesMut) -> Result<Option<BytesMut>, FrameFault>
        ensures next { Decodes gives_frames self.old src.old.items result self.new src.new.items }
        ensures kept { IfOk result (λ body. IfNone body (src.new.items ≡ src.old.items)) }
    {
        let bytes = src.as_slice();
        if bytes.len() < 4 {
            return Ok(None);
        }
        let length = BigEndian::read_u32(bytes);
        if length > MOST_BODY {
            return Err(FrameFault::TooLong(length));
        }
        if bytes.len() < length as usize + 4 {
            return Ok(None);
        }
        match src.split_to(4 + length as usize) {
            Ok(mut framed) => {
                framed.advance(4);
                Ok(Some(framed))
            }
            Err(_) => Err(FrameFault::Memory),
        }
    }

    fn decode_eof(&mut self, src: &mut BytesMut) -> Result<Option<BytesMut>, FrameFault> {
        match self.decode(src)? {
            Some(body) => Ok(Some(body)),
            None => Ok(None),
        }
    }
}
