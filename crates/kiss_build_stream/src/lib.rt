// The builders of KISS frames that carry streams, as m17core's kiss.rs has them. Each writes a frame at the start of a room that it is lent.
#![tactic(auto, unfolding(kiss_layout::specs::Build::built, kiss_layout::specs::Build::refusal, choice::specs::Pick::pick))]

ghost use Rattle.std.specs.Prelude.{◌≡◌};
ghost use Rattle.kiss_layout.specs.Build.{built, stream_setup, stream_data};

use kiss_frame::put_frame;
use kiss_layout::{BuildError, PORT_STREAM};
use kiss_stream::checked_content;
use protocol::StreamFrame;

// The header of data frames, whose command is 0.
const STREAM_HEADER: u8 = PORT_STREAM * 16;

// Request to begin a stream.
pub fn new_stream_setup(lsf: &[u8], room: &mut [u8]) -> Result<usize, BuildError>
    ensures { (result, room.new) ≡ built (stream_setup lsf.now) room.old }
{
    if lsf.len() != 30 {
        return Err(BuildError::LsfWrongSize);
    }
    put_frame(STREAM_HEADER, b"", lsf, room)
}

// Request to transmit a part of a stream.
pub fn new_stream_data(frame: StreamFrame, room: &mut [u8]) -> Result<usize, BuildError>
    ensures { (result, room.new) ≡ built (stream_data frame) room.old }
{
    let content = checked_content(frame).ok_or(BuildError::OutOfRange)?;
    put_frame(STREAM_HEADER, b"", &content, room)
}
