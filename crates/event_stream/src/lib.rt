// The body of event 07 and the stream frame that it stands for, laid out as `stream_bytes` has it. The modulator's stream frames are printed in the same layout.
#![tactic(auto)]

ghost use Rattle.std.specs.Prelude.{◌≡◌};
ghost use Rattle.streams.specs.Layout.{bytes_of, frame_of};

use protocol::StreamFrame;

pub fn stream_frame(body: [u8; 25]) -> StreamFrame
    ensures { result ≡ frame_of body }
{
    stream_bytes::frame_of(body)
}

pub fn stream_body(frame: StreamFrame) -> [u8; 25]
    ensures { result ≡ bytes_of frame }
{
    stream_bytes::bytes_of(frame)
}
