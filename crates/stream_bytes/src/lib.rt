// The 25 bytes of a stream frame, as the stream queue stores it and the events lay it out, and the frame that a data payload stands for.
#![tactic(auto, unfolding(streams::specs::Layout::bytes_of, streams::specs::Layout::frame_of, kiss_layout::specs::Stream::stream_of))]

ghost use Rattle.std.specs.Prelude.{◌≡◌};
ghost use Rattle.kiss_layout.specs.Stream.{stream_of};
ghost use Rattle.streams.specs.Layout.{bytes_of, frame_of};

use protocol::StreamFrame;
use streams::FRAME_LEN;

// The bytes to be stored of what a data payload stands for.
pub fn frame_bytes(payload: [u8; 30]) -> [u8; FRAME_LEN]
    ensures { result ≡ bytes_of (stream_of payload) }
{
    bytes_of(payload_frame(payload))
}

// The LICH index has the top three bits of its byte, and the top bit of the number marks the end.
fn payload_frame(payload: [u8; 30]) -> StreamFrame
    ensures { result ≡ stream_of payload }
{
    StreamFrame {
        lich_idx: payload[5] / 32,
        lich_part: payload[..5].try_into().unwrap(),
        frame_number: u16::from_be_bytes([payload[6] % 128, payload[7]]),
        end_of_stream: 128 <= payload[6],
        stream_data: payload[8..24].try_into().unwrap(),
    }
}

// LICH index, its part, the number, whether it is the last, the data.
pub fn bytes_of(frame: StreamFrame) -> [u8; FRAME_LEN]
    ensures { result ≡ bytes_of frame }
{
    // From the end on: what stands before a part is still all zero, which proves at once.
    let mut bytes = [0u8; FRAME_LEN];
    bytes[9..].copy_from_slice(&frame.stream_data);
    bytes[8] = frame.end_of_stream as u8;
    bytes[6..8].copy_from_slice(&frame.frame_number.to_be_bytes());
    bytes[1..6].copy_from_slice(&frame.lich_part);
    bytes[0] = frame.lich_idx;
    bytes
}

// A saved store has any bytes: every end byte but 0 marks the end.
pub fn frame_of(bytes: [u8; FRAME_LEN]) -> StreamFrame
    ensures { result ≡ frame_of bytes }
{
    StreamFrame {
        lich_idx: bytes[0],
        lich_part: bytes[1..6].try_into().unwrap(),
        frame_number: u16::from_be_bytes([bytes[6], bytes[7]]),
        end_of_stream: bytes[8] != 0,
        stream_data: bytes[9..].try_into().unwrap(),
    }
}
