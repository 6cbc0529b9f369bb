// The content of a port 2 data frame, as m17core's kiss.rs builds it. A crate of its own below the builders, so that an edit of it does not prove all builders again.
#![tactic(auto)]

ghost use Rattle.std.specs.Prelude.{◌≡◌, ◌≤◌};
ghost use Rattle.kiss_layout.specs.Stream.{end_mark, numbered_data, stream_content};
ghost use Rattle.kiss_stream.specs.Checked.{checked_content};

use protocol::StreamFrame;

// The content, unless the LICH index or the frame number is out of range. A number over 32,767 would mark the end.
#[tactic(auto, unfolding(crate::specs::Checked::checked_content, choice::specs::Pick::pick))]
pub fn checked_content(frame: StreamFrame) -> Option<[u8; 26]>
    ensures { result ≡ checked_content frame }
{
    if (5 < frame.lich_idx) || (32767 < frame.frame_number) {
        return None;
    }
    Some(stream_content(frame))
}

// The LICH part, its index in the top three bits of a byte, and the numbered data with its CRC.
fn stream_content(frame: StreamFrame) -> [u8; 26]
    requires { (frame.lich_idx ≤ 5) × (frame.frame_number ≤ 32767) }
    ensures { result ≡ stream_content frame }
{
    let inner = numbered_data(frame);
    let mut content = [0u8; 26];
    content[..5].copy_from_slice(&frame.lich_part);
    content[5] = frame.lich_idx * 32;
    content[6..24].copy_from_slice(&inner);
    content[24..].copy_from_slice(&crc::m17_crc(&inner).to_be_bytes());
    content
}

// The frame's number, its top bit marking the end, and its data.
fn numbered_data(frame: StreamFrame) -> [u8; 18]
    requires { frame.frame_number ≤ 32767 }
    ensures { result ≡ numbered_data frame }
{
    let mut inner = [0u8; 18];
    inner[..2].copy_from_slice(&frame.frame_number.to_be_bytes());
    inner[0] += end_mark(frame.end_of_stream);
    inner[2..].copy_from_slice(&frame.stream_data);
    inner
}

fn end_mark(end: bool) -> u8
    ensures { result ≡ end_mark end }
{
    if end { 0x80 } else { 0 }
}
