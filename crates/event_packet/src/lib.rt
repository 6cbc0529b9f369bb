// The body of event 06 and the packet frame that it stands for. The modulator's packet frames are printed in the same layout.
#![tactic(auto, unfolding(crate::specs::Packet::packet_of, crate::specs::Packet::packet_body, crate::specs::Packet::counter_byte, crate::specs::Packet::counter_of))]

ghost use Rattle.std.specs.Prelude.{◌≡◌};
ghost use Rattle.event_packet.specs.Packet.{counter_of, counter_byte, packet_of, packet_body};

use protocol::{PacketFrame, PacketFrameCounter};

// The body of 06: the frame's bytes, then its index or, from 128 on, the length of the last frame.
// A frame and its body are turned by functions, since the types are `protocol`'s and the layout is document 01's event.
pub fn packet_frame(body: [u8; 26]) -> PacketFrame
    ensures { result ≡ packet_of body }
{
    PacketFrame {
        payload: body[..25].try_into().unwrap(),
        counter: counter_of(body[25]),
    }
}

pub fn packet_body(frame: PacketFrame) -> [u8; 26]
    ensures { result ≡ packet_body frame }
{
    let mut body = [0u8; 26];
    body[..25].copy_from_slice(&frame.payload);
    body[25] = counter_byte(frame.counter);
    body
}

const FINAL: u8 = 128;

#[tactic(auto, using(choice::specs::Pick::tests), unfolding(crate::specs::Packet::counter_of))]
fn counter_of(byte: u8) -> PacketFrameCounter
    ensures { result ≡ counter_of byte }
{
    if byte < FINAL {
        return PacketFrameCounter::Frame {
            index: byte as usize,
        };
    }
    PacketFrameCounter::FinalFrame {
        payload_len: (byte - FINAL) as usize,
    }
}

// Of an index or a length that has no place in seven bits, the low seven. The TNC gives none.
fn counter_byte(counter: PacketFrameCounter) -> u8
    ensures { result ≡ counter_byte counter }
{
    match counter {
        PacketFrameCounter::Frame { index } => (index % 128) as u8,
        PacketFrameCounter::FinalFrame { payload_len } => FINAL + (payload_len % 128) as u8,
    }
}
