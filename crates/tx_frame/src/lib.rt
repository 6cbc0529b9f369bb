// A frame for the modulator, as an answer that each kind of read fills with what it has.
#![tactic(auto)]

ghost use Rattle.std.specs.Prelude.{◌≡◌};
ghost use Rattle.tx_frame.specs.Frame.{unfilled};

use channel::Channel;
use protocol::{ModulatorFrame, PacketFrame, PacketFrameCounter, StreamFrame};
use room::LentError;
use sending::Sending;
use state::State;

// The frame that the modulator is given, where there is one.
#[derive(Clone, Copy)]
pub struct TxRead {
    pub answer: Result<Option<ModulatorFrame>, LentError>,
    pub state: State,
    pub sending: Sending,
    pub channel: Channel,
}

// What stands in a place for a frame of each kind where a read gave none. A `TxRead` has no such place; who keeps frames by kind has.
pub const NO_STREAM_FRAME: StreamFrame = StreamFrame {
    lich_idx: 0,
    lich_part: [0u8; 5],
    frame_number: 0,
    end_of_stream: false,
    stream_data: [0u8; 16],
};

pub const NO_PACKET_FRAME: PacketFrame = PacketFrame {
    payload: [0u8; 25],
    counter: PacketFrameCounter::Frame { index: 0 },
};

// An answer beside which state, queues and channel stay as they are given.
pub fn unfilled(
    answer: Result<Option<ModulatorFrame>, LentError>,
    state: State,
    sending: Sending,
    channel: Channel,
) -> TxRead
    ensures { result ≡ unfilled answer state sending channel }
{
    TxRead {
        answer,
        state,
        sending,
        channel,
    }
}
