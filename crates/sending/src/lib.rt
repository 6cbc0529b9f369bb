// What waits to be sent, as m17core's tnc.rs keeps it beside its state: both queues, and how long the preamble is.
#![tactic(auto)]

ghost use Rattle.std.specs.Prelude.{◌≡◌};
ghost use Rattle.sending.specs.Sending.{sound_sending, wants_to_send};

use packets::PacketQueue;
use streams::StreamQueue;

#[repr(C)]
#[derive(Clone, Copy)]
pub struct Sending {
    pub packets: PacketQueue,
    pub streams: StreamQueue,
    // In units of 10 ms, as the host set it.
    pub tx_delay: u8,
}

impl Sending {
    pub fn is_sound(self) -> bool
        ensures { result ≡ sound_sending self }
    {
        let packets = self.packets;
        if !packets.is_sound() {
            return false;
        }
        let streams = self.streams;
        streams.is_sound()
    }

    // There is something to send: an LSF that waits for its stream, or a packet. Stream frames without an LSF go on waiting.
    pub fn wants_to_send(self) -> bool
        ensures { result ≡ wants_to_send self }
    {
        let streams = self.streams;
        if streams.pending {
            return true;
        }
        let packets = self.packets;
        !packets.is_empty()
    }
}
