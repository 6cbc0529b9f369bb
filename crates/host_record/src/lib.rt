// What the host can change, and the lengths of the stores of what waits to be sent.
#![tactic(auto, unfolding(crate::specs::Host::sound_host, crate::specs::Host::stores_fit, choice::specs::Pick::and))]

ghost use Rattle.std.specs.Prelude.{◌≡◌};
ghost use Rattle.host_record.specs.Host.{sound_host, stores_fit};

use channel::Channel;
pub use packets::STORE_LEN as PACKET_STORE_LEN;
use sending::Sending;
pub use streams::STREAM_STORE_LEN;

// What the host can change: what waits to be sent, and whether the channel is duplex.
#[derive(Clone, Copy)]
pub struct Host {
    pub sending: Sending,
    pub channel: Channel,
}

impl Host {
    pub fn is_sound(self) -> bool
        ensures { result ≡ sound_host self }
    {
        self.sending.is_sound() && self.channel.is_sound()
    }
}

// The test of both stores' lengths. It takes the lengths, as a slice lent to it would cost every caller's proof more.
pub fn stores_fit(packets: usize, streams: usize) -> bool
    ensures { result ≡ stores_fit packets streams }
{
    packets == PACKET_STORE_LEN && streams == STREAM_STORE_LEN
}
