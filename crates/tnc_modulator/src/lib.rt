// What the TNC gives the modulator, frame by frame, as m17core's tnc.rs has it: a preamble once the channel may be used, a transmission's frames, and its end.
#![tactic(auto, unfolding(crate::specs::Modulator::all_sound, crate::specs::Modulator::tx_read, choice::specs::Pick::and, choice::specs::Pick::pick))]

ghost use Rattle.std.specs.Prelude.{◌≡◌};
ghost use Rattle.tnc_modulator.specs.Modulator.{all_sound, tx_read};

use channel::Channel;
use packets::STORE_LEN;
use protocol::ModulatorFrame;
use room::LentError;
use sending::Sending;
use state::{State, Transmission};
use streams::STREAM_STORE_LEN;
use tx_begin::begin;
use tx_frame::{TxRead, unfilled};
use tx_packet::give_packet;
use tx_stream::give_stream;

// The next frame for the modulator.
pub fn read_tx_frame(
    state: State,
    sending: Sending,
    channel: Channel,
    packets: &[u8],
    streams: &[u8],
) -> TxRead
    ensures { result ≡ tx_read state sending channel packets.now streams.now }
{
    if packets.len() != STORE_LEN || streams.len() != STREAM_STORE_LEN {
        return unfilled(Err(LentError::WrongStore), state, sending, channel);
    }
    if !all_sound(state, sending, channel) {
        return unfilled(Err(LentError::OutOfBounds), state, sending, channel);
    }
    match state.transmission() {
        Transmission::Receiving => begin(state, sending, channel),
        Transmission::Stream => give_stream(sending, channel, streams),
        Transmission::StreamSent => unfilled(
            Ok(Some(ModulatorFrame::EndOfTransmission)),
            State::TxEnding,
            sending,
            channel,
        ),
        Transmission::Packet => give_packet(sending, channel, packets),
        // Until the clock has ended this transmission no new one begins.
        Transmission::Ending => unfilled(Ok(None), state, sending, channel),
    }
}

fn all_sound(state: State, sending: Sending, channel: Channel) -> bool
    ensures { result ≡ all_sound state sending channel }
{
    state.is_sound() && sending.is_sound() && channel.is_sound()
}
