// The TNC's call for the modulator.
#![tactic(auto, unfolding(crate::specs::Calls::tnc_tx, host_record::specs::Host::stores_fit, choice::specs::Pick::and, choice::specs::Pick::pick))]

ghost use Rattle.std.specs.Prelude.{◌≡◌};
ghost use Rattle.tnc_transmit.specs.Calls.{not_given, put_given, tnc_tx};

use channel::Channel;
use host_record::stores_fit;
use protocol::ModulatorFrame;
use radio::Radio;
use room::LentError;
use tnc_core::Tnc;
use tx_frame::TxRead;

// The frame that the modulator is given, where there is one.
#[derive(Clone, Copy)]
pub struct TncTx {
    pub answer: Result<Option<ModulatorFrame>, LentError>,
    pub tnc: Tnc,
    pub channel: Channel,
}

// The next frame for the modulator.
pub fn read_tx_frame(tnc: Tnc, channel: Channel, packets: &[u8], streams: &[u8]) -> TncTx
    ensures { result ≡ tnc_tx tnc channel packets.now streams.now }
{
    if !stores_fit(packets.len(), streams.len()) {
        return not_given(LentError::WrongStore, tnc, channel);
    }
    if !tnc.is_sound() {
        return not_given(LentError::OutOfBounds, tnc, channel);
    }
    let state = tnc.radio.state;
    let read = tnc_modulator::read_tx_frame(state, tnc.sending, channel, packets, streams);
    put_given(tnc, read)
}

// PTT follows the state.
fn put_given(tnc: Tnc, read: TxRead) -> TncTx
    ensures { result ≡ put_given tnc read }
{
    TncTx {
        answer: read.answer,
        tnc: Tnc {
            sending: read.sending,
            radio: Radio {
                state: read.state,
                ..tnc.radio
            },
            ptt: read.state.ptt(),
            ..tnc
        },
        channel: read.channel,
    }
}

fn not_given(error: LentError, tnc: Tnc, channel: Channel) -> TncTx
    ensures { result ≡ not_given error tnc channel }
{
    TncTx {
        answer: Err(error),
        tnc,
        channel,
    }
}
