// The read that begins a transmission, as m17core's tnc.rs has it: a preamble once the channel may be used.
#![tactic(auto, unfolding(crate::specs::Begin::keyed_up, crate::specs::Begin::begun, choice::specs::Pick::pick))]

ghost use Rattle.std.specs.Prelude.{◌≡◌};
ghost use Rattle.tx_begin.specs.Begin.{keyed_up, begun};

use channel::{Access, Channel};
use protocol::ModulatorFrame;
use room::LentError;
use sending::Sending;
use state::State;
use tx_frame::{TxRead, unfilled};

// PTT is off. The channel is asked only by somebody who has something to send.
pub fn begin(state: State, sending: Sending, channel: Channel) -> TxRead
    ensures { result ≡ begun state sending channel }
{
    if !sending.wants_to_send() {
        return unfilled(Ok(None), state, sending, channel);
    }
    let access = channel_access::access(channel);
    match access.answer {
        Ok(Access::Sends) => key_up(sending, access.channel),
        Ok(Access::Waits) => unfilled(Ok(None), state, sending, access.channel),
        Err(_) => unfilled(Err(LentError::OutOfBounds), state, sending, access.channel),
    }
}

// A stream whose LSF waits goes before packets.
fn key_up(sending: Sending, channel: Channel) -> TxRead
    ensures { result ≡ keyed_up sending channel }
{
    let preamble = ModulatorFrame::Preamble {
        tx_delay: sending.tx_delay,
    };
    let state = if sending.streams.pending {
        State::TxStream
    } else {
        State::TxPacket
    };
    unfilled(Ok(Some(preamble)), state, sending, channel)
}
