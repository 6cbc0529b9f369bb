// A read in a packet transmission, as m17core's tnc.rs has it.
#![tactic(auto, unfolding(crate::specs::Packet::packet_given))]

ghost use Rattle.std.specs.Prelude.{◌≡◌};
ghost use Rattle.tx_packet.specs.Packet.{after_packet, packet_given};

use channel::Channel;
use protocol::ModulatorFrame;
use room::LentError;
use sending::Sending;
use state::State;
use tx_frame::TxRead;

// As `tx_stream::give_stream`, but for the queue, its field and the state behind it: all that it says.
pub fn give_packet(sending: Sending, channel: Channel, packets: &[u8]) -> TxRead
    ensures { result ≡ packet_given sending channel packets.now }
{
    let read = packet_read::read_next(sending.packets, packets);
    TxRead {
        answer: read.answer,
        state: after_packet(read.answer),
        sending: Sending {
            packets: read.queue,
            ..sending
        },
        channel,
    }
}

fn after_packet(answer: Result<Option<ModulatorFrame>, LentError>) -> State
    ensures { result ≡ after_packet answer }
{
    match answer {
        Ok(Some(ModulatorFrame::EndOfTransmission)) => State::TxEnding,
        _ => State::TxPacket,
    }
}
