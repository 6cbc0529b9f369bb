// The event of the modulator: a read of its next frame, laid out in bytes. A body, or a room for fewer than 255 bytes, is answered 9.
#![tactic(auto, unfolding(crate::specs::Tx::laid_out, crate::specs::Tx::frame_bytes, choice::specs::Pick::pick))]

ghost use Rattle.std.specs.Prelude.{◌≤◌, ◌≡◌, leb, eqb, length};
ghost use Rattle.choice.specs.Pick.{pick};
ghost use Rattle.room.specs.Room.{over};
ghost use Rattle.tnc_modulator.specs.Modulator.{kind_number};
ghost use Rattle.tnc_transmit.specs.Calls.{tnc_tx};
ghost use Rattle.event_answer.specs.Answer.{MOST, refused};
ghost use Rattle.event_tx.specs.Tx.{laid_out, of_tx};

use event_answer::{Applied, EventBox, MOST_BYTES, answer, refuse};
use protocol::ModulatorFrame;
use room::LentError;

pub fn read_tx(
    before: EventBox,
    body: &[u8],
    packets: &[u8],
    streams: &[u8],
    bytes: &mut [u8],
) -> Applied
    ensures { (result, bytes.new) ≡ pick (eqb (length body.now) 0) (pick (leb MOST (length bytes.old)) (of_tx (tnc_tx before.tnc before.channel packets.now streams.now) bytes.old) (refused before, bytes.old)) (refused before, bytes.old) }
{
    if !body.is_empty() || bytes.len() < MOST_BYTES {
        return refuse(before);
    }
    let read = tnc_transmit::read_tx_frame(before.tnc, before.channel, packets, streams);
    let count = lay_out(read.answer, bytes);
    answer(kind_number(read.answer), count, read.tnc, read.channel)
}

// The bytes of a frame for the modulator: its delay, the LSF, or a frame as the body of its event.
fn lay_out(given: Result<Option<ModulatorFrame>, LentError>, bytes: &mut [u8]) -> usize
    requires { MOST ≤ length bytes.old }
    ensures { (result, bytes.new) ≡ laid_out given bytes.old }
{
    let Ok(Some(frame)) = given else {
        return 0;
    };
    match frame {
        ModulatorFrame::Preamble { tx_delay } => put(&[tx_delay], bytes),
        ModulatorFrame::Lsf(lsf) => put(&lsf.0, bytes),
        ModulatorFrame::Stream(frame) => put(&event_stream::stream_body(frame), bytes),
        ModulatorFrame::Packet(frame) => put(&event_packet::packet_body(frame), bytes),
        ModulatorFrame::EndOfTransmission => 0,
    }
}

fn put(src: &[u8], bytes: &mut [u8]) -> usize
    requires { length src.now ≤ length bytes.old }
    ensures counted { result ≡ length src.now }
    ensures put { bytes.new ≡ over src.now bytes.old }
{
    bytes[..src.len()].copy_from_slice(src);
    src.len()
}

// The number that the line of 08 prints. No From: both types are other crates'.
fn kind_number(given: Result<Option<ModulatorFrame>, LentError>) -> u8
    ensures { result ≡ kind_number given }
{
    match given {
        Ok(Some(ModulatorFrame::Preamble { .. })) => 1,
        Ok(Some(ModulatorFrame::Lsf(_))) => 2,
        Ok(Some(ModulatorFrame::Stream(_))) => 3,
        Ok(Some(ModulatorFrame::Packet(_))) => 4,
        Ok(Some(ModulatorFrame::EndOfTransmission)) => 5,
        Ok(None) | Err(_) => 0,
    }
}
