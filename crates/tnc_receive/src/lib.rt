// The TNC's call with a frame from the air, m17core's handle_frame.
#![tactic(auto, unfolding(crate::specs::Calls::air_heard, crate::specs::Calls::tnc_hears, choice::specs::Pick::pick))]

ghost use Rattle.std.specs.Prelude.{◌≡◌};
ghost use Rattle.tnc_receive.specs.Calls.{air_heard, frame_heard, hears_by};

use protocol::Frame;
use radio::{AirError, MESSAGE_STORE_LEN, RX_STORE_LEN};
use tnc_core::Tnc;

#[derive(Clone, Copy)]
pub struct TncHeard {
    pub answer: Result<(), AirError>,
    pub tnc: Tnc,
}

pub fn handle_frame(tnc: Tnc, frame: Frame, rx: &mut [u8], message: &mut [u8]) -> TncHeard
    ensures { (result, rx.new, message.new) ≡ air_heard tnc rx.old message.old (frame_heard frame tnc.radio rx.old message.old) }
{
    if let Err(error) = hears(tnc, rx.len(), message.len()) {
        return TncHeard {
            answer: Err(error),
            tnc,
        };
    }
    let heard = match frame {
        Frame::Lsf(lsf) => air_lsf::handle_lsf(tnc.radio, lsf, rx, message),
        Frame::Stream(frame) => tnc_stream::handle_stream(tnc.radio, frame, rx, message),
        Frame::Packet(frame) => tnc_air::handle_packet(tnc.radio, frame, rx, message),
    };
    TncHeard {
        answer: heard.answer,
        tnc: tnc.with_radio(heard.radio),
    }
}

// The stores, by their lengths, then the record: the rest the calls of the radio see to.
fn hears(tnc: Tnc, rx: usize, message: usize) -> Result<(), AirError>
    ensures { result ≡ hears_by tnc rx message }
{
    if rx != RX_STORE_LEN || message != MESSAGE_STORE_LEN {
        return Err(AirError::WrongStore);
    }
    if !tnc.is_sound() {
        return Err(AirError::OutOfBounds);
    }
    Ok(())
}
