// What the TNC does with an LSF from the air, as m17core's tnc.rs has it. A packet that is being received stands in a store of 855 bytes that the caller lends, its LSF first;
// the message to the host in one of 1,713 bytes.
#![tactic(auto)]

ghost use Rattle.std.specs.Prelude.{◌≡◌};
ghost use Rattle.air_lsf.specs.Begun.{lsf_heard};

use kiss_build_stream::new_stream_setup;
use protocol::{LsfFrame, Mode};
use radio::{Heard, Radio};
use radio_hears::hears;
use radio_told::told;
use state::State;

// A new LSF clears what went before. While we send, it is our own.
pub fn handle_lsf(radio: Radio, lsf: LsfFrame, rx: &mut [u8], out: &mut [u8]) -> Heard
    ensures { (result, rx.new, out.new) ≡ lsf_heard radio lsf.0 rx.old out.old }
{
    match hears(radio, rx.len(), out.len()) {
        Err(error) => Heard {
            answer: Err(error),
            radio,
        },
        Ok(false) => Heard {
            answer: Ok(()),
            radio,
        },
        Ok(true) => match lsf_frame::mode(lsf) {
            Mode::Packet => {
                rx[..30].copy_from_slice(&lsf.0);
                radio.turned(State::RxPacket(0))
            }
            Mode::Stream => told(State::RxStream(0), new_stream_setup(&lsf.0, out)),
        },
    }
}
