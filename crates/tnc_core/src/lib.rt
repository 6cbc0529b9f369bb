// The TNC's record, as m17core's SoftTnc but for its large bytes and its channel, which stand in stores and a record of the caller's; and its bounds.
#![tactic(auto, unfolding(crate::specs::Tnc::sound_tnc, crate::specs::Tnc::ptt_of, choice::specs::Pick::and, choice::specs::Pick::pick))]

ghost use Rattle.std.specs.Prelude.{◌≡◌};
ghost use Rattle.tnc_core.specs.Tnc.{sound_tnc, ptt_of, with_radio};

use kiss_calls::{KissBuffer, MAX_FRAME_LEN};
use radio::Radio;
use room::LentError;
use sending::Sending;

#[derive(Clone, Copy)]
pub struct Tnc {
    // The reader of the host's bytes.
    pub buffer: KissBuffer,
    pub sending: Sending,
    // The state, and the message to the host.
    pub radio: Radio,
    pub ptt: bool,
}

impl Tnc {
    // All that can be seen without a store. Whether a taken frame stands first is seen where the reader's store is lent.
    pub fn is_sound(self) -> bool
        ensures { result ≡ sound_tnc self }
    {
        self.buffer.filled <= MAX_FRAME_LEN
            && self.sending.is_sound()
            && self.radio.is_sound()
            && self.ptt == self.radio.state.ptt()
    }

    // Should PTT be on right now?
    pub fn ptt(self) -> Result<bool, LentError>
        ensures { result ≡ ptt_of self }
    {
        if !self.is_sound() {
            return Err(LentError::OutOfBounds);
        }
        Ok(self.ptt)
    }

    // The same with another radio: PTT is on exactly in its transmit states.
    pub fn with_radio(self, radio: Radio) -> Self
        ensures { result ≡ with_radio self radio }
    {
        Tnc {
            radio,
            ptt: radio.state.ptt(),
            ..self
        }
    }
}
