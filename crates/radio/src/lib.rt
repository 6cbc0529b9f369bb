// What frames from the air change beside the stores, the TNC's state and its message to the host, and what all calls with such a frame have in common.
#![tactic(auto)]

ghost use Rattle.std.specs.Prelude.{◌≡◌};
ghost use Rattle.radio.specs.Radio.{sound_radio, turned, air_error_number};

use outgoing::Outgoing;
use state::State;

// What is being received stands in a store of the caller's: the LSF, or its LICH segments, and behind it the packet.
pub const RX_STORE_LEN: usize = 855;

pub const MESSAGE_STORE_LEN: usize = 1713;

#[derive(Clone, Copy)]
pub struct Radio {
    pub state: State,
    pub outgoing: Outgoing,
}

#[derive(Clone, Copy, Debug, PartialEq, Eq)]
pub enum AirError {
    OutOfRange,
    WrongStore,
    OutOfBounds,
}

#[derive(Clone, Copy)]
pub struct Heard {
    pub answer: Result<(), AirError>,
    pub radio: Radio,
}

impl From<AirError> for u8 {
    ghost from_gives = { λ error n. n ≡ air_error_number error };

    fn from(error: AirError) -> u8 {
        match error {
            AirError::OutOfRange => 6,
            AirError::WrongStore => 7,
            AirError::OutOfBounds => 8,
        }
    }
}

impl Radio {
    pub fn is_sound(self) -> bool
        ensures { result ≡ sound_radio self }
    {
        self.state.is_sound() && self.outgoing.is_sound()
    }

    // Another state. The message that waits goes on waiting.
    pub fn turned(self, state: State) -> Heard
        ensures { result ≡ turned state self }
    {
        Heard {
            answer: Ok(()),
            radio: Radio { state, ..self },
        }
    }
}
