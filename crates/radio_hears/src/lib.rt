// Whether the TNC listens to a frame from the air.
#![tactic(auto)]

ghost use Rattle.std.specs.Prelude.{◌≡◌};
ghost use Rattle.radio.specs.Radio.{hears_by};

use radio::{AirError, MESSAGE_STORE_LEN, RX_STORE_LEN, Radio};

// The four tests of every call: the two stores, by their lengths, the record, and whether we send. While we send, what is heard is our own.
pub fn hears(radio: Radio, rx: usize, out: usize) -> Result<bool, AirError>
    ensures { result ≡ hears_by radio rx out }
{
    if rx != RX_STORE_LEN {
        return Err(AirError::WrongStore);
    }
    if out != MESSAGE_STORE_LEN {
        return Err(AirError::WrongStore);
    }
    if !radio.is_sound() {
        return Err(AirError::OutOfBounds);
    }
    Ok(!radio.state.ptt())
}
