// What the radio tells the host: the message that was built for it.
#![tactic(auto)]

ghost use Rattle.std.specs.Prelude.{◌≡◌};
ghost use Rattle.radio_told.specs.Inside.{told_of};

use kiss_layout::BuildError;
use outgoing::Outgoing;
use radio::{Heard, Radio};
use state::State;

// The radio in a state, with the message that was built. A frame of ours always fits into the store, so there always is one.
pub fn told(state: State, built: Result<usize, BuildError>) -> Heard
    ensures { result ≡ told_of state built }
{
    Heard {
        answer: Ok(()),
        radio: Radio {
            state,
            outgoing: Outgoing {
                len: built.unwrap_or(0),
                read: 0,
            },
        },
    }
}
