// A new TNC, as m17core's SoftTnc::new gives it.
#![tactic(auto)]

ghost use Rattle.std.specs.Prelude.{◌≡◌};
ghost use Rattle.tnc_core.specs.Tnc.{new_tnc};

use kiss_calls::KissBuffer;
use outgoing::Outgoing;
use packets::{PacketQueue, Place};
use radio::Radio;
use sending::Sending;
use state::State;
use streams::StreamQueue;
use tnc_core::Tnc;

pub fn new() -> Tnc
    ensures { result ≡ new_tnc }
{
    let streams = StreamQueue {
        next: 0,
        curr: 0,
        full: false,
        pending: false,
    };
    Tnc {
        buffer: KissBuffer::new(),
        sending: Sending {
            packets: PacketQueue {
                places: [Place {
                    due: false,
                    len: 0,
                    sent: 0,
                }; 4],
                next: 0,
                curr: 0,
                full: false,
            },
            streams,
            tx_delay: 0,
        },
        radio: Radio {
            state: State::Idle,
            outgoing: Outgoing::new(),
        },
        ptt: false,
    }
}
