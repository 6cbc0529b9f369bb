// The TNC's call for bytes to the host.
#![tactic(auto, unfolding(crate::specs::Calls::tnc_read, outgoing::specs::Message::read_up_to, choice::specs::Pick::pick))]

ghost use Rattle.std.specs.Prelude.{◌≡◌};
ghost use Rattle.tnc_read.specs.Calls.{not_read, tnc_read};
ghost use Rattle.outgoing.specs.Message.{read_up_to};

use outgoing::Outgoing;
use radio::{MESSAGE_STORE_LEN, Radio};
use room::LentError;
use tnc_core::Tnc;

#[derive(Clone, Copy)]
pub struct TncRead {
    pub answer: Result<usize, LentError>,
    pub tnc: Tnc,
}

// Bytes to the host: what there is room for of what has not been read of the message that waits, at the start of target.
pub fn read_kiss(tnc: Tnc, message: &[u8], target: &mut [u8]) -> TncRead
    ensures { (result, target.new) ≡ tnc_read tnc message.now target.old }
{
    if message.len() != MESSAGE_STORE_LEN {
        return not_read(LentError::WrongStore, tnc);
    }
    if !tnc.is_sound() {
        return not_read(LentError::OutOfBounds, tnc);
    }
    let Outgoing { len, read } = tnc.radio.outgoing;
    let waiting = &message[read..len];
    let count = waiting.len().min(target.len());
    let _ = store::copy_in(&waiting[..count], target, 0);
    TncRead {
        answer: Ok(count),
        tnc: tnc.with_radio(read_up_to(tnc.radio, read + count)),
    }
}

// A message that was read to its end is gone.
fn read_up_to(radio: Radio, end: usize) -> Radio
    ensures { result ≡ record { state = radio.state; outgoing = read_up_to radio.outgoing end } }
{
    let outgoing = if end == radio.outgoing.len {
        Outgoing::new()
    } else {
        Outgoing {
            read: end,
            ..radio.outgoing
        }
    };
    Radio { outgoing, ..radio }
}

fn not_read(error: LentError, tnc: Tnc) -> TncRead
    ensures { result ≡ not_read error tnc }
{
    TncRead {
        answer: Err(error),
        tnc,
    }
}
