// The push of a data frame of port 1, behind `packets`, which has the record and the definitions: its content becomes a packet that waits.
#![tactic(auto)]

ghost use Rattle.std.specs.Prelude.{◌≡◌};
ghost use Rattle.packets.specs.Queue.{pushed_full};

use kiss_layout::PushError;
use kiss_read::decode_payload;
use packet_push::accepted;
use packets::{PacketQueue, Push, Pushed, ROOM_LEN, STORE_LEN};

// A data frame of port 1: its content is an LSF and a packet's data.
pub fn push_full(queue: PacketQueue, frame: &[u8], store: &mut [u8]) -> Pushed
    ensures { (result, store.new) ≡ pushed_full queue frame.now store.old }
{
    if store.len() != STORE_LEN {
        return Pushed {
            answer: Err(PushError::WrongStore),
            queue,
        };
    }
    if !queue.is_sound() {
        return Pushed {
            answer: Err(PushError::OutOfBounds),
            queue,
        };
    }
    if queue.full {
        return Pushed {
            answer: Ok(Push::Ignored),
            queue,
        };
    }
    let mut room = [0u8; ROOM_LEN];
    let Ok(n) = decode_payload(frame, &mut room) else {
        return Pushed {
            answer: Err(PushError::MalformedKissFrame),
            queue,
        };
    };
    if n < 33 {
        return Pushed {
            answer: Ok(Push::Ignored),
            queue,
        };
    }
    if crc::m17_crc(&room[..30]) != 0 {
        return Pushed {
            answer: Ok(Push::Ignored),
            queue,
        };
    }
    let at = ROOM_LEN * queue.next;
    store[at..at + ROOM_LEN].copy_from_slice(&room);
    accepted(queue, n - 30)
}
