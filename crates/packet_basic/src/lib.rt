// The push of a data frame of port 0, behind `packets`, which has the record and the definitions: its content becomes a packet that waits.
#![tactic(auto)]

ghost use Rattle.std.specs.Prelude.{◌≡◌, ◌+◌, ◌≤◌, is_ok, length};
ghost use Rattle.kiss_layout.specs.Read.{decoded};
ghost use Rattle.packets.specs.Frames.{zeros};
ghost use Rattle.packets.specs.Queue.{ROOM, pushed_basic};
ghost use Rattle.packet_basic.specs.Inside.{decoded_at, sealed_at};

use kiss_layout::PushError;
use kiss_read::decode_payload;
use packet_push::accepted;
use packets::{PacketQueue, Push, Pushed, ROOM_LEN, STORE_LEN};

// What a packet of port 0 leaves of its data for the payload: without the type byte and the CRC.
const MAX_BASIC_LEN: usize = 822;

// The type of a packet of port 0: raw data.
const RAW: u8 = 0x00;

// A data frame of port 0: its content becomes a packet of type 00 behind the fixed LSF.
pub fn push_basic(queue: PacketQueue, frame: &[u8], store: &mut [u8]) -> Pushed
    ensures { (result, store.new) ≡ pushed_basic queue frame.now store.old }
{
    if store.len() != STORE_LEN {
        return Pushed {
            answer: Err(PushError::WrongStore),
            queue,
        };
    }
    if !queue.is_sound() {
        return Pushed {
            answer: Err(PushError::OutOfBounds),
            queue,
        };
    }
    if queue.full {
        return Pushed {
            answer: Ok(Push::Ignored),
            queue,
        };
    }
    if !has_payload(frame) {
        return Pushed {
            answer: Err(PushError::MalformedKissFrame),
            queue,
        };
    }
    let room = ROOM_LEN * queue.next;
    let n = decode_into(frame, store, room);
    if MAX_BASIC_LEN < n {
        store[room..room + ROOM_LEN].fill(0);
        return Pushed {
            answer: Ok(Push::Ignored),
            queue,
        };
    }
    seal(store, room, n);
    accepted(queue, n + 3)
}

// The frame holds a header and a FEND behind it. This is asked before anything of the store is touched.
fn has_payload(frame: &[u8]) -> bool
    ensures { result ≡ is_ok (decoded frame.now (zeros 1)).0 }
{
    let mut room = [0u8; 1];
    decode_payload(frame, &mut room).is_ok()
}

// The room at `at` is cleared and the content decoded straight into it, behind the type byte. Returns how many bytes that counted.
fn decode_into(frame: &[u8], store: &mut [u8], at: usize) -> usize
    requires { at + ROOM ≤ length store.old }
    ensures { (result, store.new) ≡ decoded_at frame.now store.old at }
{
    let room = &mut store[at..at + ROOM_LEN];
    room.fill(0);
    decode_payload(frame, &mut room[31..]).unwrap_or(0)
}

// The room at `at` holds n bytes of payload from its byte 31 on: before them come the LSF and the type byte, behind them the CRC.
fn seal(store: &mut [u8], at: usize, n: usize)
    requires { (at + ROOM ≤ length store.old) × (n ≤ 822) }
    ensures { store.new ≡ sealed_at store.old at n }
{
    let from = at + 30;
    store[at..from].copy_from_slice(&lsf_frame::packet_basic().0);
    store[from] = RAW;
    let end = from + 1 + n;
    let crc = crc::m17_crc(&store[from..end]);
    store[end..end + 2].copy_from_slice(&crc.to_be_bytes());
}
