// The push of the stream queue, behind `streams`, which has the record and the definitions.
#![tactic(auto)]

ghost use Rattle.std.specs.Prelude.{true, ◌≡◌, length};
ghost use Rattle.streams.specs.Queue.{STORE, sound_queue, data_pushed, lsf_pushed, pushed};

use kiss_layout::PushError;
use kiss_read::decode_payload;
use protocol::LsfFrame;
use stream_bytes::frame_bytes;
use streams::{FRAME_LEN, LSF_AT, PLACES, STREAM_STORE_LEN, StreamPush, StreamPushed, StreamQueue};

// Up to 25 bytes are no stream data. Both bounds are one number, so that no length lies between them.
const MAX_IGNORED_LEN: usize = 25;

const MIN_DATA_LEN: usize = MAX_IGNORED_LEN + 1;

// Takes the payload of a port 2 data frame: data, which is queued, or an LSF, which waits in place of one that waited before.
pub fn push(queue: StreamQueue, frame: &[u8], store: &mut [u8]) -> StreamPushed
    ensures { (result, store.new) ≡ pushed queue frame.now store.old }
{
    // Tried: an array by `try_from`, lent on to the calls below: the proofs of what stands in the store at each end ran for minutes and did not close.
    if store.len() != STREAM_STORE_LEN {
        return StreamPushed {
            answer: Err(PushError::WrongStore),
            queue,
        };
    }
    if !queue.is_sound() {
        return StreamPushed {
            answer: Err(PushError::OutOfBounds),
            queue,
        };
    }
    let mut payload = [0u8; 30];
    let Ok(n) = decode_payload(frame, &mut payload) else {
        return StreamPushed {
            answer: Err(PushError::MalformedKissFrame),
            queue,
        };
    };
    match n {
        0..=MAX_IGNORED_LEN => StreamPushed {
            answer: Ok(StreamPush::Ignored),
            queue,
        },
        MIN_DATA_LEN..=29 => push_data(queue, payload, store),
        // 30: the room has no more, and longer payloads are cut to it.
        _ => push_lsf(queue, payload, store),
    }
}

// A full queue stops data. Neither its CRC nor its LICH index is checked.
fn push_data(mut queue: StreamQueue, payload: [u8; 30], store: &mut [u8]) -> StreamPushed
    requires { (sound_queue queue ≡ true) × (length store.old ≡ STORE) }
    ensures { (result, store.new) ≡ data_pushed queue payload store.old }
{
    if queue.full {
        return StreamPushed {
            answer: Ok(StreamPush::Ignored),
            queue,
        };
    }
    let at = FRAME_LEN * queue.next;
    store[at..at + FRAME_LEN].copy_from_slice(&frame_bytes(payload));
    queue.next = (queue.next + 1) % PLACES;
    queue.full = queue.next == queue.curr;
    StreamPushed {
        answer: Ok(StreamPush::Queued),
        queue,
    }
}

// A full queue does not stop an LSF.
fn push_lsf(mut queue: StreamQueue, payload: [u8; 30], store: &mut [u8]) -> StreamPushed
    requires { length store.old ≡ STORE }
    ensures { (result, store.new) ≡ lsf_pushed queue payload store.old }
{
    if lsf_frame::check_crc(LsfFrame(payload)) != 0 {
        return StreamPushed {
            answer: Ok(StreamPush::Ignored),
            queue,
        };
    }
    store[LSF_AT..STREAM_STORE_LEN].copy_from_slice(&payload);
    queue.pending = true;
    StreamPushed {
        answer: Ok(StreamPush::LsfPending),
        queue,
    }
}
