// The reads of the stream queue, behind `streams`, which has the record and the definitions.
#![tactic(auto)]

ghost use Rattle.std.specs.Prelude.{true, ◌≡◌};
ghost use Rattle.streams.specs.Queue.{sound_queue, lsf_read, frame_read, read_next};

use protocol::{LsfFrame, ModulatorFrame};
use room::LentError;
use stream_bytes::frame_of;
use streams::{FRAME_LEN, LSF_AT, PLACES, STREAM_STORE_LEN, StreamQueue, StreamRead};

// The next frame for the modulator in a stream transmission. Nothing while no frame waits, even where an LSF does: it goes out once there is data behind it.
pub fn read_next(queue: StreamQueue, store: &[u8]) -> StreamRead
    ensures { result ≡ read_next queue store.now }
{
    let Ok(store) = <&[u8; STREAM_STORE_LEN]>::try_from(store) else {
        return StreamRead {
            answer: Err(LentError::WrongStore),
            queue,
        };
    };
    if !queue.is_sound() {
        return StreamRead {
            answer: Err(LentError::OutOfBounds),
            queue,
        };
    }
    if queue.is_empty() {
        return StreamRead {
            answer: Ok(None),
            queue,
        };
    }
    if queue.pending {
        return read_lsf(queue, store);
    }
    read_frame(queue, store)
}

fn read_lsf(mut queue: StreamQueue, store: &[u8; STREAM_STORE_LEN]) -> StreamRead
    ensures { result ≡ lsf_read queue store.now }
{
    let mut lsf = [0u8; 30];
    lsf.copy_from_slice(&store[LSF_AT..]);
    queue.pending = false;
    StreamRead {
        answer: Ok(Some(ModulatorFrame::Lsf(LsfFrame(lsf)))),
        queue,
    }
}

fn read_frame(mut queue: StreamQueue, store: &[u8; STREAM_STORE_LEN]) -> StreamRead
    requires { sound_queue queue ≡ true }
    ensures { result ≡ frame_read queue store.now }
{
    let at = FRAME_LEN * queue.curr;
    let mut bytes = [0u8; FRAME_LEN];
    bytes.copy_from_slice(&store[at..at + FRAME_LEN]);
    queue.curr = (queue.curr + 1) % PLACES;
    queue.full = false;
    StreamRead {
        answer: Ok(Some(ModulatorFrame::Stream(frame_of(bytes)))),
        queue,
    }
}
