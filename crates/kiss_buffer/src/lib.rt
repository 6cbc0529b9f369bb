// The reader, as m17core's KissBuffer: raw bytes in, whole frames out. What counts of them stands at the start of a store of 1,713 bytes that the caller lends.
// Here is the call that takes bytes in; `kiss_next` and `kiss_sound` have those that hand frames out.
#![tactic(auto)]

ghost use Rattle.std.specs.Prelude.{◌≡◌, ℕ, ◌≤◌, true, List, length};
ghost use Rattle.std.specs.Option.{ForSome};
ghost use Rattle.kiss_reader.specs.Reader.{STORE};
ghost use Rattle.kiss_calls.specs.Calls.{sound_buffer, written};
ghost use Rattle.kiss_calls.specs.Inside.{accepted, room_made};

use kiss_calls::{KissBuffer, MAX_FRAME_LEN, WriteError, Written};
use kiss_scan::{holds_frame, settle_at};
use kiss_sound::is_sound;

// The Rust's buf_remaining and did_write in one: takes of the offered bytes what there is room for. It first drops a frame that was handed out, and a full store
// that holds no whole frame: somebody sends what is no frame, or a FEND got lost.
#[tactic(auto, using(kiss_calls::proofs::Cases::written_wrong))]
pub fn write(buffer: KissBuffer, offered: &[u8], store: &mut [u8]) -> Written
    ensures { (result, store.new) ≡ written buffer offered.now store.old }
{
    if store.len() != MAX_FRAME_LEN {
        return Written {
            answer: Err(WriteError::WrongStore),
            buffer,
        };
    }
    if !is_sound(buffer, store) {
        return Written {
            answer: Err(WriteError::OutOfBounds),
            buffer,
        };
    }
    match make_room(buffer, store) {
        Some(kept) => accept(offered, store, kept),
        None => Written {
            answer: Err(WriteError::Full),
            buffer,
        },
    }
}

// Drops a frame that was handed out, or all of a full store that holds no whole frame. How many bytes are kept, or None where the write is to be refused.
#[tactic(auto, using(kiss_calls::proofs::Cases::taken_settles, kiss_calls::proofs::Cases::sound_filled, kiss_calls::proofs::Cases::sound_taken))]
fn make_room(buffer: KissBuffer, store: &mut [u8]) -> Option<usize>
    requires full { length store.old ≡ STORE }
    requires sound { sound_buffer buffer store.old ≡ true }
    ensures fits { ForSome result (λ kept. kept ≤ STORE) }
    ensures goes_on { (offered : List ℕ) → room_made buffer result offered store.new ≡ written buffer offered store.old }
{
    if buffer.taken {
        let at = 1 + settle_at(&store[1..buffer.filled]);
        store.copy_within(at..buffer.filled, 0);
        return Some(buffer.filled - at);
    }
    if buffer.filled != MAX_FRAME_LEN {
        return Some(buffer.filled);
    }
    if holds_frame(store) {
        return None;
    }
    Some(0)
}

// Takes what fits of the offered bytes, behind the kept ones.
fn accept(offered: &[u8], store: &mut [u8], kept: usize) -> Written
    requires { (length store.old ≡ STORE) × (kept ≤ STORE) }
    ensures { (result, store.new) ≡ accepted kept offered.now store.old }
{
    let count = offered.len().min(MAX_FRAME_LEN - kept);
    let _ = store::copy_in(&offered[..count], store, kept);
    Written {
        answer: Ok(count),
        buffer: KissBuffer {
            filled: kept + count,
            taken: false,
        },
    }
}
