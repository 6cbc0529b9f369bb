// The reader's call that hands out frames.
#![tactic(auto)]

ghost use Rattle.std.specs.Prelude.{◌≡◌};
ghost use Rattle.kiss_calls.specs.Calls.{next_frame};

use kiss_calls::{KissBuffer, MAX_FRAME_LEN, NextFrame};
use kiss_scan::{front_len, settle_at};
use kiss_sound::is_sound;
use room::LentError;

// The next whole frame is brought to the store's start: a frame that was handed out goes, and what stands before the last FEND of the first run of them. It stays
// there until the next call, which drops it.
#[tactic(auto, using(kiss_calls::proofs::Cases::filled_within, kiss_calls::proofs::Cases::passed_within, kiss_calls::proofs::Cases::settles_within, kiss_calls::proofs::Cases::next_wrong))]
pub fn next_frame(buffer: KissBuffer, store: &mut [u8]) -> NextFrame
    ensures { (result, store.new) ≡ next_frame buffer store.old }
{
    if store.len() != MAX_FRAME_LEN {
        return NextFrame {
            answer: Err(LentError::WrongStore),
            buffer,
        };
    }
    if !is_sound(buffer, store) {
        return NextFrame {
            answer: Err(LentError::OutOfBounds),
            buffer,
        };
    }
    let from = usize::from(buffer.taken);
    let at = from + settle_at(&store[from..buffer.filled]);
    let len = front_len(&store[at..buffer.filled]);
    // Bytes that stand at the start stay there: moved onto themselves they would go one by one.
    if at != 0 {
        store.copy_within(at..buffer.filled, 0);
    }
    NextFrame {
        answer: Ok(len),
        buffer: KissBuffer {
            filled: buffer.filled - at,
            taken: len.is_some(),
        },
    }
}
