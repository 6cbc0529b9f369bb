// Whether a record and its store stand for a reader, which each of the reader's calls asks first, and the frame that such a reader handed out.
#![tactic(auto)]

ghost use Rattle.std.specs.Prelude.{◌≡◌, eqb, length};
ghost use Rattle.choice.specs.Pick.{and};
ghost use Rattle.kiss_reader.specs.Reader.{STORE};
ghost use Rattle.kiss_reader.specs.Front.{stands_first};
ghost use Rattle.kiss_calls.specs.Calls.{sound_buffer, frame_in};

use kiss_calls::{KissBuffer, MAX_FRAME_LEN};
use kiss_fend::to_fend;
use kiss_layout::FEND;
use kiss_scan::front_len;

// The store has its length, and where a frame was handed out, it stands first.
pub fn is_sound(buffer: KissBuffer, store: &[u8]) -> bool
    ensures { result ≡ and (eqb (length store.now) STORE) (sound_buffer buffer store.now) }
{
    if store.len() != MAX_FRAME_LEN || MAX_FRAME_LEN < buffer.filled {
        return false;
    }
    !buffer.taken || stands_first(&store[..buffer.filled])
}

// A FEND, another byte, and a FEND behind it.
#[tactic(auto, using(kiss_reader::proofs::Fronts::stands_short, kiss_reader::proofs::Fronts::stands_unopened, kiss_reader::proofs::Fronts::stands_empty, kiss_reader::proofs::Fronts::stands_closed))]
fn stands_first(held: &[u8]) -> bool
    ensures { result ≡ stands_first held.now }
{
    match held {
        [FEND, first, rest @ ..] => *first != FEND && to_fend(rest) < rest.len(),
        _ => false,
    }
}

// The frame that next_frame handed out, FEND to FEND, as the part of the store that it stands in; no byte where there is none.
pub fn frame(buffer: KissBuffer, store: &[u8]) -> &[u8]
    ensures { result.now ≡ frame_in buffer store.now }
{
    if !is_sound(buffer, store) || !buffer.taken {
        return &[];
    }
    let len = front_len(&store[..buffer.filled]).unwrap_or(0);
    &store[..len]
}
