// The reader's scans, each over the bytes that count of its store: where they settle, and whether a whole frame stands there.
#![tactic(auto)]

ghost use Rattle.std.specs.Prelude.{◌≡◌};
ghost use Rattle.kiss_reader.specs.Reader.{settle, front, is_some};
ghost use Rattle.kiss_reader.specs.Inside.{settle_at};
ghost use Rattle.kiss_reader.specs.Front.{length_of};

use kiss_fend::{leading_fends, to_fend};

// Where the last FEND of the first run of FENDs stands; the length where there is no FEND.
#[tactic(auto, using(kiss_layout::proofs::Scans::run_within))]
pub fn settle_at(h: &[u8]) -> usize
    ensures { result ≡ settle_at h.now }
{
    let first = to_fend(h);
    first + leading_fends(&h[first..]).saturating_sub(1)
}

// The length of the frame at the front, where a FEND closes one.
#[tactic(auto, using(kiss_layout::proofs::Scans::run_within, kiss_reader::proofs::Fronts::front_missing))]
pub fn front_len(h: &[u8]) -> Option<usize>
    ensures { result ≡ length_of (front h.now) }
{
    let [_, behind @ ..] = h else {
        return None;
    };
    let n = to_fend(behind);
    (n < behind.len()).then_some(n + 2)
}

#[tactic(auto, using(kiss_reader::proofs::Indices::settle_within))]
pub fn holds_frame(h: &[u8]) -> bool
    ensures { result ≡ is_some (front (settle h.now)) }
{
    front_len(&h[settle_at(h)..]).is_some()
}
