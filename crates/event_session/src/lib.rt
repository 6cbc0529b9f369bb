// What a run holds of its input between blocks, and what follows a block: what is held still, more input, or the end.
#![tactic(auto)]

ghost use Rattle.std.specs.Prelude.{ℕ, ◌≤◌, false, ◌≡◌, length, take};
ghost use Rattle.event_input.specs.declared.Next.TheVariants.{Unknown};
ghost use Rattle.event_input.specs.Events.{next_at};

use event_answer::EventBox;
use event_input::Next;
use std::io::{Read, Write};

// The bytes of the input that are held and not used stand from index from up to index held.
#[derive(Clone, Copy)]
pub struct Session {
    pub station: EventBox,
    pub from: usize,
    pub held: usize,
    pub going: bool,
}

// A block used some bytes, and the rest of what is held begins at index at. Where it used some, the next block goes on there; where no event stood whole, more input is read,
// or the end is told. A kind that is not known ends the run, and so do indexes that do not stand in the input.
pub fn follow<R: Read, W: Write>(
    station: EventBox,
    source: &mut R,
    target: &mut W,
    input: &mut [u8; 65536],
    used: usize,
    at: usize,
    held: usize,
) -> Session
    ensures from_le_held { (result.from ≤ result.held) × (result.held ≤ 65536) }
    ensures by_index { (k : ℕ) → used ≡ 0 → next_at (take held input.old) at ≡ Unknown k → result.going ≡ false }
{
    let stopped = Session {
        station,
        from: 0,
        held: 0,
        going: false,
    };
    if 65536 < held {
        return stopped;
    }
    if held < at {
        return stopped;
    }
    if used > 0 {
        return Session {
            station,
            from: at,
            held,
            going: true,
        };
    }
    let left: &[u8] = input;
    let next = event_input::next_event(&left[..held], at);
    store_shift::shift(input, at, held).unwrap();
    let kept = held - at;
    let more = fill(source, input, kept, next);
    if more == kept {
        let rest: &[u8] = input;
        finish(station, target, &rest[..kept]);
        return stopped;
    }
    Session {
        station,
        from: 0,
        held: more,
        going: true,
    }
}

// Reads once behind the bytes that are held, and answers how many are held then. A read that fails gives no bytes. Behind a kind that is not known
// nothing is read.
fn fill<R: Read>(source: &mut R, input: &mut [u8], held: usize, next: Next) -> usize
    requires { held ≤ length input.old }
    ensures lower_bound { (held ≤ result) × (result ≤ length input.old) }
    ensures by_index { (k : ℕ) → next ≡ Unknown k → result ≡ held }
{
    if let Next::Unknown(_) = next {
        return held;
    }
    let room = &mut input[held..];
    held + source.read(room).unwrap_or(0)
}

// What is printed at the end of the input, or at a kind that is not known.
fn finish<W: Write>(station: EventBox, target: &mut W, rest: &[u8]) {
    let mut line = [0u8; 8];
    let count = event_end::last_line(station, rest, &mut line);
    if count <= 8 {
        let _ = target.write_all(&line[..count]);
    }
}
