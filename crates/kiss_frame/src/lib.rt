// One frame of KISS, as m17core's kiss.rs builds it: a header and a content, escaped, between two FEND. Each builder goes through here.
#![tactic(auto)]

ghost use Rattle.std.specs.Prelude.{◌≡◌, ◌++◌, ◌+◌, ◌≤◌, leb, length};
ghost use Rattle.std.proofs.lemmas.List.Edits.{sets};
ghost use Rattle.kiss_layout.specs.Escape.{esc};
ghost use Rattle.kiss_layout.specs.Frame.{frame, put_frame};

use kiss_escape::escape;
use kiss_layout::{BuildError, FEND};
use kiss_length::escaped_len;

// Writes FEND, the header, first and second escaped, FEND at the start of room. Where they do not fit, room is left as it is.
pub fn put_frame(
    header: u8,
    first: &[u8],
    second: &[u8],
    room: &mut [u8],
) -> Result<usize, BuildError>
    ensures { (result, room.new) ≡ put_frame (frame header (first.now ++ second.now)) room.old }
{
    if frame_fits(first, second, room.len()) {
        room[0] = FEND;
        room[1] = header;
        let at = 2 + put_content(first, room, 2);
        let end = at + put_content(second, room, at);
        room[end] = FEND;
        return Ok(end + 1);
    }
    Err(BuildError::NoRoom)
}

// Whether a frame of both contents fits into a room of len bytes. Twice the contents are room enough whatever they are, so there nothing is counted. What the
// frame takes is never added up: of contents of any length that is more than a usize holds.
fn frame_fits(first: &[u8], second: &[u8], len: usize) -> bool
    ensures { result ≡ leb (length (esc first.now) + length (esc second.now) + 3) len }
{
    if len < 3 {
        return false;
    }
    if first.len() + second.len() <= (len - 3) / 2 {
        return true;
    }
    let n = escaped_len(first);
    if len - 3 < n {
        return false;
    }
    escaped_len(second) <= len - 3 - n
}

// Writes src, escaped, into room from index at on, which has the room for it, and returns how many bytes that took.
fn put_content(src: &[u8], room: &mut [u8], at: usize) -> usize
    requires { at + length (esc src.now) ≤ length room.old }
    ensures { (result ≡ length (esc src.now)) × (room.new ≡ sets room.old at (esc src.now)) }
{
    escape(src, &mut room[at..]).unwrap()
}
