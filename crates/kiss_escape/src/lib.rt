// Escaping, as m17core's kiss.rs has it: FEND and FESC never stand in a frame's content as themselves.
#![tactic(auto)]

ghost use Rattle.std.specs.Prelude.{◌≡◌, ◌+◌, ◌≤◌, eqb, length};
ghost use Rattle.std.proofs.lemmas.List.Edits.{sets};
ghost use Rattle.choice.specs.Pick.{pick};
ghost use Rattle.room.specs.Room.{over};
ghost use Rattle.kiss_layout.specs.Escape.{FEND, TFEND, TFESC, esc, escaped};

use block_none::none_of;
use block_store::store16;
use kiss_layout::{FEND, FESC, TFEND, TFESC};
use kiss_length::escaped_len;
use room::NoRoom;

// Writes src, escaped, at the start of dst. Where it does not fit, dst is left as it is.
pub fn escape(src: &[u8], dst: &mut [u8]) -> Result<usize, NoRoom>
    ensures { (result, dst.new) ≡ escaped src.now dst.old }
{
    // twice its bytes is room enough for whatever src is, so nothing is counted
    if dst.len() / 2 < src.len() {
        if dst.len() < escaped_len(src) {
            return Err(NoRoom);
        }
    }
    let n = put_escaped(src, dst);
    Ok(n)
}

// Writes src, escaped, at the start of dst, which has the room for it, and returns how many bytes that took. Sixteen bytes are tried at a time.
fn put_escaped(src: &[u8], dst: &mut [u8]) -> usize
    requires { length (esc src.now) ≤ length dst.old }
    ensures { (result ≡ length (esc src.now)) × (dst.new ≡ over (esc src.now) dst.old) }
{
    let (blocks, rest) = src.as_chunks::<16>();
    let mut j = 0;
    for block in blocks {
        j = put_block(block, dst, j);
    }
    put_each(rest, dst, j)
}

// Writes a block, escaped, into dst from index to on, and returns the place behind it: as it is where none of its bytes is to be escaped.
fn put_block(block: &[u8; 16], dst: &mut [u8], to: usize) -> usize
    requires { to + length (esc block.now) ≤ length dst.old }
    ensures { (result ≡ to + length (esc block.now)) × (dst.new ≡ sets dst.old to (esc block.now)) }
{
    if none_of(*block, FEND) & none_of(*block, FESC) {
        store16(*block, dst, to);
        return to + 16;
    }
    put_each(block, dst, to)
}

// The same of any bytes, one by one.
fn put_each(src: &[u8], dst: &mut [u8], to: usize) -> usize
    requires { to + length (esc src.now) ≤ length dst.old }
    ensures { (result ≡ to + length (esc src.now)) × (dst.new ≡ sets dst.old to (esc src.now)) }
{
    let mut j = to;
    for b in src {
        if (*b == FEND) | (*b == FESC) {
            dst[j] = FESC;
            dst[j + 1] = code(*b);
            j += 2;
        } else {
            dst[j] = *b;
            j += 1;
        }
    }
    j
}

// The byte behind FESC that stands for FEND or FESC: a choice between two numbers, of which the compiler makes no branch.
// Not shared with `kiss_unescape::meant`: one line each, with other bytes.
fn code(b: u8) -> u8
    ensures { result ≡ pick (eqb b FEND) TFEND TFESC }
{
    if b == FEND { TFEND } else { TFESC }
}
