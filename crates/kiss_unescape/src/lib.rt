// Unescaping of a frame's content, as m17core's kiss.rs has it. What it gives is defined beside escaping, in `kiss_layout`.
#![tactic(auto)]

ghost use Rattle.std.specs.Prelude.{◌≡◌, ◌+◌, ◌≤◌, eqb, length, drop};
ghost use Rattle.choice.specs.Pick.{pick};
ghost use Rattle.kiss_layout.specs.Escape.{FEND, FESC, TFEND};
ghost use Rattle.kiss_layout.specs.Unescape.{codes, unescaped};
ghost use Rattle.kiss_unescape.specs.Lays.{lays};

use block_none::none_of;
use block_store::store16;
use kiss_layout::{FEND, FESC, TFEND, TFESC};

// Writes the content src, unescaped, at the start of dst, as far as both go, and returns how many bytes of dst it counted.
// Sixteen bytes are done one by one before whole blocks are tried again, so that a content full of FESC costs little more than without blocks.
pub fn unescape(src: &[u8], dst: &mut [u8]) -> usize
    ensures { (result, dst.new) ≡ unescaped src.now dst.old }
{
    // counted by hand: FESC takes two bytes of src for one of dst, and the two may stand in two blocks, so no `for` is plainer
    let mut i = 0;
    let mut j = 0;
    let mut stop = 0;
    loop {
        if stop <= i {
            let n = put_plain(&src[i..], dst, j);
            i += n;
            j += n;
            if src.len() <= i {
                return j;
            }
            if dst.len() <= j {
                return j;
            }
            // as far as src and dst go, so that neither end is tested at each byte
            stop = i + (src.len() - i).min(dst.len() - j).min(16);
            continue;
        }
        let at = j;
        let b = src[i];
        i += 1;
        j += 1;
        if b == FESC {
            if src.len() <= i {
                return at;
            }
            let e = src[i];
            i += 1;
            if (e == TFEND) | (e == TFESC) {
                dst[at] = meant(e);
            }
        } else {
            dst[at] = b;
        }
    }
}

// The byte that FESC before TFEND or TFESC stands for: a choice between two numbers, of which the compiler makes no branch.
fn meant(e: u8) -> u8
    ensures { result ≡ pick (eqb e TFEND) FEND FESC }
{
    if e == TFEND { FEND } else { FESC }
}

// Copies the blocks at the front of src, as far as they have no FESC, into dst from index to on, as far as both go, and returns how many bytes that are.
// What is then left to lay is what was left before.
fn put_plain(src: &[u8], dst: &mut [u8], to: usize) -> usize
    requires { to ≤ length dst.old }
    ensures { (result ≤ length src.now) × (to + result ≤ length dst.old) × (result + length (codes (drop result src.now)) ≡ length (codes src.now)) × (lays dst.new (to + result) (codes (drop result src.now)) ≡ lays dst.old to (codes src.now)) }
{
    let mut n = 0;
    for block in src.as_chunks::<16>().0 {
        if dst.len() - (to + n) < 16 {
            return n;
        }
        if !none_of(*block, FESC) {
            return n;
        }
        store16(*block, dst, to + n);
        n += 16;
    }
    n
}
