// Sixteen bytes read at once, as one block, so that the compiler makes one vector step of it.
#![tactic(auto)]

ghost use Rattle.std.specs.Prelude.{◌≡◌};
ghost use Rattle.blocks.specs.Block.{loaded};

// The sixteen bytes of s from index at on. Where s has not as many there, sixteen zero bytes.
pub fn load16(s: &[u8], at: usize) -> [u8; 16]
    ensures { result ≡ loaded s.now at }
{
    // Nobody calls it now that `as_chunks` gives the blocks. By `get` and `first_chunk` it left one test more in a loop that did, 131 ns for 113 on 855 bytes.
    let mut t = [0; 16];
    if at <= s.len() && 16 <= s.len() - at {
        t.copy_from_slice(&s[at..at + 16]);
    }
    t
}
