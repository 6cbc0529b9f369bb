// How long bytes are once they are escaped: counted first where a room might not hold them.
#![tactic(auto)]

ghost use Rattle.std.specs.Prelude.{◌≡◌, length};
ghost use Rattle.kiss_layout.specs.Escape.{esc};

use kiss_layout::{FEND, FESC};

// How many bytes src takes once it is escaped.
pub fn escaped_len(src: &[u8]) -> usize
    ensures { result ≡ length (esc src.now) }
{
    src.iter()
        .map(|b| 1 + usize::from((*b == FEND) | (*b == FESC)))
        .sum()
}
