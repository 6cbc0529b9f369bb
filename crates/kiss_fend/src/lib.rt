// The scans for FEND that every reader of KISS bytes goes by.
#![tactic(auto)]

ghost use Rattle.std.specs.Prelude.{◌≡◌};
ghost use Rattle.kiss_layout.specs.Scan.{is_fend, not_fend, run_of};

use block_none::none_of;
use kiss_layout::FEND;

// How many FENDs stand at the front.
pub fn leading_fends(s: &[u8]) -> usize
    ensures { result ≡ run_of is_fend s.now }
{
    s.iter().take_while(|b| **b == FEND).count()
}

// How many bytes stand before the first FEND, all of them where there is none. Blocks without one are passed sixteen bytes at a time.
pub fn to_fend(s: &[u8]) -> usize
    ensures { result ≡ run_of not_fend s.now }
{
    let (blocks, _) = s.as_chunks::<16>();
    let passed = 16 * blocks.iter().take_while(|t| none_of(**t, FEND)).count();
    passed + s[passed..].iter().take_while(|b| **b != FEND).count()
}
