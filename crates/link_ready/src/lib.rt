// What a write from the host asks before it touches anything: whether its stores have their lengths.
#![tactic(auto)]

ghost use Rattle.std.specs.Prelude.{◌≡◌};
ghost use Rattle.link_ready.specs.Ready.{link_fits};

use host_record::stores_fit;
use kiss_calls::MAX_FRAME_LEN;

// The test of all lengths, which two calls make.
pub fn link_fits(reader: usize, packets: usize, streams: usize) -> bool
    ensures { result ≡ link_fits reader packets streams }
{
    reader == MAX_FRAME_LEN && stores_fit(packets, streams)
}
