// Sixteen bytes put at once, as one block, so that the compiler makes one vector step of it.
#![tactic(auto)]

ghost use Rattle.std.specs.Prelude.{◌≡◌};
ghost use Rattle.blocks.specs.Block.{stored};

// Puts t into dst from index at on. Where it does not fit, dst is left as it is.
pub fn store16(t: [u8; 16], dst: &mut [u8], at: usize)
    ensures { dst.new ≡ stored t dst.old at }
{
    // By indices: once what `get_mut` lends is given back, a proof knows dst's length and not its bytes.
    if at <= dst.len() && 16 <= dst.len() - at {
        dst[at..at + 16].copy_from_slice(&t);
    }
}
