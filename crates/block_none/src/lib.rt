// Sixteen bytes tested at once, as one block, so that the compiler makes one vector step of it.
#![tactic(auto)]

ghost use Rattle.std.specs.Prelude.{◌≡◌};
ghost use Rattle.blocks.specs.Block.{without};

// Whether b stands nowhere in t. All are looked at, with no test on the way, so that the sixteen are compared together.
pub fn none_of(t: [u8; 16], b: u8) -> bool
    ensures { result ≡ without b t }
{
    t.iter().fold(true, |clear, x| clear & (*x != b))
}
