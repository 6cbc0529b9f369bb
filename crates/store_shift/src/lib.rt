// Bytes moved in a store that the caller lends.
#![tactic(auto)]

ghost use Rattle.std.specs.Prelude.{◌≡◌};
ghost use Rattle.room.specs.Room.{shifted};

use room::NoRoom;

// Moves the bytes from index from up to index to to the start of dst. Where dst has no such bytes, it is left as it is.
pub fn shift(dst: &mut [u8], from: usize, to: usize) -> Result<(), NoRoom>
    ensures { (result, dst.new) ≡ shifted dst.old from to }
{
    if dst.len() < to {
        return Err(NoRoom);
    }
    if to < from {
        return Err(NoRoom);
    }
    // Bytes that stand at the start stay there: moved onto themselves they would go one by one.
    if from != 0 {
        dst.copy_within(from..to, 0);
    }
    Ok(())
}
