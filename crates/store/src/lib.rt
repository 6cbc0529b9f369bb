// Bytes put into a store that the caller lends.
#![tactic(auto)]

ghost use Rattle.std.specs.Prelude.{◌≡◌, ◌+◌, ◌≤◌, length};
ghost use Rattle.std.proofs.lemmas.List.Edits.{sets};
ghost use Rattle.room.specs.Room.{copied};

use room::NoRoom;

// Puts src into dst from index at on. Where it does not fit, dst is left as it is.
pub fn copy_in(src: &[u8], dst: &mut [u8], at: usize) -> Result<(), NoRoom>
    ensures { (result, dst.new) ≡ copied src.now dst.old at }
{
    if dst.len() < at {
        return Err(NoRoom);
    }
    if dst.len() - at < src.len() {
        return Err(NoRoom);
    }
    put(src, dst, at);
    Ok(())
}

// A loop and no `copy_from_slice`: that calls memmove, which an archive for C would then want from outside.
fn put(src: &[u8], dst: &mut [u8], at: usize)
    requires { at + length src.now ≤ length dst.old }
    ensures { dst.new ≡ sets dst.old at src.now }
{
    let mut i = 0;
    while i < src.len() {
        dst[at + i] = src[i];
        i += 1;
    }
}
