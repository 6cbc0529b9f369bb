// The payload of a KISS frame, as m17core's kiss.rs decodes it. A frame is any slice: only its own bytes are looked at.
#![tactic(auto)]

ghost use Rattle.std.specs.Prelude.{◌≡◌};
ghost use Rattle.kiss_layout.specs.Read.{decoded};

use kiss_fend::{leading_fends, to_fend};
use kiss_layout::KissError;
use kiss_unescape::unescape;

// Writes what stands between the header and the next FEND, unescaped, at the start of out.
pub fn decode_payload(frame: &[u8], out: &mut [u8]) -> Result<usize, KissError>
    ensures { (result, out.new) ≡ decoded frame.now out.old }
{
    let behind = frame
        .get(leading_fends(frame) + 1..)
        .ok_or(KissError::MalformedKissFrame)?;
    let len = to_fend(behind);
    if behind.len() <= len {
        return Err(KissError::MalformedKissFrame);
    }
    Ok(unescape(&behind[..len], out))
}
