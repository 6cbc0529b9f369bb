// The header of a KISS frame, as m17core's kiss.rs reads it: port and command. A frame is any slice: only its own bytes are looked at.
#![tactic(auto)]

ghost use Rattle.std.specs.Prelude.{◌≡◌, ok_or, slice_get};
ghost use Rattle.kiss_layout.specs.declared.KissError.TheVariants.{MalformedKissFrame};
ghost use Rattle.kiss_layout.specs.Scan.{after_fends};
ghost use Rattle.kiss_layout.specs.Read.{port_read, command_read};

use kiss_fend::leading_fends;
use kiss_layout::{KissCommand, KissError};

// The frame's port. Only 0, 1 and 2 mean something to the TNC.
#[tactic(auto, using(crate::proofs::Halves::port_err, crate::proofs::Halves::port_ok))]
pub fn port(frame: &[u8]) -> Result<u8, KissError>
    ensures { result ≡ port_read frame.now }
{
    Ok(header(frame)? / 16)
}

#[tactic(auto, using(crate::proofs::Halves::command_err, crate::proofs::Halves::command_ok))]
pub fn command(frame: &[u8]) -> Result<KissCommand, KissError>
    ensures { result ≡ command_read frame.now }
{
    KissCommand::try_from(header(frame)? % 16)
}

// The first byte that is not FEND.
fn header(frame: &[u8]) -> Result<u8, KissError>
    ensures { result ≡ ok_or (slice_get (after_fends frame.now) 0) MalformedKissFrame }
{
    frame
        .get(leading_fends(frame))
        .copied()
        .ok_or(KissError::MalformedKissFrame)
}
