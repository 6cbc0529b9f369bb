// The builders of KISS frames that set a TNC's parameters, as m17core's kiss.rs has them. Each writes a frame of one byte at the start of a room that it is lent.
#![tactic(auto, using(kiss_layout::proofs::Commands::command_small), unfolding(kiss_layout::specs::Build::built, kiss_layout::specs::Build::refusal, crate::specs::Setting::setting, choice::specs::Pick::pick))]

ghost use Rattle.std.specs.Prelude.{◌≡◌};
ghost use Rattle.kiss_layout.specs.Build.{built, set_tx_delay, persistence, set_full_duplex};
ghost use Rattle.kiss_settings.specs.Setting.{setting};

use kiss_frame::put_frame;
use kiss_layout::{BuildError, KissCommand};

// The three builders are the Rust's names, one line each over what they share.
pub fn new_set_tx_delay(port: u8, units: u8, room: &mut [u8]) -> Result<usize, BuildError>
    ensures { (result, room.new) ≡ built (set_tx_delay port units) room.old }
{
    put_setting(port, KissCommand::TxDelay, units, room)
}

pub fn new_set_p(port: u8, units: u8, room: &mut [u8]) -> Result<usize, BuildError>
    ensures { (result, room.new) ≡ built (persistence port units) room.old }
{
    put_setting(port, KissCommand::P, units, room)
}

pub fn set_full_duplex(port: u8, full_duplex: bool, room: &mut [u8]) -> Result<usize, BuildError>
    ensures { (result, room.new) ≡ built (set_full_duplex port full_duplex) room.old }
{
    put_setting(port, KissCommand::FullDuplex, u8::from(full_duplex), room)
}

// A frame of one byte for any of the 16 ports. The byte may be FEND or FESC, so it is escaped as any content is.
fn put_setting(
    port: u8,
    command: KissCommand,
    value: u8,
    room: &mut [u8],
) -> Result<usize, BuildError>
    ensures { (result, room.new) ≡ setting port command value room.old }
{
    if 15 < port {
        return Err(BuildError::OutOfRange);
    }
    put_frame(port * 16 + u8::from(command), b"", &[value], room)
}
