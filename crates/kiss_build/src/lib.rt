// The builders of KISS frames that carry packets, as m17core's kiss.rs has them. Each writes a frame at the start of a room that it is lent.
#![tactic(auto, unfolding(kiss_layout::specs::Build::built, kiss_layout::specs::Build::refusal, choice::specs::Pick::pick))]

ghost use Rattle.std.specs.Prelude.{◌≡◌};
ghost use Rattle.kiss_layout.specs.Build.{built, basic_packet, full_packet};

use kiss_frame::put_frame;
use kiss_layout::{BuildError, PORT_PACKET_BASIC, PORT_PACKET_FULL};

// Headers of data frames, whose command is 0.
const BASIC_HEADER: u8 = PORT_PACKET_BASIC * 16;

const FULL_HEADER: u8 = PORT_PACKET_FULL * 16;

// Request to transmit a packet of up to 822 bytes, to which the TNC adds the type and the CRC.
pub fn new_basic_packet(payload: &[u8], room: &mut [u8]) -> Result<usize, BuildError>
    ensures { (result, room.new) ≡ built (basic_packet payload.now) room.old }
{
    if 822 < payload.len() {
        return Err(BuildError::PayloadTooBig);
    }
    put_frame(BASIC_HEADER, b"", payload, room)
}

// Request to transmit a packet of up to 825 bytes, type and CRC among them, behind an LSF of the sender's.
pub fn new_full_packet(lsf: &[u8], packet: &[u8], room: &mut [u8]) -> Result<usize, BuildError>
    ensures { (result, room.new) ≡ built (full_packet lsf.now packet.now) room.old }
{
    if lsf.len() != 30 {
        return Err(BuildError::LsfWrongSize);
    }
    if 825 < packet.len() {
        return Err(BuildError::PayloadTooBig);
    }
    put_frame(FULL_HEADER, lsf, packet, room)
}
