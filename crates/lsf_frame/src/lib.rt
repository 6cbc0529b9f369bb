// What the TNC asks of a link setup frame, as m17core's LsfFrame has it: the one of port 0, whether its CRC is right, and its mode.
#![tactic(auto)]

ghost use Rattle.std.specs.Prelude.{◌≡◌};
ghost use Rattle.crc.specs.Crc.{crc_of};
ghost use Rattle.protocol.specs.Lsf.{field_of, mode_bits};
ghost use Rattle.protocol.specs.Kinds.{mode_of};
ghost use Rattle.protocol.specs.Basic.{basic_lsf};

use protocol::{LsfFrame, Mode};

// Destination broadcast, source M17RT-PKT, packet mode, data.
const PACKET_BASIC: [u8; 30] = [
    0xFF, 0xFF, 0xFF, 0xFF, 0xFF, 0xFF, 0x78, 0xE9, 0x59, 0x14, 0x2C, 0xED, 0x00, 0x02, 0, 0, 0, 0,
    0, 0, 0, 0, 0, 0, 0, 0, 0, 0, 0x0C, 0x5E,
];

// The LSF that goes on the air before a packet of port 0.
pub fn packet_basic() -> LsfFrame
    ensures { result.0 ≡ basic_lsf }
{
    LsfFrame(PACKET_BASIC)
}

// 0 for a frame that is sound.
pub fn check_crc(lsf: LsfFrame) -> u16
    ensures { result ≡ crc_of lsf.0 }
{
    crc::m17_crc(&lsf.0)
}

// Byte 13 is the low byte of the type, and the mode its lowest bit.
pub fn mode(lsf: LsfFrame) -> Mode
    ensures { result ≡ mode_of (field_of mode_bits lsf.0) }
{
    Mode::try_from(u16::from(lsf.0[13] % 2)).unwrap()
}
