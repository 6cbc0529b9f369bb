// An LSF's bytes: its type field, its meta field, and the bytes with another type and the CRC renewed.
#![tactic(auto, unfolding(lsf_layout::specs::Bytes::type_field, crate::specs::Bytes::meta))]

ghost use Rattle.std.specs.Prelude.{◌≡◌};
ghost use Rattle.lsf_layout.specs.Bytes.{type_field};
ghost use Rattle.lsf_bytes.specs.Bytes.{meta, retyped};

use protocol::LsfFrame;

pub fn lsf_type(bytes: [u8; 30]) -> u16
    ensures { result ≡ type_field bytes }
{
    u16::from_be_bytes([bytes[12], bytes[13]])
}

pub fn meta(lsf: LsfFrame) -> [u8; 14]
    ensures { result ≡ meta lsf.0 }
{
    lsf.0[14..28].try_into().unwrap()
}

// The bytes with that type field, and the CRC renewed.
pub fn with_type(mut bytes: [u8; 30], bits: u16) -> [u8; 30]
    ensures { result ≡ retyped bits bytes }
{
    bytes[12..14].copy_from_slice(&bits.to_be_bytes());
    let crc = crc::m17_crc(&bytes[..28]);
    bytes[28..].copy_from_slice(&crc.to_be_bytes());
    bytes
}
