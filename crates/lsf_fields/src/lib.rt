// The fields of a link setup frame that only a host asks for, as m17core's protocol.rs reads them. The mode is read in `lsf_frame`, the meta field in `lsf_bytes`.
#![tactic(auto, unfolding(lsf_layout::specs::Lsf::field_of, lsf_layout::specs::Bits::bits_at))]

ghost use Rattle.std.specs.Prelude.{◌≡◌};
ghost use Rattle.lsf_layout.specs.Bits.{data_type_bits, encryption_bits, channel_bits};
ghost use Rattle.lsf_layout.specs.Lsf.{field_of};
ghost use Rattle.protocol.specs.Kinds.{data_type_of, encryption_of};

use lsf_bytes::lsf_type;
pub use lsf_bytes::meta;
use protocol::{DataType, EncryptionType, LsfFrame};

// The getters are the Rust's names, one line each over the conversions of `protocol`.
pub fn data_type(lsf: LsfFrame) -> DataType
    ensures { result ≡ data_type_of (field_of data_type_bits lsf.0) }
{
    DataType::try_from(lsf_type(lsf.0) / 2 % 4).unwrap()
}

pub fn encryption_type(lsf: LsfFrame) -> EncryptionType
    ensures { result ≡ encryption_of (field_of encryption_bits lsf.0) }
{
    EncryptionType::try_from(lsf_type(lsf.0) / 8 % 4).unwrap()
}

// `as`, since `u8::try_from(..).unwrap()` is longer and says no more.
pub fn channel_access_number(lsf: LsfFrame) -> u8
    ensures { result ≡ field_of channel_bits lsf.0 }
{
    (lsf_type(lsf.0) / 128 % 16) as u8
}
