// The fields of a link setup frame's type, set with the CRC renewed, as m17core's protocol.rs has them.
#![tactic(auto, using(crate::proofs::Frames::set_bits), unfolding(lsf_layout::specs::Bits::with_bits_at))]

ghost use Rattle.std.specs.Prelude.{◌≡◌, ℕ, ◌+◌, ◌*◌, ◌/◌, ◌%◌, ◌<◌};
ghost use Rattle.lsf_layout.specs.Bits.{mode_bits, data_type_bits, encryption_bits, channel_bits};
ghost use Rattle.lsf_layout.specs.Bytes.{type_field};
ghost use Rattle.lsf_bytes.specs.Bytes.{retyped};
ghost use Rattle.protocol.specs.Kinds.{mode_number, data_type_number, encryption_number};
ghost use Rattle.lsf_setters.specs.Lsf.{with_field};

use lsf_bytes::{lsf_type, with_type};
use protocol::{DataType, EncryptionType, LsfFrame, Mode};

// The setters are the Rust's names, one line each over what they share.
pub fn set_mode(lsf: LsfFrame, mode: Mode) -> LsfFrame
    ensures { result.0 ≡ with_field mode_bits (mode_number mode) lsf.0 }
{
    with_number(lsf, 1, 2, u16::from(mode))
}

pub fn set_data_type(lsf: LsfFrame, kind: DataType) -> LsfFrame
    ensures { result.0 ≡ with_field data_type_bits (data_type_number kind) lsf.0 }
{
    with_number(lsf, 2, 8, u16::from(kind))
}

pub fn set_encryption_type(lsf: LsfFrame, kind: EncryptionType) -> LsfFrame
    ensures { result.0 ≡ with_field encryption_bits (encryption_number kind) lsf.0 }
{
    with_number(lsf, 8, 32, u16::from(kind))
}

// The number's low four bits are taken.
pub fn set_channel_access_number(lsf: LsfFrame, number: u8) -> LsfFrame
    ensures { result.0 ≡ with_field channel_bits (number % 16) lsf.0 }
{
    with_number(lsf, 128, 2048, u16::from(number % 16))
}

// The frame with that number in a run of its type's bits, of which the lowest counts `low` and the first above them `above`.
fn with_number(lsf: LsfFrame, low: u16, above: u16, number: u16) -> LsfFrame
    requires { (0 < low) × (0 < above) × ((t : ℕ) → t < 65536 → t / above * above + number * low + t % low < 65536) }
    ensures { result.0 ≡ retyped (type_field lsf.0 / above * above + number * low + type_field lsf.0 % low) lsf.0 }
{
    let t = lsf_type(lsf.0);
    LsfFrame(with_type(lsf.0, t / above * above + number * low + t % low))
}
