// The link setup frame: 30 bytes, of which 12 and 13 are the type field and the last two the CRC. Its CRC and mode are read in `lsf_frame`, its other fields in `lsf_fields`, and set in `lsf_setters`.
ghost use Rattle.std.specs.Prelude.{◌≡◌};
ghost use Rattle.protocol.specs.Kinds.{Numbered, mode_number, data_type_number, encryption_number};

#[derive(Debug, Clone, Copy, PartialEq, Eq)]
pub enum Mode {
    Packet,
    Stream,
}

#[derive(Debug, Clone, Copy, PartialEq, Eq)]
pub enum DataType {
    Reserved,
    Data,
    Voice,
    VoiceAndData,
}

#[derive(Debug, Clone, Copy, PartialEq, Eq)]
pub enum EncryptionType {
    None,
    Scrambler,
    Aes,
    Other,
}

// A number that stands for no kind.
#[derive(Debug, Clone, Copy, PartialEq, Eq)]
pub struct UnknownKind(pub u16);

impl From<Mode> for u16 {
    ghost from_gives = { λ mode n. n ≡ mode_number mode };

    fn from(mode: Mode) -> u16 {
        match mode {
            Mode::Packet => 0,
            Mode::Stream => 1,
        }
    }
}

impl TryFrom<u16> for Mode {
    type Error = UnknownKind;

    ghost try_from_gives = { Numbered mode_number 2 };

    fn try_from(number: u16) -> Result<Mode, UnknownKind> {
        match number {
            0 => Ok(Mode::Packet),
            1 => Ok(Mode::Stream),
            _ => Err(UnknownKind(number)),
        }
    }
}

impl From<DataType> for u16 {
    ghost from_gives = { λ kind n. n ≡ data_type_number kind };

    fn from(kind: DataType) -> u16 {
        match kind {
            DataType::Reserved => 0,
            DataType::Data => 1,
            DataType::Voice => 2,
            DataType::VoiceAndData => 3,
        }
    }
}

impl TryFrom<u16> for DataType {
    type Error = UnknownKind;

    ghost try_from_gives = { Numbered data_type_number 4 };

    fn try_from(number: u16) -> Result<DataType, UnknownKind> {
        match number {
            0 => Ok(DataType::Reserved),
            1 => Ok(DataType::Data),
            2 => Ok(DataType::Voice),
            3 => Ok(DataType::VoiceAndData),
            _ => Err(UnknownKind(number)),
        }
    }
}

impl From<EncryptionType> for u16 {
    ghost from_gives = { λ kind n. n ≡ encryption_number kind };

    fn from(kind: EncryptionType) -> u16 {
        match kind {
            EncryptionType::None => 0,
            EncryptionType::Scrambler => 1,
            EncryptionType::Aes => 2,
            EncryptionType::Other => 3,
        }
    }
}

impl TryFrom<u16> for EncryptionType {
    type Error = UnknownKind;

    ghost try_from_gives = { Numbered encryption_number 4 };

    fn try_from(number: u16) -> Result<EncryptionType, UnknownKind> {
        match number {
            0 => Ok(EncryptionType::None),
            1 => Ok(EncryptionType::Scrambler),
            2 => Ok(EncryptionType::Aes),
            3 => Ok(EncryptionType::Other),
            _ => Err(UnknownKind(number)),
        }
    }
}

#[derive(Debug, Clone, Copy, PartialEq, Eq)]
pub struct LsfFrame(pub [u8; 30]);
