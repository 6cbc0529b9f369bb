// What KISS frames are, without code: the special bytes, the ports, the commands and what the functions of framing answer. specs/ says what escaping, frames, reading and
// building mean, and proofs/ that what is built reads back. The functions stand in crates above, so that whoever only speaks of frames does not reach them.
#![tactic(auto)]

ghost use Rattle.std.specs.Prelude.{◌≡◌, Err};
ghost use Rattle.kiss_layout.specs.Frame.{built_number};
ghost use Rattle.kiss_layout.specs.Read.{command_number, command_for, kiss_number};

pub const FEND: u8 = 0xC0;

pub const FESC: u8 = 0xDB;

pub const TFEND: u8 = 0xDC;

pub const TFESC: u8 = 0xDD;

pub const PORT_PACKET_BASIC: u8 = 0;

pub const PORT_PACKET_FULL: u8 = 1;

pub const PORT_STREAM: u8 = 2;

#[derive(Clone, Copy, Debug, PartialEq, Eq)]
pub enum KissCommand {
    DataFrame,
    TxDelay,
    P,
    FullDuplex,
}

impl From<KissCommand> for u8 {
    ghost from_gives = { λ command n. n ≡ command_number command };

    fn from(command: KissCommand) -> u8 {
        match command {
            KissCommand::DataFrame => 0,
            KissCommand::TxDelay => 1,
            KissCommand::P => 2,
            KissCommand::FullDuplex => 5,
        }
    }
}

// A nibble as a command.
impl TryFrom<u8> for KissCommand {
    type Error = KissError;

    ghost try_from_gives = { λ value answer. answer ≡ command_for value };

    #[tactic(auto, using(crate::proofs::Commands::unsupported), unfolding(crate::specs::Read::command_for, choice::specs::Pick::pick))]
    fn try_from(value: u8) -> Result<Self, KissError> {
        match value {
            0 => Ok(KissCommand::DataFrame),
            1 => Ok(KissCommand::TxDelay),
            2 => Ok(KissCommand::P),
            5 => Ok(KissCommand::FullDuplex),
            3..=4 | 6..=255 => Err(KissError::UnsupportedKissCommand),
        }
    }
}

// Why a frame is not read: it has no header, or no end behind its payload; its command is none of the four.
#[derive(Clone, Copy, Debug, PartialEq, Eq)]
pub enum KissError {
    MalformedKissFrame,
    UnsupportedKissCommand,
}

impl From<KissError> for u8 {
    ghost from_gives = { λ error n. n ≡ kiss_number error };

    fn from(error: KissError) -> u8 {
        match error {
            KissError::MalformedKissFrame => 3,
            KissError::UnsupportedKissCommand => 4,
        }
    }
}

// Why a builder wrote no frame.
#[derive(Clone, Copy, Debug, PartialEq, Eq)]
pub enum BuildError {
    PayloadTooBig,
    LsfWrongSize,
    OutOfRange,
    NoRoom,
}

impl From<BuildError> for u8 {
    ghost from_gives = { λ error n. n ≡ built_number (Err error) };

    fn from(error: BuildError) -> u8 {
        match error {
            BuildError::PayloadTooBig => 1,
            BuildError::LsfWrongSize => 2,
            BuildError::OutOfRange => 6,
            BuildError::NoRoom => 7,
        }
    }
}

// Why a queue does not look at a frame.
#[derive(Clone, Copy, Debug, PartialEq, Eq)]
pub enum PushError {
    MalformedKissFrame,
    WrongStore,
    OutOfBounds,
}
