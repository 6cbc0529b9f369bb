// The frames of M17 as m17core's protocol.rs has them: the link setup frame (LSF), stream and packet frames. No code but what gives kinds and their numbers: what is asked of an LSF is in `lsf_frame` and `lsf_fields`, what is set in `lsf_setters`, the LICH collection in `lich`.
#![tactic(auto)]

mod lsf;

pub use lsf::{DataType, EncryptionType, LsfFrame, Mode, UnknownKind};

#[derive(Debug, Clone, Copy, PartialEq, Eq)]
pub struct StreamFrame {
    // Which LICH segment is given in this frame, from 0 to 5.
    pub lich_idx: u8,
    pub lich_part: [u8; 5],
    // From 0 to 32,767.
    pub frame_number: u16,
    pub end_of_stream: bool,
    pub stream_data: [u8; 16],
}

#[derive(Debug, Clone, Copy, PartialEq, Eq)]
pub enum PacketFrameCounter {
    // A frame that is not the last: its index, from 0 to 31. All 25 bytes count.
    Frame { index: usize },
    // The last frame: how many of its bytes count, at most 25.
    FinalFrame { payload_len: usize },
}

#[derive(Debug, Clone, Copy, PartialEq, Eq)]
pub struct PacketFrame {
    pub payload: [u8; 25],
    pub counter: PacketFrameCounter,
}

// What a demodulator hears.
#[derive(Debug, Clone, Copy, PartialEq, Eq)]
pub enum Frame {
    Lsf(LsfFrame),
    Stream(StreamFrame),
    Packet(PacketFrame),
}

// What a modulator is given, as m17core's modem.rs has it.
#[derive(Debug, Clone, Copy, PartialEq, Eq)]
pub enum ModulatorFrame {
    // In units of 10 ms.
    Preamble { tx_delay: u8 },
    Lsf(LsfFrame),
    Stream(StreamFrame),
    Packet(PacketFrame),
    EndOfTransmission,
}
