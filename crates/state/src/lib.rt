// What the TNC is doing, with the names of m17core's tnc.rs.
#![tactic(auto)]

ghost use Rattle.std.specs.Prelude.{◌≡◌};
ghost use Rattle.state.specs.State.{transmits, reception_of, transmission_of, sound_state};

// The bytes that go with a reception stand in a store of the caller's: the LSF, or its LICH segments, and the packet.
#[derive(Debug, Clone, Copy, PartialEq, Eq)]
pub enum State {
    Idle,
    // Segments of an LSF are collected: the mask of those that have been heard.
    RxAcquiringStream(u8),
    // The number of the stream frame that is expected next.
    RxStream(u16),
    // How many frames of a packet have come.
    RxPacket(usize),
    TxStream,
    TxStreamSentEndOfStream,
    TxPacket,
    TxEnding,
    // The clock's time at which the transmission is over.
    TxEndingAtTime(u64),
}

// What is being received, with the number that goes with it.
#[derive(Debug, Clone, Copy, PartialEq, Eq)]
pub enum Reception {
    Nothing,
    Acquiring(u8),
    Stream(u16),
    Packet(usize),
}

// What is being sent.
#[derive(Debug, Clone, Copy, PartialEq, Eq)]
pub enum Transmission {
    // Nothing is: PTT is off, whether something is being received or not.
    Receiving,
    Stream,
    // The stream's last frame was given; its end of transmission comes next.
    StreamSent,
    Packet,
    // The end of transmission was given.
    Ending,
}

impl State {
    // Is PTT on?
    pub fn ptt(self) -> bool
        ensures { result ≡ transmits self }
    {
        matches!(
            self,
            State::TxStream
                | State::TxStreamSentEndOfStream
                | State::TxPacket
                | State::TxEnding
                | State::TxEndingAtTime(_)
        )
    }

    pub fn reception(self) -> Reception
        ensures { result ≡ reception_of self }
    {
        match self {
            State::RxAcquiringStream(mask) => Reception::Acquiring(mask),
            State::RxStream(expected) => Reception::Stream(expected),
            State::RxPacket(count) => Reception::Packet(count),
            _ => Reception::Nothing,
        }
    }

    pub fn transmission(self) -> Transmission
        ensures { result ≡ transmission_of self }
    {
        match self {
            State::TxStream => Transmission::Stream,
            State::TxStreamSentEndOfStream => Transmission::StreamSent,
            State::TxPacket => Transmission::Packet,
            State::TxEnding | State::TxEndingAtTime(_) => Transmission::Ending,
            _ => Transmission::Receiving,
        }
    }

    pub fn is_sound(self) -> bool
        ensures { result ≡ sound_state self }
    {
        match self {
            State::RxAcquiringStream(mask) => mask < 64,
            State::RxPacket(count) => count <= 32,
            State::TxEndingAtTime(end) => end <= 4611686022722355200,
            _ => true,
        }
    }
}
