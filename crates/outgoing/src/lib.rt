// The message to the host that waits to be read, as m17core's tnc.rs has it: a KISS frame at the start of a store of 1,713 bytes that the caller lends.
#![tactic(auto)]

ghost use Rattle.std.specs.Prelude.{◌≡◌};
ghost use Rattle.outgoing.specs.Message.{no_message, sound_message};

use room::LentError;

// How long the message is, and how much of it has been read. No message: both are 0.
#[repr(C)]
#[derive(Clone, Copy)]
pub struct Outgoing {
    pub len: usize,
    pub read: usize,
}

#[derive(Clone, Copy)]
pub struct HostRead {
    // How many bytes were read.
    pub answer: Result<usize, LentError>,
    pub outgoing: Outgoing,
}

pub const MAX_FRAME_LEN: usize = 1713;

impl Outgoing {
    pub fn new() -> Self
        ensures { result ≡ no_message }
    {
        Outgoing { len: 0, read: 0 }
    }

    pub fn is_sound(self) -> bool
        ensures { result ≡ sound_message self }
    {
        self.read <= self.len && self.len <= MAX_FRAME_LEN
    }
}
