// The channel, as m17core's tnc.rs has it: clock, carrier, a check that waits, and duplex. `channel_access` says whether one may send.
#![tactic(auto)]

ghost use Rattle.std.specs.Prelude.{◌≡◌, Ok, Err};
ghost use Rattle.choice.specs.Pick.{pick};
ghost use Rattle.channel.specs.declared.ChannelError.TheVariants.{OutOfBounds};
ghost use Rattle.channel.specs.Access.{new_channel, sound_channel, is_set, clock_set, carrier_set, duplex_set, channel_number};

#[repr(C)]
#[derive(Clone, Copy)]
pub struct Channel {
    // Now, counted in samples.
    pub clock: u64,
    // The demodulator hears somebody.
    pub carrier: bool,
    // A check is pending, at the clock's time check.
    pub waits: bool,
    pub check: u64,
    pub duplex: bool,
}

#[derive(Clone, Copy, Debug, PartialEq, Eq)]
pub enum ChannelError {
    OutOfRange,
    OutOfBounds,
}

#[derive(Clone, Copy)]
pub struct ChannelSet {
    pub answer: Result<(), ChannelError>,
    pub channel: Channel,
}

// What `channel_access` answers is declared here, since the definitions and promises of specs/ speak of it too.
#[derive(Clone, Copy, Debug, PartialEq, Eq)]
pub enum Access {
    Sends,
    Waits,
}

#[derive(Clone, Copy)]
pub struct Accessed {
    pub answer: Result<Access, ChannelError>,
    pub channel: Channel,
}

// The latest time that a clock may show, and the time between two checks.
const LAST: u64 = 4611686018427387904;

pub const SLOT: u64 = 1920;

impl From<ChannelError> for u8 {
    ghost from_gives = { λ error n. n ≡ channel_number error };

    fn from(error: ChannelError) -> u8 {
        match error {
            ChannelError::OutOfRange => 6,
            ChannelError::OutOfBounds => 8,
        }
    }
}

impl Channel {
    pub fn new() -> Self
        ensures { result ≡ new_channel }
    {
        Channel {
            clock: 0,
            carrier: false,
            waits: false,
            check: 0,
            duplex: false,
        }
    }

    pub fn is_sound(self) -> bool
        ensures { result ≡ sound_channel self }
    {
        self.clock <= LAST && self.check <= LAST + SLOT
    }

    pub fn set_now(self, now_samples: u64) -> ChannelSet
        ensures { result ≡ clock_set self now_samples }
    {
        if self.is_sound() && LAST < now_samples {
            return ChannelSet {
                answer: Err(ChannelError::OutOfRange),
                channel: self,
            };
        }
        self.set_to(Channel {
            clock: now_samples,
            ..self
        })
    }

    // The setters are the Rust's names: each tests, and sets its own field.
    pub fn set_data_carrier_detect(self, dcd: bool) -> ChannelSet
        ensures { result ≡ carrier_set self dcd }
    {
        self.set_to(Channel {
            carrier: dcd,
            ..self
        })
    }

    pub fn set_full_duplex(self, full_duplex: bool) -> ChannelSet
        ensures { result ≡ duplex_set self full_duplex }
    {
        self.set_to(Channel {
            duplex: full_duplex,
            ..self
        })
    }

    // A record out of its bounds stays.
    fn set_to(self, channel: Channel) -> ChannelSet
        ensures { result ≡ pick (sound_channel self) (is_set (Ok tt) channel) (is_set (Err OutOfBounds) self) }
    {
        if !self.is_sound() {
            return ChannelSet {
                answer: Err(ChannelError::OutOfBounds),
                channel: self,
            };
        }
        ChannelSet {
            answer: Ok(()),
            channel,
        }
    }
}
