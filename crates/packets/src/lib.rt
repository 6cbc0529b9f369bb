// The packets that wait for transmission, as m17core's TNC queues them; `packet_basic` and `packet_full` take them in, `packet_read` cuts them into frames. A queue is a record of four places; the bytes of
// place k stand in a store that the caller lends, its LSF at 855 k and its data at 855 k + 30.
#![tactic(auto)]

ghost use Rattle.std.specs.Prelude.{◌≡◌};
ghost use Rattle.packets.specs.Queue.{sound_queue, is_empty};

use kiss_layout::PushError;
use protocol::ModulatorFrame;
use room::LentError;

// The bytes of a packet's data, type and CRC among them.
pub const MAX_DATA_LEN: usize = 825;

// A place's room: an LSF and a packet's data.
pub const ROOM_LEN: usize = 855;

pub const STORE_LEN: usize = 3420;

#[repr(C)]
#[derive(Clone, Copy)]
pub struct Place {
    // Its LSF is still to be sent.
    pub due: bool,
    pub len: usize,
    pub sent: usize,
}

#[repr(C)]
#[derive(Clone, Copy)]
pub struct PacketQueue {
    pub places: [Place; 4],
    // The place that the next packet goes into.
    pub next: usize,
    // The place that is sent, or will be next.
    pub curr: usize,
    // Where next and curr are the same place, whether all four wait or none.
    pub full: bool,
}

// The answers of pushes and reads are declared here and not in the crates of the calls, since the definitions and promises of specs/ speak of them too.
#[derive(Clone, Copy, Debug, PartialEq, Eq)]
pub enum Push {
    Queued,
    Ignored,
}

#[derive(Clone, Copy)]
pub struct Pushed {
    pub answer: Result<Push, PushError>,
    pub queue: PacketQueue,
}

// The next frame, where there is one.
// A record of its own, as `StreamRead`: a field named after what it holds says more than a shared one.
#[derive(Clone, Copy)]
pub struct PacketRead {
    pub answer: Result<Option<ModulatorFrame>, LentError>,
    pub queue: PacketQueue,
}

impl PacketQueue {
    // Within document 01's bounds.
    pub fn is_sound(self) -> bool
        ensures { result ≡ sound_queue self }
    {
        let places = self.places;
        places.iter().all(|place| (place.sent <= place.len) & (place.len <= MAX_DATA_LEN))
            & ring::is_sound::<4>(self.next, self.curr, self.full)
    }

    // No packet waits.
    pub fn is_empty(self) -> bool
        ensures { result ≡ is_empty self }
    {
        ring::is_empty(self.next, self.curr, self.full)
    }
}
