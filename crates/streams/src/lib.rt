// The queue of stream frames that wait to be sent, and the LSF that goes before them, as m17core's tnc.rs has them; `stream_push` takes them in, `stream_read` reads
// them. They stand in a store of 230 bytes that the caller lends: eight frames of 25 bytes, then the LSF. Bytes at fixed places, since an array of frames that hold
// arrays is costly to pass by value, and to prove.
#![tactic(auto)]

ghost use Rattle.std.specs.Prelude.{◌≡◌};
ghost use Rattle.streams.specs.Queue.{sound_queue, empty_queue};

use kiss_layout::PushError;
use protocol::ModulatorFrame;
use room::LentError;

pub const STREAM_STORE_LEN: usize = 230;

pub const PLACES: usize = 8;

pub const FRAME_LEN: usize = 25;

// Where the LSF that waits stands.
pub const LSF_AT: usize = 200;

#[repr(C)]
#[derive(Clone, Copy)]
pub struct StreamQueue {
    // The place that the next frame is put into, and that of the first one that waits. Equal places are an empty queue, or a full one.
    pub next: usize,
    pub curr: usize,
    pub full: bool,
    // An LSF waits to be sent.
    pub pending: bool,
}

// The answers of pushes and reads are declared here and not in `stream_push` and `stream_read`, since the definitions and promises of specs/ speak of them too.
#[derive(Clone, Copy, Debug, PartialEq, Eq)]
pub enum StreamPush {
    Queued,
    LsfPending,
    Ignored,
}

#[derive(Clone, Copy)]
pub struct StreamPushed {
    pub answer: Result<StreamPush, PushError>,
    pub queue: StreamQueue,
}

// The LSF that waits or the next frame, where there is one.
#[derive(Clone, Copy)]
pub struct StreamRead {
    pub answer: Result<Option<ModulatorFrame>, LentError>,
    pub queue: StreamQueue,
}

impl StreamQueue {
    // Places below 8, and a full flag only with equal places.
    pub fn is_sound(self) -> bool
        ensures { result ≡ sound_queue self }
    {
        ring::is_sound::<PLACES>(self.next, self.curr, self.full)
    }

    // No frame waits.
    pub fn is_empty(self) -> bool
        ensures { result ≡ empty_queue self }
    {
        ring::is_empty(self.next, self.curr, self.full)
    }
}
