// The reader's record and what its calls answer. specs/ says what each call does to record and store, and what is promised over any run of calls; the calls are in
// `kiss_buffer`, `kiss_next` and `kiss_sound`.
#![tactic(auto)]

ghost use Rattle.std.specs.Prelude.{◌≡◌, Err};
ghost use Rattle.kiss_reader.specs.Reader.{new_reader};
ghost use Rattle.kiss_calls.specs.Calls.{buffer_of, write_number};

use room::LentError;

// Room for the longest frame that a builder writes: 2 * 855 bytes of content, a header and two FENDs.
pub const MAX_FRAME_LEN: usize = 1713;

#[repr(C)]
#[derive(Clone, Copy)]
pub struct KissBuffer {
    // How many bytes of the store count.
    pub filled: usize,
    // The frame at the store's start was handed out: the next call drops it.
    pub taken: bool,
}

// Why a write took nothing: the store is full and holds a whole frame, or what was lent is not a reader's.
#[derive(Clone, Copy, Debug, PartialEq, Eq)]
pub enum WriteError {
    Full,
    WrongStore,
    OutOfBounds,
}

impl From<WriteError> for u8 {
    ghost from_gives = { λ error n. n ≡ write_number (Err error) };

    fn from(error: WriteError) -> u8 {
        match error {
            WriteError::Full => 5,
            WriteError::WrongStore => 7,
            WriteError::OutOfBounds => 8,
        }
    }
}

// How many of the offered bytes were taken.
#[derive(Clone, Copy)]
pub struct Written {
    pub answer: Result<usize, WriteError>,
    pub buffer: KissBuffer,
}

// The length of the frame that stands whole at the store's start, where one does.
// A record of its own, as each call's: a field named after what it holds says more than a shared one.
#[derive(Clone, Copy)]
pub struct NextFrame {
    pub answer: Result<Option<usize>, LentError>,
    pub buffer: KissBuffer,
}

impl KissBuffer {
    pub fn new() -> Self
        ensures { result ≡ buffer_of new_reader }
    {
        KissBuffer {
            filled: 0,
            taken: false,
        }
    }
}
