// The LICH collection as m17core's protocol.rs has it: what has been heard of an LSF that comes in six segments of five bytes, one with each stream frame.
#![tactic(auto)]

ghost use Rattle.std.specs.Prelude.{◌≡◌};
ghost use Rattle.lich.specs.Lich.{new_collection, valid_segments, segment_set, assembled, lich_number};

// Six segments of five bytes, and a mask whose bit i is set once segment i has been heard. A mask of 64 or more is no state of a collection.
#[derive(Clone, Copy)]
pub struct LichCollection {
    pub segments: [u8; 30],
    pub mask: u8,
}

#[derive(Clone, Copy, Debug, PartialEq, Eq)]
pub enum LichError {
    IndexOver5,
    OutOfBounds,
}

#[derive(Clone, Copy)]
pub struct SegmentSet {
    pub answer: Result<(), LichError>,
    pub collection: LichCollection,
}

// A mask has a bit for each segment.
const MASKS: u8 = 64;

impl From<LichError> for u8 {
    ghost from_gives = { λ error n. n ≡ lich_number error };

    fn from(error: LichError) -> u8 {
        match error {
            LichError::IndexOver5 => 6,
            LichError::OutOfBounds => 8,
        }
    }
}

impl LichCollection {
    pub fn new() -> Self
        ensures { result ≡ new_collection }
    {
        LichCollection {
            segments: [0u8; 30],
            mask: 0,
        }
    }

    // How many of the six segments have been heard.
    pub fn valid_segments(self) -> Result<usize, LichError>
        ensures { result ≡ valid_segments self }
    {
        if MASKS <= self.mask {
            return Err(LichError::OutOfBounds);
        }
        Ok(self.mask.count_ones() as usize)
    }

    pub fn set_segment(mut self, counter: u8, part: [u8; 5]) -> SegmentSet
        ensures { result ≡ segment_set self counter part }
    {
        if MASKS <= self.mask {
            return SegmentSet {
                answer: Err(LichError::OutOfBounds),
                collection: self,
            };
        }
        if 5 < counter {
            return SegmentSet {
                answer: Err(LichError::IndexOver5),
                collection: self,
            };
        }
        let at = 5 * counter as usize;
        self.segments[at..at + 5].copy_from_slice(&part);
        self.mask |= 1 << counter;
        SegmentSet {
            answer: Ok(()),
            collection: self,
        }
    }

    // The LSF, once all six segments have been heard.
    pub fn try_assemble(self) -> Result<Option<[u8; 30]>, LichError>
        ensures { result ≡ assembled self }
    {
        let heard = self.valid_segments()?;
        Ok((heard == 6).then_some(self.segments))
    }
}
