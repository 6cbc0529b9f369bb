// What the calls that a host links answer: a `Result` as C gets it, document 01's number with a count beside it.
#![tactic(auto)]

ghost use Rattle.std.specs.Prelude.{◌≡◌, MatchResult};
ghost use Rattle.kiss_calls.specs.Calls.{write_number, taken_by};
ghost use Rattle.link_numbers.specs.Numbers.{counted, told, escape_count, build_count, next_count};

use kiss_calls::{KissBuffer, Written};
use kiss_layout::BuildError;
use room::{LentError, NoRoom};

// A number of document 01, and how many bytes where it is 0.
// C has no Result: the two stand side by side.
#[repr(C)]
#[derive(Clone, Copy)]
pub struct Counted {
    pub number: u8,
    pub count: usize,
}

// What a call of the reader answers: how many bytes were taken, or how long the frame at the store's start is, 0 where there is none; and the record, which the host keeps
// beside its store of 1,713 bytes. A new one is 0 and false.
#[repr(C)]
#[derive(Clone, Copy)]
pub struct ReaderAnswer {
    pub number: u8,
    pub count: usize,
    pub reader: KissBuffer,
}

// These four are `count_of` and `reader_answer` at the types that occur, where each has an equation.
pub fn escape_count(escaped: Result<usize, NoRoom>) -> Counted
    ensures { result ≡ escape_count escaped }
{
    count_of(escaped)
}

pub fn build_count(built: Result<usize, BuildError>) -> Counted
    ensures { result ≡ build_count built }
{
    count_of(built)
}

pub fn write_count(written: Written) -> ReaderAnswer
    ensures { result ≡ told (write_number written.answer) (taken_by written.answer) written.buffer }
{
    reader_answer(written.answer, written.buffer)
}

// Where there is no frame its length is 0.
pub fn next_count(answer: Result<Option<usize>, LentError>, after: KissBuffer) -> ReaderAnswer
    ensures { result ≡ next_count answer after }
{
    let found = answer.map(|len| len.unwrap_or(0));
    reader_answer(found, after)
}

// These two take any error type that has a number. There is no equation then: its own `Into` says the number.
pub fn count_of<E: Into<u8>>(answer: Result<usize, E>) -> Counted
    ensures { MatchResult answer (λ n. result ≡ counted 0 n) (λ error. E.converts error result.number × (result.count ≡ 0)) }
{
    match answer {
        Ok(count) => Counted { number: 0, count },
        Err(error) => Counted {
            number: error.into(),
            count: 0,
        },
    }
}

pub fn reader_answer<E: Into<u8>>(answer: Result<usize, E>, reader: KissBuffer) -> ReaderAnswer
    ensures { MatchResult answer (λ n. result ≡ told 0 n reader) (λ error. E.converts error result.number × (result.count ≡ 0) × (result.reader ≡ reader)) }
{
    let (number, count) = match answer {
        Ok(count) => (0, count),
        Err(error) => (error.into(), 0),
    };
    ReaderAnswer {
        number,
        count,
        reader,
    }
}

#[cfg(test)]
mod tests {
    use super::{count_of, reader_answer};
    use kiss_calls::{KissBuffer, WriteError};
    use kiss_layout::{BuildError, KissError};
    use room::{LentError, NoRoom};

    // The numbers are those of document 01's "Answer numbers".
    #[test]
    fn counts_of_any_answer(rt: HostRuntime) {
        let escaped: Result<usize, NoRoom> = Ok(855);
        let no_room: Result<usize, NoRoom> = Err(NoRoom);
        let too_big: Result<usize, BuildError> = Err(BuildError::PayloadTooBig);
        let no_header: Result<usize, KissError> = Err(KissError::MalformedKissFrame);
        for (counted, number, count) in [
            (count_of(escaped), 0, 855),
            (count_of(no_room), 7, 0),
            (count_of(too_big), 1, 0),
            (count_of(no_header), 3, 0),
        ] {
            assert_eq!(rt; counted.number, number);
            assert_eq!(rt; counted.count, count);
        }
    }

    // The record comes back as it was handed over, beside a count and beside a refusal.
    #[test]
    fn records_of_any_answer(rt: HostRuntime) {
        let reader = KissBuffer {
            filled: 40,
            taken: true,
        };
        let taken: Result<usize, WriteError> = Ok(12);
        let full: Result<usize, WriteError> = Err(WriteError::Full);
        let unsound: Result<usize, LentError> = Err(LentError::OutOfBounds);
        for (answer, number, count) in [
            (reader_answer(taken, reader), 0, 12),
            (reader_answer(full, reader), 5, 0),
            (reader_answer(unsound, reader), 8, 0),
        ] {
            assert_eq!(rt; answer.number, number);
            assert_eq!(rt; answer.count, count);
            assert_eq!(rt; answer.reader.filled, 40);
            assert!(rt; answer.reader.taken);
        }
    }
}
