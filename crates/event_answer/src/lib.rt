// What an event works on, and what it answers.
#![tactic(auto)]

ghost use Rattle.std.specs.Prelude.{◌≡◌};
ghost use Rattle.std.specs.Result.{MatchResult};
ghost use Rattle.event_answer.specs.Answer.{answered, refused};

use channel::Channel;
use tnc_core::Tnc;

// What the events work on, beside the stores.
#[derive(Clone, Copy)]
pub struct EventBox {
    pub tnc: Tnc,
    pub channel: Channel,
}

#[derive(Clone, Copy)]
pub struct Applied {
    // A number and no Result: the line prints it, which of 08 is the frame's kind, and C gets it (`tnc_link::EventAnswer`).
    pub number: u8,
    // How many bytes of the room the event prints.
    pub count: usize,
    // PTT as after the event.
    pub ptt: bool,
    pub after: EventBox,
}

// How far the events of an input were taken: the place behind them, the place behind their lines, and what they left.
#[derive(Clone, Copy)]
pub struct Taken {
    pub used: usize,
    pub wrote: usize,
    pub after: EventBox,
}

// The most bytes that an event prints: 09 asks for at most 255.
pub const MOST_BYTES: usize = 255;

// The most bytes of a line: 8, and two digits for each of 255 bytes.
pub const LINE_LEN: usize = 518;

pub fn answer(number: u8, count: usize, tnc: Tnc, channel: Channel) -> Applied
    ensures { result ≡ answered number count tnc channel }
{
    Applied {
        number,
        count,
        // Of a state out of bounds there is no PTT to tell, and 0 is printed. From a new TNC there is none.
        ptt: tnc.ptt().unwrap_or(false),
        after: EventBox { tnc, channel },
    }
}

// Document 01's number of what a call of the TNC answers, whatever its kind of refusal. Of any error type there is no equation: its own `Into` says the number.
pub fn number_of<T: Drop, E: Into<u8>>(answer: Result<T, E>) -> u8
    ensures { MatchResult answer (λ _. result ≡ 0) (λ error. E.converts error result) }
{
    match answer {
        Ok(_) => 0,
        Err(error) => error.into(),
    }
}

// What is not done: answer 9, and nothing is changed.
pub fn refuse(before: EventBox) -> Applied
    ensures { result ≡ refused before }
{
    answer(9, 0, before.tnc, before.channel)
}

#[cfg(test)]
mod tests {
    use super::number_of;
    use channel::{Access, ChannelError};
    use kiss_calls::WriteError;
    use room::{LentError, NoRoom};

    // The numbers are those of document 01's "Answer numbers".
    #[test]
    fn each_kind_of_refusal_has_its_number(rt: HostRuntime) {
        let taken: Result<usize, WriteError> = Ok(3);
        let waits: Result<Access, ChannelError> = Ok(Access::Waits);
        let full: Result<usize, WriteError> = Err(WriteError::Full);
        let late: Result<(), ChannelError> = Err(ChannelError::OutOfRange);
        let short: Result<(), NoRoom> = Err(NoRoom);
        let unsound: Result<usize, LentError> = Err(LentError::OutOfBounds);
        assert_eq!(rt; number_of(taken), 0);
        assert_eq!(rt; number_of(waits), 0);
        assert_eq!(rt; number_of(full), 5);
        assert_eq!(rt; number_of(late), 6);
        assert_eq!(rt; number_of(short), 7);
        assert_eq!(rt; number_of(unsound), 8);
    }
}
