// Where a line ends, and what is printed where the input ends.
#![tactic(auto)]

ghost use Rattle.std.specs.Prelude.{◌≡◌};
ghost use Rattle.event_answer.specs.Answer.{keyed};
ghost use Rattle.event_end.specs.End.{place_after, last_line};

use event_answer::EventBox;
use event_line::LineError;

// The place behind a line that was to be written from index at on.
pub fn place_after(line: Result<usize, LineError>, at: usize) -> usize
    ensures { result ≡ place_after line at }
{
    line.unwrap_or(at)
}

// What is printed where no whole event stands at the start of the rest: nothing at the end of the input, else the kind with 9. Answers how many bytes that are.
pub fn last_line(before: EventBox, rest: &[u8], dst: &mut [u8]) -> usize
    ensures { (result, dst.new) ≡ last_line rest.now (keyed before.tnc) dst.old }
{
    if rest.len() == 0 {
        return 0;
    }
    let refused = event_answer::refuse(before);
    let line = event_line::put_line(rest[0], refused.number, refused.ptt, b"", dst, 0);
    place_after(line, 0)
}
