// The event program's input: what stands at a place of it.
#![tactic(auto)]

ghost use Rattle.std.specs.Prelude.{◌≡◌};
ghost use Rattle.event_input.specs.Events.{body_len, next_at};

// What stands at a place of the input. The body of a whole event goes from start up to next.
#[derive(Clone, Copy, Debug, PartialEq, Eq)]
pub enum Next {
    Complete { kind: u8, start: usize, next: usize },
    Cut(u8),
    Unknown(u8),
    End,
}

const FIRST_KIND: u8 = 1;

const LAST_KIND: u8 = 9;

// How many bytes follow a kind. A kind that is not known has none.
// Numbers and no enum: a kind is a byte of the input, and C hands in any (`event_step::apply`).
fn body_len(kind: u8) -> usize
    ensures { result ≡ body_len kind }
{
    match kind {
        1 => 1,
        2 => 1,
        3 => 8,
        4 => 4,
        5 => 30,
        6 => 26,
        7 => 25,
        9 => 1,
        _ => 0,
    }
}

pub fn next_event(src: &[u8], at: usize) -> Next
    ensures { result ≡ next_at src.now at }
{
    if src.len() <= at {
        return Next::End;
    }
    let kind = src[at];
    if kind < FIRST_KIND || LAST_KIND < kind {
        return Next::Unknown(kind);
    }
    let start = at + 1;
    let len = body_len(kind);
    if src.len() - start < len {
        return Next::Cut(kind);
    }
    Next::Complete {
        kind,
        start,
        next: start + len,
    }
}
