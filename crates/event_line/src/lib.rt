// The line that an event prints.
#![tactic(auto)]

ghost use Rattle.std.specs.Prelude.{◌≡◌, ◌+◌, ◌<◌, ◌≤◌, length};
ghost use Rattle.event_line.specs.Line.{hex_digit, tail_of, stored, fits, written};

const BLANK: u8 = 0x20;

const NEWLINE: u8 = 0x0A;

const ZERO: u8 = 0x30;

const LETTER: u8 = 0x41;

// Why a line is not written.
#[derive(Clone, Copy, Debug, PartialEq, Eq)]
pub enum LineError {
    NumberOver9,
    NoRoom,
}

// Puts the line of an event into dst from index at on. Where it is not written dst is left as it is.
pub fn put_line(
    kind: u8,
    number: u8,
    ptt: bool,
    bytes: &[u8],
    dst: &mut [u8],
    at: usize,
) -> Result<usize, LineError>
    ensures { (result, dst.new) ≡ written kind number ptt bytes.now dst.old at }
{
    if 9 < number {
        return Err(LineError::NumberOver9);
    }
    if dst.len() < at {
        return Err(LineError::NoRoom);
    }
    if !line_fits(bytes.len(), dst.len() - at) {
        return Err(LineError::NoRoom);
    }
    let head = [
        hex_digit(kind / 16),
        hex_digit(kind % 16),
        BLANK,
        ZERO + number,
        BLANK,
        ZERO + (ptt as u8),
    ];
    dst[at..at + 6].copy_from_slice(&head);
    Ok(write_tail(bytes, dst, at + 6))
}

// Without bytes a line has 7, else 8 and two digits for each byte. Divided here, since twice a length may be no number.
fn line_fits(count: usize, room: usize) -> bool
    ensures { result ≡ fits count room }
{
    if count == 0 {
        return 7 <= room;
    }
    if room < 8 {
        return false;
    }
    count <= (room - 8) / 2
}

fn hex_digit(nibble: u8) -> u8
    requires { nibble < 16 }
    ensures { result ≡ hex_digit nibble }
{
    if nibble < 10 {
        ZERO + nibble
    } else {
        LETTER + (nibble - 10)
    }
}

// What follows PTT.
fn write_tail(src: &[u8], dst: &mut [u8], at: usize) -> usize
    requires { at + length (tail_of src.now) ≤ length dst.old }
    ensures { (result, dst.new) ≡ stored (tail_of src.now) at dst.old }
{
    if src.len() == 0 {
        dst[at] = NEWLINE;
        return at + 1;
    }
    dst[at] = BLANK;
    let mut j = at + 1;
    for b in src {
        dst[j] = hex_digit(b / 16);
        dst[j + 1] = hex_digit(b % 16);
        j += 2;
    }
    dst[j] = NEWLINE;
    j + 1
}
