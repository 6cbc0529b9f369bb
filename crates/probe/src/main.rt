// Answers requests, one call each, for the run against the Rust in compare/: the CRC, KISS frames and the reader; `probe_lsf` has the LSF and the LICH. A request is
// eight bytes (kind, length of the room, what the room's bytes are counted up from, lengths of two arguments; lengths are two bytes, high byte first) and the two
// arguments. An answer is document 01's number, a value of two bytes and the whole room, so that bytes that were not written are seen too. A request that is not there
// whole ends the program.
#![tactic(auto)]

ghost use Rattle.std.specs.Prelude.{◌<◌, ◌≤◌, ◌≡◌, IfSome, length};

use kiss_calls::KissBuffer;
use protocol::StreamFrame;
use std::io;
use std::io::{Read, Write};

// What an answer tells: a value, which is less than 65536 since rooms are shorter, or document 01's number of what is refused.
type Told = Result<usize, u8>;

// The head of a request that was all there. The arguments are the body's bytes up to `first`, and from there to `end`.
#[derive(Clone, Copy)]
struct Request {
    kind: u8,
    from: u8,
    room: usize,
    first: usize,
    end: usize,
}

// Body and room hold whatever lengths of two bytes ask for, so that no length needs a test.
fn main(rt: HostRuntime) {
    let mut source = rt.stdin();
    let mut target = rt.stdout();
    let mut body = [0u8; 131072];
    let mut room = [0u8; 65536];
    let mut store = [0u8; 1713];
    let mut reader = KissBuffer::new();
    for _ in 0..u64::MAX {
        let Some(after) = turn(
            reader,
            &mut source,
            &mut target,
            &mut body,
            &mut room,
            &mut store,
        ) else {
            return;
        };
        reader = after;
    }
}

// The reader after the next request, if it was all there and its answer was written.
fn turn<R: Read, W: Write>(
    mut reader: KissBuffer,
    source: &mut R,
    target: &mut W,
    body: &mut [u8; 131072],
    room: &mut [u8; 65536],
    store: &mut [u8; 1713],
) -> Option<KissBuffer> {
    let r = requested(source, body)?;
    let room = &mut room[..r.room];
    count_up(r.from, room);
    let (a, b) = body[..r.end].split_at(r.first);
    let answer = ask(r.kind, a, b, &mut reader, room, store);
    wrote(target, answer, room).ok()?;
    Some(reader)
}

// Nothing is read behind a head that is cut.
fn requested<R: Read>(source: &mut R, body: &mut [u8]) -> Option<Request>
    requires { length body.old ≡ 131072 }
    ensures { IfSome result (λ r. (r.room < 65536) × (r.first ≤ r.end) × (r.end < 131072)) }
{
    let mut head = [0u8; 8];
    source.read_exact(&mut head).ok()?;
    let first = two(head, 4);
    let end = first + two(head, 6);
    source.read_exact(&mut body[..end]).ok()?;
    Some(Request {
        kind: head[0],
        from: head[3],
        room: two(head, 1),
        first,
        end,
    })
}

fn two(head: [u8; 8], i: usize) -> usize
    requires { i < 7 }
    ensures { result < 65536 }
{
    usize::from(u16::from_be_bytes([head[i], head[i + 1]]))
}

fn count_up(from: u8, room: &mut [u8]) {
    let mut next = from;
    for byte in room.iter_mut() {
        *byte = next;
        next = next.wrapping_add(1);
    }
}

fn wrote<W: Write>(target: &mut W, answer: Told, room: &[u8]) -> io::Result<()> {
    let (number, value) = match answer {
        Ok(value) => (0, value),
        Err(number) => (number, 0),
    };
    let [high, low] = ((value % 65536) as u16).to_be_bytes();
    target.write_all(&[number, high, low])?;
    target.write_all(room)
}

// Kinds are numbers, as they come in the request.
fn ask(
    kind: u8,
    a: &[u8],
    b: &[u8],
    reader: &mut KissBuffer,
    room: &mut [u8],
    store: &mut [u8; 1713],
) -> Told {
    match kind {
        0..=7 => build(kind, a, b, room),
        8..=15 => bytes(kind, a, room),
        _ => read_step(kind, a, reader, room, store),
    }
}

fn build(kind: u8, a: &[u8], b: &[u8], room: &mut [u8]) -> Told {
    let port = at(a, 0);
    let value = at(a, 1);
    let built = match kind {
        1 => kiss_build::new_basic_packet(a, room),
        2 => kiss_build::new_full_packet(a, b, room),
        3 => kiss_build_stream::new_stream_setup(a, room),
        4 => kiss_build_stream::new_stream_data(stream_frame(a), room),
        5 => kiss_settings::new_set_tx_delay(port, value, room),
        6 => kiss_settings::new_set_p(port, value, room),
        _ => kiss_settings::set_full_duplex(port, value != 0, room),
    };
    Ok(built?)
}

// Laid out as the body of event 07.
fn stream_frame(a: &[u8]) -> StreamFrame {
    StreamFrame {
        lich_idx: at(a, 0),
        lich_part: a
            .get(1..6)
            .and_then(|part| part.try_into().ok())
            .unwrap_or([0u8; 5]),
        frame_number: u16::from_be_bytes([at(a, 6), at(a, 7)]),
        end_of_stream: at(a, 8) != 0,
        stream_data: a
            .get(9..)
            .and_then(|data| data.try_into().ok())
            .unwrap_or([0u8; 16]),
    }
}

fn at(s: &[u8], i: usize) -> u8 {
    s.get(i).copied().unwrap_or(0)
}

fn bytes(kind: u8, a: &[u8], room: &mut [u8]) -> Told {
    match kind {
        8 => Ok(usize::from(crc::m17_crc(a))),
        9 => Ok(usize::from(kiss_header::port(a)?)),
        10 => Ok(usize::from(u8::from(kiss_header::command(a)?))),
        11 => Ok(kiss_read::decode_payload(a, room)?),
        12 => Ok(kiss_escape::escape(a, room)?),
        13 => Ok(kiss_unescape::unescape(a, room)),
        // The one value that no room bounds.
        _ => Ok(kiss_length::escaped_len(a) % 65536),
    }
}

// A new reader, a write, the next frame (into the room) or 0 where there is none, or the reader's record as one number with its store in the room.
fn read_step(
    kind: u8,
    a: &[u8],
    reader: &mut KissBuffer,
    room: &mut [u8],
    store: &mut [u8; 1713],
) -> Told {
    match kind {
        32 => {
            *reader = KissBuffer::new();
            Ok(0)
        }
        33 => {
            let w = kiss_buffer::write(*reader, a, store);
            *reader = w.buffer;
            Ok(w.answer?)
        }
        34 => {
            let next = kiss_next::next_frame(*reader, store);
            *reader = next.buffer;
            // A room that the frame does not fit stays: `copy_in` and not `copy_from_slice`, as requests ask for any room.
            let _ = store::copy_in(kiss_sound::frame(next.buffer, store), room, 0);
            Ok(next.answer?.unwrap_or(0))
        }
        _ => {
            let _ = store::copy_in(store, room, 0);
            Ok(reader.filled % 32768 * 2 + usize::from(reader.taken))
        }
    }
}
