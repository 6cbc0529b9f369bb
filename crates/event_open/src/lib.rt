// A run of events 01 whose bytes complete no frame: each byte is kept, its line is put, and nothing else changes, so that only the reader's store and its count are touched.
#![tactic(auto)]

ghost use Rattle.std.specs.Prelude.{◌≡◌, ◌≤◌, leb, length, drop};
ghost use Rattle.choice.specs.Pick.{and};
ghost use Rattle.event_open.specs.Inside.{opened, is_open, begins, kept_run, open_run};

use event_answer::{EventBox, LINE_LEN, Taken};
use kiss_layout::FEND;

// The kind of an event that brings a byte from the host.
const HOST: u8 = 1;

#[derive(Clone, Copy)]
pub struct Run {
    pub used: usize,
    pub wrote: usize,
    // How many bytes of the reader's store count.
    pub filled: usize,
}

// Takes the events of src from index at on, as far as they are such a run, with the lengths of the packets' and the streams' store.
pub fn take_open(
    mut before: EventBox,
    src: &[u8],
    at: usize,
    dst: &mut [u8],
    wrote: usize,
    reader: &mut [u8],
    packets: usize,
    streams: usize,
) -> Taken
    ensures { (result, dst.new, reader.new) ≡ open_run before src.now at dst.old wrote reader.old packets streams }
{
    if !may_run(before, src, at, dst.len(), wrote, reader, packets, streams) {
        return Taken {
            used: at,
            wrote,
            after: before,
        };
    }
    let run = keep_bytes(
        src,
        at,
        dst,
        wrote,
        reader,
        before.tnc.buffer.filled,
        before.tnc.ptt,
    );
    before.tnc.buffer.filled = run.filled;
    Taken {
        used: run.used,
        wrote: run.wrote,
        after: before,
    }
}

// The next event is of kind 01, its line has a place to begin, and a frame is open.
fn may_run(
    before: EventBox,
    src: &[u8],
    at: usize,
    room: usize,
    wrote: usize,
    reader: &[u8],
    packets: usize,
    streams: usize,
) -> bool
    ensures { result ≡ and (begins src.now at) (and (leb wrote room) (is_open before.tnc before.channel reader.now packets streams)) }
{
    if src.len() <= at || src[at] != HOST || room < wrote {
        return false;
    }
    is_open(before, reader, packets, streams)
}

// All is as a write asks it, and a frame is open.
fn is_open(before: EventBox, reader: &[u8], packets: usize, streams: usize) -> bool
    ensures { result ≡ is_open before.tnc before.channel reader.now packets streams }
{
    let buffer = before.tnc.buffer;
    if !link_ready::link_fits(reader.len(), packets, streams)
        || !before.tnc.is_sound()
        || !before.channel.is_sound()
        || buffer.taken
    {
        return false;
    }
    opened(&reader[..buffer.filled])
}

// A FEND, and none behind it.
fn opened(held: &[u8]) -> bool
    ensures { result ≡ opened held.now }
{
    let Some((first, rest)) = held.split_first() else {
        return false;
    };
    *first == FEND && kiss_fend::to_fend(rest) == rest.len()
}

fn keep_bytes(
    src: &[u8],
    at: usize,
    dst: &mut [u8],
    wrote: usize,
    reader: &mut [u8],
    filled: usize,
    on: bool,
) -> Run
    requires { (at ≤ length src.now) × (wrote ≤ length dst.old) × (filled ≤ length reader.old) }
    ensures { (result, dst.new, reader.new) ≡ kept_run (drop at src.now) at dst.old wrote reader.old filled on }
{
    let mut i = at;
    let mut j = wrote;
    let mut n = filled;
    for event in src[at..].as_chunks::<2>().0 {
        let [kind, b] = *event;
        // with room for a longest line, and place for the byte
        if !((kind == HOST) & (b != FEND) & (LINE_LEN <= dst.len() - j) & (0 < reader.len() - n)) {
            break;
        }
        reader[n] = b;
        j = event_line::put_line(HOST, 0, on, b"", dst, j).unwrap_or(j);
        i += 2;
        n += 1;
    }
    Run {
        used: i,
        wrote: j,
        filled: n,
    }
}
