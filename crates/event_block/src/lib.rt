// The events of a block of input, each applied and its line written.
#![tactic(auto)]

ghost use Rattle.std.specs.Prelude.{◌≡◌, ◌≤◌, length};
ghost use Rattle.event_step.specs.Step.{world_of};
ghost use Rattle.event_block.specs.Spot.{spot, stepped};
ghost use Rattle.event_block.specs.Block.{block, block_run};

use event_answer::{EventBox, LINE_LEN, MOST_BYTES, Taken};
use event_input::Next;

#[derive(Clone, Copy)]
pub struct Turn {
    // The place behind the line.
    pub wrote: usize,
    pub after: EventBox,
}

// The events that stand whole in a block, as far as the room has place for a longest line. With a room for fewer than 255 bytes nothing is done.
pub fn run_block(
    before: EventBox,
    src: &[u8],
    dst: &mut [u8],
    reader: &mut [u8],
    packets: &mut [u8],
    streams: &mut [u8],
    rx: &mut [u8],
    message: &mut [u8],
    bytes: &mut [u8],
) -> Taken
    ensures wrote_after { block result.used (spot (world_of result.after reader.new packets.new streams.new rx.new message.new) bytes.new dst.new result.wrote) ≡ block_run src.now (spot (world_of before reader.old packets.old streams.old rx.old message.old) bytes.old dst.old 0) }
    ensures used_in_bounds { (result.used ≤ length src.now) × (result.wrote ≤ length dst.old) }
{
    if bytes.len() < MOST_BYTES {
        return Taken {
            used: 0,
            wrote: 0,
            after: before,
        };
    }
    let mut station = before;
    let mut at = 0;
    let mut wrote = 0;
    // No `for`: where the next event begins is known once a run behind this one was taken.
    while LINE_LEN <= dst.len() - wrote {
        let Next::Complete { kind, start, next } = event_input::next_event(src, at) else {
            break;
        };
        let turn = step(
            station,
            kind,
            &src[start..next],
            dst,
            wrote,
            reader,
            packets,
            streams,
            rx,
            message,
            bytes,
        );
        station = turn.after;
        // bytes that complete no frame are most of a host's, and follow each other
        let open = event_open::take_open(
            station,
            src,
            next,
            dst,
            turn.wrote,
            reader,
            packets.len(),
            streams.len(),
        );
        station = open.after;
        wrote = open.wrote;
        at = open.used;
    }
    Taken {
        used: at,
        wrote,
        after: station,
    }
}

// Puts the line into dst from index at on. Where it has no room dst is left as it is, and the event is applied all the same.
fn step(
    before: EventBox,
    kind: u8,
    body: &[u8],
    dst: &mut [u8],
    at: usize,
    reader: &mut [u8],
    packets: &mut [u8],
    streams: &mut [u8],
    rx: &mut [u8],
    message: &mut [u8],
    bytes: &mut [u8],
) -> Turn
    ensures { spot (world_of result.after reader.new packets.new streams.new rx.new message.new) bytes.new dst.new result.wrote ≡ stepped kind body.now (spot (world_of before reader.old packets.old streams.old rx.old message.old) bytes.old dst.old at) }
{
    let done = event_step::apply(
        before, kind, body, reader, packets, streams, rx, message, bytes,
    );
    // No event has more bytes (event_step, specs/Promises.antt); the bound is kept here, so that the room of a line can be known before the event is applied.
    let count = done.count.min(MOST_BYTES);
    let line = event_line::put_line(kind, done.number, done.ptt, &bytes[..count], dst, at);
    Turn {
        wrote: event_end::place_after(line, at),
        after: done.after,
    }
}
