// The reads of the packet queue, behind `packets`, which has the record and the definitions: the packets that wait are cut into frames.
#![tactic(auto)]

ghost use Rattle.std.specs.Prelude.{◌≡◌, true};
ghost use Rattle.packets.specs.Queue.{sound_queue, lsf_read, data_read, walk, read_next};
ghost use Rattle.packets.specs.Frames.{chunk};

use packets::{PacketQueue, PacketRead, ROOM_LEN, STORE_LEN};
use protocol::{LsfFrame, ModulatorFrame, PacketFrame, PacketFrameCounter};
use room::LentError;

// A read in a packet transmission: the next frame of the packets that wait, or the end once all of them are spent.
pub fn read_next(queue: PacketQueue, store: &[u8]) -> PacketRead
    ensures { result ≡ read_next queue store.now }
{
    let Ok(store) = <&[u8; STORE_LEN]>::try_from(store) else {
        return PacketRead {
            answer: Err(LentError::WrongStore),
            queue,
        };
    };
    if !queue.is_sound() {
        return PacketRead {
            answer: Err(LentError::OutOfBounds),
            queue,
        };
    }
    if queue.is_empty() {
        return PacketRead {
            answer: Ok(None),
            queue,
        };
    }
    next_frame(queue, store)
}

// Passes over the places that are spent. Such a place is free from here on, so that a full queue has room again.
// Document 01 asks for this form, a loop over the four places that breaks with the next frame or the end.
fn next_frame(queue: PacketQueue, store: &[u8; STORE_LEN]) -> PacketRead
    requires { sound_queue queue ≡ true }
    ensures { result ≡ walk 4 queue store.now }
{
    let mut rest = queue;
    let mut left: usize = 4;
    loop {
        if (left == 0) | rest.is_empty() {
            break PacketRead {
                answer: Ok(Some(ModulatorFrame::EndOfTransmission)),
                queue: rest,
            };
        }
        let place = rest.places[rest.curr];
        if place.due {
            break lsf_read(rest, store);
        }
        if place.sent != place.len {
            break data_read(rest, store);
        }
        rest.curr = (rest.curr + 1) % 4;
        rest.full = false;
        left -= 1;
    }
}

fn lsf_read(mut queue: PacketQueue, store: &[u8; STORE_LEN]) -> PacketRead
    requires { sound_queue queue ≡ true }
    ensures { result ≡ lsf_read queue store.now }
{
    let at = ROOM_LEN * queue.curr;
    let mut lsf = [0u8; 30];
    lsf.copy_from_slice(&store[at..at + 30]);
    queue.places[queue.curr].due = false;
    PacketRead {
        answer: Ok(Some(ModulatorFrame::Lsf(LsfFrame(lsf)))),
        queue,
    }
}

fn data_read(mut queue: PacketQueue, store: &[u8; STORE_LEN]) -> PacketRead
    requires { sound_queue queue ≡ true }
    ensures { result ≡ data_read queue store.now }
{
    let place = queue.places[queue.curr];
    let rest = place.len - place.sent;
    let from = ROOM_LEN * queue.curr + 30 + place.sent;
    let frame = first_frame(&store[from..from + rest], place.sent / 25);
    queue.places[queue.curr].sent = place.sent + rest.min(25);
    PacketRead {
        answer: Ok(Some(ModulatorFrame::Packet(frame))),
        queue,
    }
}

// The first frame of a packet's data, or of what is left of it, where its index is the one given: 25 bytes, or as the final frame all of them.
fn first_frame(bytes: &[u8], index: usize) -> PacketFrame
    ensures { result ≡ chunk index bytes.now }
{
    let mut payload = [0u8; 25];
    if 25 < bytes.len() {
        payload.copy_from_slice(&bytes[..25]);
        return PacketFrame {
            payload,
            counter: PacketFrameCounter::Frame { index },
        };
    }
    payload[..bytes.len()].copy_from_slice(bytes);
    PacketFrame {
        payload,
        counter: PacketFrameCounter::FinalFrame {
            payload_len: bytes.len(),
        },
    }
}
