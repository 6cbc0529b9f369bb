// What the TNC does with stream frames from the air, as m17core's tnc.rs has it. LICH segments that are being collected stand at the start of a store of 855 bytes that
// the caller lends, their mask in the state; the message to the host in a store of 1,713 bytes.
#![tactic(auto)]

ghost use Rattle.std.specs.Prelude.{◌≤◌, ◌<◌, ◌≡◌, length};
ghost use Rattle.radio.specs.Radio.{RX, MESSAGE};
ghost use Rattle.tnc_stream.specs.Stream.{acquired, stream_heard};
ghost use Rattle.tnc_stream.specs.Restarted.{restarted};
ghost use Rattle.tnc_stream.specs.Acquired.{acquired_with};
ghost use Rattle.tnc_stream.specs.Followed.{followed};

use kiss_build_stream::{new_stream_data, new_stream_setup};
use lich::LichCollection;
use protocol::{LsfFrame, StreamFrame};
use radio::{AirError, Heard, Radio};
use radio_hears::hears;
use radio_told::told;
use state::{Reception, State};

// A stream frame follows the one before it, or brings a segment of the LSF. While we send, it is our own.
pub fn handle_stream(radio: Radio, frame: StreamFrame, rx: &mut [u8], out: &mut [u8]) -> Heard
    ensures { (result, rx.new, out.new) ≡ stream_heard radio frame rx.old out.old }
{
    match hears(radio, rx.len(), out.len()) {
        Err(error) => Heard {
            answer: Err(error),
            radio,
        },
        Ok(false) => Heard {
            answer: Ok(()),
            radio,
        },
        Ok(true) => {
            if 5 < frame.lich_idx || 32767 < frame.frame_number {
                return Heard {
                    answer: Err(AirError::OutOfRange),
                    radio,
                };
            }
            match radio.state.reception() {
                Reception::Acquiring(mask) => acquire(radio, mask, frame, rx, out),
                Reception::Stream(expected) => follow(radio, expected, frame, rx, out),
                Reception::Nothing | Reception::Packet(_) => restart(radio, frame, rx),
            }
        }
    }
}

// Acquisition of the LSF begins anew, with this frame's segment.
fn restart(radio: Radio, frame: StreamFrame, rx: &mut [u8]) -> Heard
    requires { (frame.lich_idx ≤ 5) × (length rx.old ≡ RX) }
    ensures { (result, rx.new) ≡ restarted radio frame rx.old }
{
    let set = LichCollection::new().set_segment(frame.lich_idx, frame.lich_part);
    rx[..30].copy_from_slice(&set.collection.segments);
    radio.turned(State::RxAcquiringStream(set.collection.mask))
}

// One segment more of the LSF.
fn acquire(radio: Radio, mask: u8, frame: StreamFrame, rx: &mut [u8], out: &mut [u8]) -> Heard
    requires { (mask < 64) × (frame.lich_idx ≤ 5) × (frame.frame_number ≤ 32767) × (length rx.old ≡ RX) × (length out.old ≡ MESSAGE) }
    ensures { (result, rx.new, out.new) ≡ acquired radio mask frame rx.old out.old }
{
    let mut segments = [0u8; 30];
    segments.copy_from_slice(&rx[..30]);
    let set = LichCollection { segments, mask }.set_segment(frame.lich_idx, frame.lich_part);
    rx[..30].copy_from_slice(&set.collection.segments);
    complete(radio, set.collection, frame.frame_number, out)
}

// The LSF goes to the host once all its segments have been heard and its CRC is right. This frame's data and its end are passed over.
fn complete(radio: Radio, collection: LichCollection, number: u16, out: &mut [u8]) -> Heard
    requires { (collection.mask < 64) × (number ≤ 32767) × (length out.old ≡ MESSAGE) }
    ensures { (result, out.new) ≡ acquired_with radio collection number out.old }
{
    match collection.try_assemble() {
        Ok(Some(lsf)) if lsf_frame::check_crc(LsfFrame(lsf)) == 0 => told(
            State::RxStream(number + 1),
            new_stream_setup(&lsf, out),
        ),
        _ => radio.turned(State::RxAcquiringStream(collection.mask)),
    }
}

// In a stream. A number below the expected one is of another stream.
fn follow(radio: Radio, expected: u16, frame: StreamFrame, rx: &mut [u8], out: &mut [u8]) -> Heard
    requires { (frame.lich_idx ≤ 5) × (frame.frame_number ≤ 32767) × (length rx.old ≡ RX) × (length out.old ≡ MESSAGE) }
    ensures { (result, rx.new, out.new) ≡ followed radio expected frame rx.old out.old }
{
    if frame.frame_number < expected {
        return restart(radio, frame, rx);
    }
    let next = if frame.end_of_stream {
        State::Idle
    } else {
        State::RxStream(frame.frame_number + 1)
    };
    told(next, new_stream_data(frame, out))
}
