// What the TNC does with packet frames from the air, as m17core's tnc.rs has it. A packet that is being received stands in a store of 855 bytes that the caller
// lends, its LSF first; the message to the host in one of 1,713 bytes.
#![tactic(auto)]

ghost use Rattle.std.specs.Prelude.{◌≤◌, true, ◌≡◌, length};
ghost use Rattle.radio.specs.Radio.{RX, MESSAGE, sound_radio};
ghost use Rattle.tnc_air.specs.Heard.{collected, packet_told, finished, packet_heard};
ghost use Rattle.tnc_air.specs.Collected.{collected_at};

use kiss_build::new_full_packet;
use protocol::{PacketFrame, PacketFrameCounter};
use radio::{AirError, Heard, RX_STORE_LEN, Radio};
use radio_hears::hears;
use radio_told::told;
use state::{Reception, State};

// The packet goes to the host with its last frame, be its length 0 too. A frame that does not follow makes the radio idle.
pub fn handle_packet(radio: Radio, frame: PacketFrame, rx: &mut [u8], out: &mut [u8]) -> Heard
    ensures { (result, rx.new, out.new) ≡ packet_heard radio frame rx.old out.old }
{
    match hears(radio, rx.len(), out.len()) {
        Err(error) => Heard {
            answer: Err(error),
            radio,
        },
        Ok(false) => Heard {
            answer: Ok(()),
            radio,
        },
        Ok(true) => match frame.counter {
            PacketFrameCounter::Frame { index } => collect(radio, index, frame.payload, rx),
            PacketFrameCounter::FinalFrame { payload_len } => finish(
                radio,
                payload_len,
                frame.payload,
                rx,
                out,
            ),
        },
    }
}

// A frame that is not a packet's last.
fn collect(radio: Radio, index: usize, payload: [u8; 25], rx: &mut [u8]) -> Heard
    requires { length rx.old ≡ RX }
    ensures { (result, rx.new) ≡ collected radio index payload rx.old }
{
    match radio.state.reception() {
        Reception::Packet(count) => collect_after(radio, count, index, payload, rx),
        _ => radio.turned(State::Idle),
    }
}

// The frame with this index, after so many others.
fn collect_after(
    radio: Radio,
    count: usize,
    index: usize,
    payload: [u8; 25],
    rx: &mut [u8],
) -> Heard
    ensures { (result, rx.new) ≡ collected_at radio count index payload rx.old }
{
    if rx.len() != RX_STORE_LEN {
        return Heard {
            answer: Err(AirError::WrongStore),
            radio,
        };
    }
    if index != count || 32 <= index {
        return radio.turned(State::Idle);
    }
    let at = 30 + 25 * index;
    rx[at..at + 25].copy_from_slice(&payload);
    radio.turned(State::RxPacket(index + 1))
}

// A packet's last frame: where a packet is being received, it goes to the host.
fn finish(radio: Radio, len: usize, payload: [u8; 25], rx: &mut [u8], out: &mut [u8]) -> Heard
    requires { (sound_radio radio ≡ true) × (length rx.old ≡ RX) × (length out.old ≡ MESSAGE) }
    ensures { (result, rx.new, out.new) ≡ finished radio len payload rx.old out.old }
{
    if 25 < len {
        return Heard {
            answer: Err(AirError::OutOfRange),
            radio,
        };
    }
    match radio.state.reception() {
        Reception::Packet(count) => {
            let at = 30 + 25 * count;
            rx[at..at + len].copy_from_slice(&payload[..len]);
            tell_packet(rx, 25 * count + len, out)
        }
        _ => radio.turned(State::Idle),
    }
}

// Two parts of one store go to the builder, which only a shared reference can lend.
fn tell_packet(rx: &[u8], len: usize, out: &mut [u8]) -> Heard
    requires { (len ≤ 825) × (length rx.now ≡ RX) × (length out.old ≡ MESSAGE) }
    ensures { (result, out.new) ≡ packet_told len rx.now out.old }
{
    let built = new_full_packet(&rx[..30], &rx[30..30 + len], out);
    told(State::Idle, built)
}
