// What the TNC does with one KISS frame from the host, as m17core's write_kiss has it: ports 0, 1 and 2, data and two settings. All else is ignored.
#![tactic(auto)]

ghost use Rattle.std.specs.Prelude.{◌≡◌};
ghost use Rattle.host_frame.specs.Frame.{obeyed_on, obeyed, frame_taken};
ghost use Rattle.host_frame.specs.Data.{with_packets, with_streams, data_taken};
ghost use Rattle.host_frame.specs.Setting.{setting_in, delay_set, duplex_of};

use host_record::{Host, stores_fit};
use kiss_header::{command, port};
use kiss_layout::KissCommand;
use kiss_read::decode_payload;
use packets::PacketQueue;
use room::LentError;
use streams::StreamQueue;

#[derive(Clone, Copy)]
pub struct FrameTaken {
    pub answer: Result<(), LentError>,
    pub host: Host,
}

// A frame that is ignored is answered 0 too.
pub fn take_frame(host: Host, frame: &[u8], packets: &mut [u8], streams: &mut [u8]) -> FrameTaken
    ensures { (result, packets.new, streams.new) ≡ frame_taken host frame.now packets.old streams.old }
{
    if !stores_fit(packets.len(), streams.len()) {
        return FrameTaken {
            answer: Err(LentError::WrongStore),
            host,
        };
    }
    if !host.is_sound() {
        return FrameTaken {
            answer: Err(LentError::OutOfBounds),
            host,
        };
    }
    FrameTaken {
        answer: Ok(()),
        host: obey(host, frame, packets, streams),
    }
}

fn obey(host: Host, frame: &[u8], packets: &mut [u8], streams: &mut [u8]) -> Host
    ensures { (result, packets.new, streams.new) ≡ obeyed host frame.now packets.old streams.old }
{
    let Ok(number) = port(frame) else {
        return host;
    };
    obey_on(host, number, frame, packets, streams)
}

fn obey_on(host: Host, number: u8, frame: &[u8], packets: &mut [u8], streams: &mut [u8]) -> Host
    ensures { (result, packets.new, streams.new) ≡ obeyed_on number host frame.now packets.old streams.old }
{
    if 2 < number {
        return host;
    }
    let Ok(kind) = command(frame) else {
        return host;
    };
    match kind {
        KissCommand::DataFrame => take_data(host, number, frame, packets, streams),
        KissCommand::TxDelay => set_tx_delay(host, frame),
        KissCommand::P => host,
        KissCommand::FullDuplex => set_full_duplex(host, frame),
    }
}

fn take_data(host: Host, number: u8, frame: &[u8], packets: &mut [u8], streams: &mut [u8]) -> Host
    ensures { (result, packets.new, streams.new) ≡ data_taken number host frame.now packets.old streams.old }
{
    let sending = host.sending;
    match number {
        0 => with_packets(
            host,
            packet_basic::push_basic(sending.packets, frame, packets).queue,
        ),
        1 => with_packets(
            host,
            packet_full::push_full(sending.packets, frame, packets).queue,
        ),
        _ => with_streams(
            host,
            stream_push::push(sending.streams, frame, streams).queue,
        ),
    }
}

// This and the next are one assignment each: a name for the definition that they equal.
fn with_packets(mut host: Host, queue: PacketQueue) -> Host
    ensures { result ≡ with_packets host queue }
{
    host.sending.packets = queue;
    host
}

fn with_streams(mut host: Host, queue: StreamQueue) -> Host
    ensures { result ≡ with_streams host queue }
{
    host.sending.streams = queue;
    host
}

fn set_tx_delay(mut host: Host, frame: &[u8]) -> Host
    ensures { result ≡ delay_set (setting_in frame.now) host }
{
    if let Some(byte) = read_setting(frame) {
        host.sending.tx_delay = byte;
    }
    host
}

// Any byte but 0 is on.
fn set_full_duplex(mut host: Host, frame: &[u8]) -> Host
    ensures { result ≡ duplex_of (setting_in frame.now) host }
{
    if let Some(byte) = read_setting(frame) {
        host.channel = host.channel.set_full_duplex(byte != 0).channel;
    }
    host
}

fn read_setting(frame: &[u8]) -> Option<u8>
    ensures { result ≡ setting_in frame.now }
{
    let mut room = [0u8; 1];
    match decode_payload(frame, &mut room) {
        Ok(len) if len != 0 => Some(room[0]),
        _ => None,
    }
}
