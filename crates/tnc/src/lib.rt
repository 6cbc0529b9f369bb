// The TNC's call for bytes from the host, as m17core's write_kiss takes them: the reader cuts them into frames, and each is obeyed until none is left. The TNC's calls have
// the names of m17core's SoftTnc. `Tnc` and `Channel` go in by value and come back in the answer; the large bytes stand in stores that the caller lends. Bytes to the host are
// given by `tnc_read`, frames from the air taken by `tnc_receive`, those for the modulator given by `tnc_transmit`; set_now and set_tx_end_time are calls of `tnc_clock`, new
// is one of `tnc_new`, ptt one of `Tnc`, set_data_carrier_detect one of `Channel`.
#![tactic(auto)]

ghost use Rattle.std.specs.Prelude.{◌≡◌, Ok};
ghost use Rattle.tnc.specs.Calls.{not_written, put_back, tnc_written};
ghost use Rattle.kiss_calls.specs.Promises.{Sound};
ghost use Rattle.host_frame.specs.Promises.{Sound as HostSound};
ghost use Rattle.tnc_drain.specs.Drain.{reader_box, host_box};
ghost use Rattle.tnc.specs.Bytes.{onward, kiss_written};

use channel::Channel;
use host_record::Host;
use kiss_calls::{KissBuffer, WriteError};
use link_ready::link_fits;
use tnc_core::Tnc;

#[derive(Clone, Copy)]
pub struct KissWritten {
    // How many of the offered bytes were taken.
    pub answer: Result<usize, WriteError>,
    pub buffer: KissBuffer,
    pub host: Host,
}

// As `KissWritten` but for the records, which its fields name.
#[derive(Clone, Copy)]
pub struct TncWritten {
    // How many of the offered bytes were taken.
    pub answer: Result<usize, WriteError>,
    pub tnc: Tnc,
    pub channel: Channel,
}

// Bytes from the host. Each whole frame is obeyed at once.
pub fn write_kiss(
    tnc: Tnc,
    channel: Channel,
    buf: &[u8],
    reader: &mut [u8],
    packets: &mut [u8],
    streams: &mut [u8],
) -> TncWritten
    ensures { (result, reader.new, packets.new, streams.new) ≡ tnc_written tnc channel buf.now reader.old packets.old streams.old }
{
    if !link_fits(reader.len(), packets.len(), streams.len()) {
        return not_written(WriteError::WrongStore, tnc, channel);
    }
    if !tnc.is_sound() || !channel.is_sound() {
        return not_written(WriteError::OutOfBounds, tnc, channel);
    }
    let written = kiss_buffer::write(tnc.buffer, buf, reader);
    let count = match written.answer {
        Ok(count) => count,
        // A reader that took nothing is as it was.
        Err(error) => return not_written(error, tnc, channel),
    };
    let host = Host {
        sending: tnc.sending,
        channel,
    };
    put_back(
        tnc,
        take_frames(count, written.buffer, host, reader, packets, streams),
    )
}

// Frames are taken until none is left; then the count of taken bytes is answered. Each frame that is taken leaves fewer bytes to search.
// No `for`: how many frames there are is known once they are taken, since each is cut out of the store that is lent on.
fn take_frames(
    count: usize,
    buffer: KissBuffer,
    host: Host,
    reader: &mut [u8],
    packets: &mut [u8],
    streams: &mut [u8],
) -> KissWritten
    requires { Sound (reader_box buffer reader.old) × HostSound (host_box host packets.old streams.old) }
    ensures { (result, reader.new, packets.new, streams.new) ≡ onward (Ok count) (reader_box buffer reader.old) (host_box host packets.old streams.old) }
{
    let mut held = buffer;
    let mut obeyed = host;
    loop {
        held = kiss_next::next_frame(held, reader).buffer;
        if !held.taken {
            return KissWritten {
                answer: Ok(count),
                buffer: held,
                host: obeyed,
            };
        }
        let frame = kiss_sound::frame(held, reader);
        obeyed = host_frame::take_frame(obeyed, frame, packets, streams).host;
    }
}

fn not_written(error: WriteError, tnc: Tnc, channel: Channel) -> TncWritten
    ensures { result ≡ not_written error tnc channel }
{
    TncWritten {
        answer: Err(error),
        tnc,
        channel,
    }
}

fn put_back(tnc: Tnc, written: KissWritten) -> TncWritten
    ensures { result ≡ put_back tnc written }
{
    TncWritten {
        answer: written.answer,
        tnc: Tnc {
            buffer: written.buffer,
            sending: written.host.sending,
            ..tnc
        },
        channel: written.host.channel,
    }
}
