// Runs document 01's unstarred examples and the M17 specification's CRC vectors, one to a line. The file stdout has what those documents say.
#![tactic(auto)]

ghost use Rattle.std.specs.Prelude.{◌≡◌, ℕ, ◌<◌, get_or};

use channel::{Access, Channel};
use kiss_calls::{KissBuffer, NextFrame};
use lich::LichCollection;
use protocol::LsfFrame;
use std::io;
use std::io::Write;

fn main(rt: HostRuntime) -> io::Result<()> {
    let mut target = rt.stdout();
    crc_line(&mut target, "CRC of nothing", b"")?;
    crc_line(&mut target, "CRC of A", b"A")?;
    crc_line(&mut target, "CRC of 123456789", b"123456789")?;
    crc_line(&mut target, "CRC of the bytes 00 to FF", &every_byte())?;
    lsf_line(&mut target, "LSF of port 0", lsf_frame::packet_basic())?;
    lich_line(&mut target, "LICH index 5", 5)?;
    lich_line(&mut target, "LICH index 6", 6)?;
    stretch_line(&mut target, "frames of a stretch of 1711 bytes", 1711)?;
    stretch_line(&mut target, "frames of a stretch of 1712 bytes", 1712)?;
    channel_line(
        &mut target,
        "busy at 1000",
        waiting_until(1000, true, false, 0),
    )?;
    channel_line(
        &mut target,
        "clear at 2920, when a check is due",
        waiting_until(2920, false, true, 2920),
    )?;
    channel_line(
        &mut target,
        "clear at 4843, when a check is due",
        waiting_until(4843, false, true, 4840),
    )?;
    channel_line(
        &mut target,
        "busy at 4843, when a check is due",
        waiting_until(4843, true, true, 4840),
    )
}

fn crc_line<W: Write>(target: &mut W, name: &str, input: &[u8]) -> io::Result<()> {
    let sum = crc::m17_crc(input);
    writeln!(target, "{name}: {sum:04x}")
}

fn every_byte() -> [u8; 256]
    ensures { (k : ℕ) → k < 256 → get_or result k 0 ≡ k }
{
    std::array::from_fn(|i| i as u8)
}

fn lsf_line<W: Write>(target: &mut W, name: &str, lsf: LsfFrame) -> io::Result<()> {
    write!(target, "{name}: ")?;
    for byte in &lsf.0 {
        write!(target, "{byte:02x}")?;
    }
    writeln!(target)
}

// The number with which a new collection answers a segment of that index.
fn lich_line<W: Write>(target: &mut W, name: &str, index: u8) -> io::Result<()> {
    let set = LichCollection::new().set_segment(index, [0u8; 5]);
    let number = match set.answer {
        Ok(()) => 0,
        Err(error) => u8::from(error),
    };
    writeln!(target, "{name}: {number}")
}

// A reader is fed FEND, that many other bytes and FEND, one byte at a time, and asked for a frame after each.
fn stretch_line<W: Write>(target: &mut W, name: &str, len: usize) -> io::Result<()> {
    let mut store = [0u8; 1713];
    let mut reader = fed(KissBuffer::new(), 0xC0, &mut store).buffer;
    for _ in 0..len {
        reader = fed(reader, 0x07, &mut store).buffer;
    }
    let last = fed(reader, 0xC0, &mut store);
    let frames = match last.answer {
        Ok(Some(_)) => 1,
        Ok(None) => 0,
        Err(error) => u8::from(error),
    };
    writeln!(target, "{name}: {frames}")
}

fn fed(reader: KissBuffer, byte: u8, store: &mut [u8; 1713]) -> NextFrame {
    let written = kiss_buffer::write(reader, &[byte], store);
    kiss_next::next_frame(written.buffer, store)
}

fn waiting_until(clock: u64, carrier: bool, waits: bool, check: u64) -> Channel {
    Channel {
        clock,
        carrier,
        waits,
        check,
        duplex: false,
    }
}

fn channel_line<W: Write>(target: &mut W, name: &str, before: Channel) -> io::Result<()> {
    let after = channel_access::access(before);
    match after.answer {
        Ok(Access::Sends) => writeln!(target, "{name}: sends"),
        Ok(Access::Waits) => writeln!(target, "{name}: checks at {}", after.channel.check),
        Err(error) => writeln!(target, "{name}: {}", u8::from(error)),
    }
}
