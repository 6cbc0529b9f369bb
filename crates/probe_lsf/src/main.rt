// Answers requests for the run against the Rust in compare/, as `probe` does, of the functions that take and give an LSF or a LICH part by value. A request is 32
// bytes: kind, a value or index, and thirty bytes, the LSF or in front the part. An answer is 33: document 01's number, a value of two bytes, high byte first, and
// thirty bytes, the LSF or in front its meta field, else zero. A request that is cut ends the program.
#![tactic(auto)]

use lich::LichCollection;
use protocol::{DataType, EncryptionType, LsfFrame, Mode};
use std::io;
use std::io::{Read, Write};

// What an answer tells before its thirty bytes: a value, or document 01's number of what is refused.
type Told = Result<usize, u8>;

fn main(rt: HostRuntime) {
    let mut source = rt.stdin();
    let mut target = rt.stdout();
    let mut lich = LichCollection::new();
    for _ in 0..u64::MAX {
        let Some(after) = turn(lich, &mut source, &mut target) else {
            return;
        };
        lich = after;
    }
}

// The collection after the next request, if it was all there and its answer was written. Nothing is read behind a head that is cut.
fn turn<R: Read, W: Write>(
    mut lich: LichCollection,
    source: &mut R,
    target: &mut W,
) -> Option<LichCollection> {
    let mut head = [0u8; 2];
    let mut bytes = [0u8; 30];
    source.read_exact(&mut head).ok()?;
    source.read_exact(&mut bytes).ok()?;
    let [kind, v] = head;
    let answer = ask(kind, v, &mut bytes, &mut lich);
    wrote(target, answer, &bytes).ok()?;
    Some(lich)
}

fn wrote<W: Write>(target: &mut W, answer: Told, bytes: &[u8]) -> io::Result<()> {
    let (number, value) = match answer {
        Ok(value) => (0, value),
        Err(number) => (number, 0),
    };
    let [high, low] = ((value % 65536) as u16).to_be_bytes();
    target.write_all(&[number, high, low])?;
    target.write_all(bytes)
}

// The request's bytes become the answer's.
fn ask(kind: u8, v: u8, bytes: &mut [u8; 30], lich: &mut LichCollection) -> Told {
    let request = *bytes;
    *bytes = [0u8; 30];
    match kind {
        0..=20 => Ok(lsf_number(kind, LsfFrame(request))),
        21..=47 => {
            let after = lsf_set(kind, v, LsfFrame(request));
            bytes.copy_from_slice(&after.0);
            Ok(0)
        }
        _ => lich_step(kind, v, request, bytes, lich),
    }
}

// Kinds are numbers, as they come in the request.
fn lsf_number(kind: u8, f: LsfFrame) -> usize {
    usize::from(match kind {
        16 => lsf_frame::check_crc(f),
        17 => u16::from(lsf_frame::mode(f)),
        18 => u16::from(lsf_fields::data_type(f)),
        19 => u16::from(lsf_fields::encryption_type(f)),
        _ => u16::from(lsf_fields::channel_access_number(f)),
    })
}

// A value over a kind's last number stands for the last.
fn lsf_set(kind: u8, v: u8, f: LsfFrame) -> LsfFrame {
    let n = u16::from(v);
    match kind {
        21 => LsfFrame(meta(f)),
        22 => lsf_setters::set_mode(f, Mode::try_from(n).unwrap_or(Mode::Stream)),
        23 => lsf_setters::set_data_type(
            f,
            DataType::try_from(n).unwrap_or(DataType::VoiceAndData),
        ),
        24 => lsf_setters::set_encryption_type(
            f,
            EncryptionType::try_from(n).unwrap_or(EncryptionType::Other),
        ),
        25 => lsf_setters::set_channel_access_number(f, v),
        _ => lsf_frame::packet_basic(),
    }
}

fn meta(f: LsfFrame) -> [u8; 30] {
    let mut bytes = [0u8; 30];
    bytes[..14].copy_from_slice(&lsf_fields::meta(f));
    bytes
}

// A new collection, a segment set, how many were heard, or the LSF, with value 30, where all were.
fn lich_step(
    kind: u8,
    index: u8,
    request: [u8; 30],
    bytes: &mut [u8; 30],
    lich: &mut LichCollection,
) -> Told {
    match kind {
        48 => {
            *lich = LichCollection::new();
            Ok(0)
        }
        49 => {
            let [a, b, c, d, e, ..] = request;
            let set = lich.set_segment(index, [a, b, c, d, e]);
            *lich = set.collection;
            set.answer?;
            Ok(0)
        }
        50 => Ok(lich.valid_segments()?),
        _ => {
            let Some(lsf) = lich.try_assemble()? else {
                return Ok(0);
            };
            bytes.copy_from_slice(&lsf);
            Ok(30)
        }
    }
}
