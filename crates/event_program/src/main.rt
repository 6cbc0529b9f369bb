// The event program: events on standard input, a line for each on standard output. Input and output go in blocks of 64 KiB, so that an input of any length takes the same
// memory and one read and write serve thousands of events. compare/ (--record) wrote its files stdin and stdout: a stream that begins with document 01's example and meets
// each rule of the TNC inside the domain of demand 2, with the Rust's lines; then, with document 01's, a full queue sent, what is answered 6 beside the nearest that is taken,
// and a body that is cut.
#![tactic(auto)]

ghost use Rattle.std.specs.Prelude.{◌≤◌};

use channel::Channel;
use event_answer::EventBox;
use event_session::Session;
use std::io::{Read, Write};

fn main(rt: HostRuntime) {
    let mut source = rt.stdin();
    let mut target = rt.stdout();
    let mut input = [0u8; 65536];
    let mut output = [0u8; 65536];
    let mut reader = [0u8; 1713];
    let mut packets = [0u8; 3420];
    let mut streams = [0u8; 230];
    let mut rx = [0u8; 855];
    let mut message = [0u8; 1713];
    let mut bytes = [0u8; 255];
    let mut session = Session {
        station: EventBox {
            tnc: tnc_new::new(),
            channel: Channel::new(),
        },
        from: 0,
        held: 0,
        going: true,
    };
    // A loop needs an end that can be proved: more turns than any input has.
    for _ in 0..u64::MAX {
        session = turn(
            session,
            &mut source,
            &mut target,
            &mut input,
            &mut output,
            &mut reader,
            &mut packets,
            &mut streams,
            &mut rx,
            &mut message,
            &mut bytes,
        );
        if !session.going {
            return;
        }
    }
}

// The events that are held whole, as far as the output has room, and their lines; then what follows.
fn turn<R: Read, W: Write>(
    session: Session,
    source: &mut R,
    target: &mut W,
    input: &mut [u8; 65536],
    output: &mut [u8; 65536],
    reader: &mut [u8; 1713],
    packets: &mut [u8; 3420],
    streams: &mut [u8; 230],
    rx: &mut [u8; 855],
    message: &mut [u8; 1713],
    bytes: &mut [u8; 255],
) -> Session
    requires { (session.from ≤ session.held) × (session.held ≤ 65536) }
    ensures { (result.from ≤ result.held) × (result.held ≤ 65536) }
{
    let Session {
        station,
        from,
        held,
        ..
    } = session;
    let all: &[u8] = input;
    let run = event_block::run_block(
        station,
        &all[from..held],
        output,
        reader,
        packets,
        streams,
        rx,
        message,
        bytes,
    );
    let lines: &[u8] = output;
    if target.write_all(&lines[..run.wrote]).is_err() {
        return Session {
            station: run.after,
            from: 0,
            held: 0,
            going: false,
        };
    }
    event_session::follow(
        run.after,
        source,
        target,
        input,
        run.used,
        from + run.used,
        held,
    )
}
