// One event applied to the TNC.
#![tactic(auto)]

ghost use Rattle.std.specs.Prelude.{◌≡◌, not, eqb, leb, length, get_or, take};
ghost use Rattle.std.specs.Result.{MatchResult};
ghost use Rattle.event_step.specs.Step.{world_of, turn_of, applied};
ghost use Rattle.choice.specs.Pick.{pick};
ghost use Rattle.channel.specs.Access.{carrier_set};
ghost use Rattle.tnc_clock.specs.Clock.{now_set, end_time_set};
ghost use Rattle.event_step.specs.Numbers.{four_bytes, eight_bytes, number_of};
ghost use Rattle.event_answer.specs.Answer.{refused, MOST};
ghost use Rattle.event_step.specs.Channel.{of_set, of_timed};
ghost use Rattle.tnc.specs.Calls.{tnc_written};
ghost use Rattle.tnc_read.specs.Calls.{tnc_read};
ghost use Rattle.event_step.specs.Host.{of_write, of_read};

use event_answer::{Applied, EventBox, MOST_BYTES, answer, refuse};

// What has a place in seven bytes, so that another byte leaves no more than eight.
const SEVEN_BYTES: u64 = 72057594037927936;

// The kind is a byte, and no enum, since a host in C hands in any byte; one that is no kind is answered 9. Reader, stores, rx and message are lent one by one: in a struct of slices
// they could not be lent on to the calls below.
// A kind that is not known, a body that is not its kind's and a room for fewer than 255 bytes are answered 9, and nothing is changed.
pub fn apply(
    before: EventBox,
    kind: u8,
    body: &[u8],
    reader: &mut [u8],
    packets: &mut [u8],
    streams: &mut [u8],
    rx: &mut [u8],
    message: &mut [u8],
    bytes: &mut [u8],
) -> Applied
    ensures { turn_of result reader.new packets.new streams.new rx.new message.new bytes.new ≡ applied kind body.now (world_of before reader.old packets.old streams.old rx.old message.old) bytes.old }
{
    if bytes.len() < MOST_BYTES {
        return refuse(before);
    }
    match kind {
        1 => host_byte(before, body, reader, packets, streams),
        2 => carrier(before, body),
        3 => clock(before, body),
        4 => end_time(before, body),
        5 => event_air::lsf(before, body, rx, message),
        6 => event_air::packet(before, body, rx, message),
        7 => event_air::stream(before, body, rx, message),
        8 => event_tx::read_tx(before, body, packets, streams, bytes),
        9 => read_host(before, body, message, bytes),
        _ => refuse(before),
    }
}

fn host_byte(
    before: EventBox,
    body: &[u8],
    reader: &mut [u8],
    packets: &mut [u8],
    streams: &mut [u8],
) -> Applied
    ensures { (result, reader.new, packets.new, streams.new) ≡ pick (eqb (length body.now) 1) (of_write (tnc_written before.tnc before.channel body.now reader.old packets.old streams.old)) (refused before, reader.old, packets.old, streams.old) }
{
    if body.len() != 1 {
        return refuse(before);
    }
    let written = tnc::write_kiss(before.tnc, before.channel, body, reader, packets, streams);
    answer(number_of(written.answer), 0, written.tnc, written.channel)
}

fn carrier(before: EventBox, body: &[u8]) -> Applied
    ensures { result ≡ pick (eqb (length body.now) 1) (of_set before.tnc (carrier_set before.channel (not (eqb (get_or body.now 0 0) 0)))) (refused before) }
{
    if body.len() != 1 {
        return refuse(before);
    }
    let set = before.channel.set_data_carrier_detect(body[0] != 0);
    answer(number_of(set.answer), 0, before.tnc, set.channel)
}

// As `end_time`, but for the length and the call: all that it says.
fn clock(before: EventBox, body: &[u8]) -> Applied
    ensures { result ≡ pick (eqb (length body.now) 8) (of_timed (now_set before.tnc before.channel (eight_bytes body.now 0))) (refused before) }
{
    if body.len() != 8 {
        return refuse(before);
    }
    let set = tnc_clock::set_now(before.tnc, before.channel, number(body));
    answer(number_of(set.answer), 0, set.tnc, set.channel)
}

fn end_time(before: EventBox, body: &[u8]) -> Applied
    ensures { result ≡ pick (eqb (length body.now) 4) (of_timed (end_time_set before.tnc before.channel (four_bytes body.now 0))) (refused before) }
{
    if body.len() != 4 {
        return refuse(before);
    }
    let set = tnc_clock::set_tx_end_time(before.tnc, before.channel, number(body));
    answer(number_of(set.answer), 0, set.tnc, set.channel)
}

// Of more than eight bytes the last eight count.
fn number(bytes: &[u8]) -> u64
    ensures { result ≡ number_of bytes.now }
{
    let mut n: u64 = 0;
    for byte in bytes {
        n = n % SEVEN_BYTES * 256 + (*byte as u64);
    }
    n
}

// At most as many bytes as the body says.
fn read_host(before: EventBox, body: &[u8], message: &[u8], bytes: &mut [u8]) -> Applied
    ensures { (result, bytes.new) ≡ pick (eqb (length body.now) 1) (pick (leb MOST (length bytes.old)) (of_read before.channel (tnc_read before.tnc message.now (take (get_or body.now 0 0) bytes.old)) bytes.old) (refused before, bytes.old)) (refused before, bytes.old) }
{
    if body.len() != 1 {
        return refuse(before);
    }
    if bytes.len() < MOST_BYTES {
        return refuse(before);
    }
    let most = body[0] as usize;
    let read = tnc_read::read_kiss(before.tnc, message, &mut bytes[..most]);
    let count = read.answer.unwrap_or(0);
    answer(number_of(read.answer), count, read.tnc, before.channel)
}

// As `event_answer::number_of`, and kept beside it: the must-fail edits of `apply` turn it, and an edit stands in its own crate.
fn number_of<T: Drop, E: Into<u8>>(answer: Result<T, E>) -> u8
    ensures { MatchResult answer (λ _. result ≡ 0) (λ error. E.converts error result) }
{
    match answer {
        Ok(_) => 0,
        Err(error) => error.into(),
    }
}
