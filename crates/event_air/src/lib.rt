// The events of the receiver: a frame from the air. A body that is not its kind's is answered 9.
#![tactic(auto, unfolding(choice::specs::Pick::pick))]

ghost use Rattle.std.specs.Prelude.{◌≡◌, eqb, length};
ghost use Rattle.choice.specs.Pick.{pick};
ghost use Rattle.streams.specs.Layout.{frame_of};
ghost use Rattle.tnc_air.specs.Heard.{packet_heard};
ghost use Rattle.air_lsf.specs.Begun.{lsf_heard};
ghost use Rattle.tnc_stream.specs.Stream.{stream_heard};
ghost use Rattle.tnc_receive.specs.Calls.{air_heard, frame_heard};
ghost use Rattle.event_packet.specs.Packet.{packet_of};
ghost use Rattle.event_answer.specs.Answer.{refused};
ghost use Rattle.event_air.specs.Air.{of_heard};

use event_answer::{Applied, EventBox, answer, refuse};
use event_packet::packet_frame;
use event_stream::stream_frame;
use protocol::{Frame, LsfFrame};
use tnc_receive::handle_frame;

// Three events, each with its own length and parse; what they share is `told`.
pub fn lsf(before: EventBox, body: &[u8], rx: &mut [u8], message: &mut [u8]) -> Applied
    ensures { (result, rx.new, message.new) ≡ pick (eqb (length body.now) 30) (of_heard before.channel (air_heard before.tnc rx.old message.old (lsf_heard before.tnc.radio body.now rx.old message.old))) (refused before, rx.old, message.old) }
{
    let Ok(body) = <[u8; 30]>::try_from(body) else {
        return refuse(before);
    };
    told(before, Frame::Lsf(LsfFrame(body)), rx, message)
}

pub fn packet(before: EventBox, body: &[u8], rx: &mut [u8], message: &mut [u8]) -> Applied
    ensures { (result, rx.new, message.new) ≡ pick (eqb (length body.now) 26) (of_heard before.channel (air_heard before.tnc rx.old message.old (packet_heard before.tnc.radio (packet_of body.now) rx.old message.old))) (refused before, rx.old, message.old) }
{
    let Ok(body) = <[u8; 26]>::try_from(body) else {
        return refuse(before);
    };
    told(before, Frame::Packet(packet_frame(body)), rx, message)
}

pub fn stream(before: EventBox, body: &[u8], rx: &mut [u8], message: &mut [u8]) -> Applied
    ensures { (result, rx.new, message.new) ≡ pick (eqb (length body.now) 25) (of_heard before.channel (air_heard before.tnc rx.old message.old (stream_heard before.tnc.radio (frame_of body.now) rx.old message.old))) (refused before, rx.old, message.old) }
{
    let Ok(body) = <[u8; 25]>::try_from(body) else {
        return refuse(before);
    };
    told(before, Frame::Stream(stream_frame(body)), rx, message)
}

// A frame from the air prints no bytes, and leaves the channel as it was.
fn told(before: EventBox, frame: Frame, rx: &mut [u8], message: &mut [u8]) -> Applied
    ensures { (result, rx.new, message.new) ≡ of_heard before.channel (air_heard before.tnc rx.old message.old (frame_heard frame before.tnc.radio rx.old message.old)) }
{
    let heard = handle_frame(before.tnc, frame, rx, message);
    let number = match heard.answer {
        Ok(()) => 0,
        Err(error) => error.into(),
    };
    answer(number, 0, heard.tnc, before.channel)
}
