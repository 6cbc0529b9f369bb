// `tnc_link` for C: its two functions under the same names, with their clauses again. `rt lib` here writes the archive out/libtnc_link_c.a.
#![tactic(auto)]

ghost use Rattle.std.specs.Prelude.{◌≡◌};
ghost use Rattle.tnc_link.specs.Saved.{new_saved, saved_turn, event_on};

use tnc_link::{EventAnswer, Saved};

#[unsafe(no_mangle)]
pub extern "C" fn iflazrud_tnc_new() -> Saved
    ensures { result ≡ new_saved }
{
    tnc_link::iflazrud_tnc_new()
}

// One event of document 01's event program: its kind and its body.
#[unsafe(no_mangle)]
pub extern "C" fn iflazrud_tnc_event(
    saved: Saved,
    kind: u8,
    body: &[u8],
    reader: &mut [u8],
    packets: &mut [u8],
    streams: &mut [u8],
    rx: &mut [u8],
    message: &mut [u8],
    bytes: &mut [u8],
) -> EventAnswer
    ensures { saved_turn result reader.new packets.new streams.new rx.new message.new bytes.new ≡ event_on saved kind body.now reader.old packets.old streams.old rx.old message.old bytes.old }
{
    tnc_link::iflazrud_tnc_event(
        saved, kind, body, reader, packets, streams, rx, message, bytes,
    )
}
