// The TNC for hosts in C and Rust: one function that applies an event to it, over a record without enums. `tnc_link_c` exports it to C.
#![tactic(auto)]

ghost use Rattle.std.specs.Prelude.{◌≡◌};
ghost use Rattle.tnc_link.specs.Saved.{new_saved, saved_of, box_of, told, saved_turn, event_on};
ghost use Rattle.tnc_link.specs.Numbers.{state_numbers, state_read};

use channel::Channel;
use event_answer::{Applied, EventBox};
use kiss_calls::KissBuffer;
use outgoing::Outgoing;
use radio::Radio;
use sending::Sending;
use state::State;
use tnc_core::Tnc;

// A state's kind, 0 to 8 in the order of `state::State`, and its number, 0 where it has none.
#[derive(Clone, Copy)]
pub struct StateNumbers {
    pub kind: u8,
    pub value: u64,
}

// Numbers that are no state's: the kind is none of nine, or the value none of that kind's.
#[derive(Clone, Copy, Debug, PartialEq, Eq)]
pub struct NoState;

// The TNC and its channel. A state is its kind, 0 to 8 in the order of `state::State`, and its number, 0 where it has none.
#[repr(C)]
#[derive(Clone, Copy)]
pub struct Saved {
    pub buffer: KissBuffer,
    pub sending: Sending,
    pub state: u8,
    pub value: u64,
    pub outgoing: Outgoing,
    pub ptt: bool,
    pub channel: Channel,
}

// What C gets: document 01's number, and the count beside it.
#[repr(C)]
#[derive(Clone, Copy)]
pub struct EventAnswer {
    pub number: u8,
    // How many of the room's bytes the event prints.
    pub count: usize,
    pub ptt: bool,
    pub saved: Saved,
}

pub fn iflazrud_tnc_new() -> Saved
    ensures { result ≡ new_saved }
{
    save(tnc_new::new(), Channel::new())
}

// One event of document 01's event program: its kind and its body.
pub fn iflazrud_tnc_event(
    saved: Saved,
    kind: u8,
    body: &[u8],
    reader: &mut [u8],
    packets: &mut [u8],
    streams: &mut [u8],
    rx: &mut [u8],
    message: &mut [u8],
    bytes: &mut [u8],
) -> EventAnswer
    ensures { saved_turn result reader.new packets.new streams.new rx.new message.new bytes.new ≡ event_on saved kind body.now reader.old packets.old streams.old rx.old message.old bytes.old }
{
    let numbers = StateNumbers {
        kind: saved.state,
        value: saved.value,
    };
    let Ok(state) = State::try_from(numbers) else {
        return EventAnswer {
            number: 8,
            count: 0,
            ptt: false,
            saved,
        };
    };
    let applied = event_step::apply(
        restore(saved, state),
        kind,
        body,
        reader,
        packets,
        streams,
        rx,
        message,
        bytes,
    );
    tell(applied)
}

impl From<State> for StateNumbers {
    ghost from_gives = { λ state numbers. numbers ≡ state_numbers state };

    fn from(state: State) -> StateNumbers {
        let (kind, value) = match state {
            State::Idle => (0, 0),
            State::RxAcquiringStream(mask) => (1, u64::from(mask)),
            State::RxStream(expected) => (2, u64::from(expected)),
            State::RxPacket(count) => (3, count as u64),
            State::TxStream => (4, 0),
            State::TxStreamSentEndOfStream => (5, 0),
            State::TxPacket => (6, 0),
            State::TxEnding => (7, 0),
            State::TxEndingAtTime(end) => (8, end),
        };
        StateNumbers { kind, value }
    }
}

impl TryFrom<StateNumbers> for State {
    type Error = NoState;

    ghost try_from_gives = { λ numbers state. state ≡ state_read numbers.kind numbers.value };

    #[tactic(auto, using(choice::specs::Pick::tests), unfolding(crate::specs::Numbers::state_read, crate::specs::Numbers::valid_state, crate::specs::Numbers::state_of))]
    fn try_from(numbers: StateNumbers) -> Result<State, NoState> {
        let value = numbers.value;
        match numbers.kind {
            0 if value == 0 => Ok(State::Idle),
            1 if value <= 255 => Ok(State::RxAcquiringStream(value as u8)),
            2 if value <= 65535 => Ok(State::RxStream(value as u16)),
            3 => Ok(State::RxPacket(value as usize)),
            4 if value == 0 => Ok(State::TxStream),
            5 if value == 0 => Ok(State::TxStreamSentEndOfStream),
            6 if value == 0 => Ok(State::TxPacket),
            7 if value == 0 => Ok(State::TxEnding),
            8 => Ok(State::TxEndingAtTime(value)),
            _ => Err(NoState),
        }
    }
}

fn tell(applied: Applied) -> EventAnswer
    ensures { result ≡ told applied }
{
    EventAnswer {
        number: applied.number,
        count: applied.count,
        ptt: applied.ptt,
        saved: save(applied.after.tnc, applied.after.channel),
    }
}

fn save(tnc: Tnc, channel: Channel) -> Saved
    ensures { result ≡ saved_of (record { tnc = tnc; channel = channel }) }
{
    let numbers = StateNumbers::from(tnc.radio.state);
    Saved {
        buffer: tnc.buffer,
        sending: tnc.sending,
        state: numbers.kind,
        value: numbers.value,
        outgoing: tnc.radio.outgoing,
        ptt: tnc.ptt,
        channel,
    }
}

fn restore(saved: Saved, state: State) -> EventBox
    ensures { result ≡ box_of saved.buffer saved.sending state saved.outgoing saved.ptt saved.channel }
{
    EventBox {
        tnc: Tnc {
            buffer: saved.buffer,
            sending: saved.sending,
            radio: Radio {
                state,
                outgoing: saved.outgoing,
            },
            ptt: saved.ptt,
        },
        channel: saved.channel,
    }
}
