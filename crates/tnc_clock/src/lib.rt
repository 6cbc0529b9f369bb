// The calls that tell the TNC the time, with the names of m17core's SoftTnc.
#![tactic(auto, unfolding(crate::specs::Clock::now_set, crate::specs::Clock::end_time_set, choice::specs::Pick::pick))]

ghost use Rattle.std.specs.Prelude.{◌≡◌};
ghost use Rattle.tnc_clock.specs.Clock.{in_state, now_set, end_time_set};
ghost use Rattle.state.specs.State.{time_reached, ending_at};

use channel::{Channel, ChannelError, ChannelSet};
use radio::Radio;
use state::State;
use tnc_core::Tnc;

#[derive(Clone, Copy)]
pub struct Timed {
    pub answer: Result<(), ChannelError>,
    pub tnc: Tnc,
    pub channel: Channel,
}

// The farthest end that a modulator may announce, in samples.
const FARTHEST: u64 = 4294967296;

pub fn set_now(tnc: Tnc, channel: Channel, now_samples: u64) -> Timed
    ensures { result ≡ now_set tnc channel now_samples }
{
    if !tnc.is_sound() {
        return Timed {
            answer: Err(ChannelError::OutOfBounds),
            tnc,
            channel,
        };
    }
    let ChannelSet { answer, channel } = channel.set_now(now_samples);
    let tnc = match answer {
        Ok(()) => tnc.with_radio(at_time(tnc.radio, now_samples)),
        Err(_) => tnc,
    };
    Timed {
        answer,
        tnc,
        channel,
    }
}

// The modulator has said in how many samples it will be done. It counts only in the ending state.
#[tactic(auto, using(channel::proofs::Bounds::clock_bound), unfolding(crate::specs::Clock::end_time_set, choice::specs::Pick::pick))]
pub fn set_tx_end_time(tnc: Tnc, channel: Channel, in_samples: u64) -> Timed
    ensures { result ≡ end_time_set tnc channel in_samples }
{
    if !(tnc.is_sound() && channel.is_sound()) {
        return Timed {
            answer: Err(ChannelError::OutOfBounds),
            tnc,
            channel,
        };
    }
    if in_samples > FARTHEST {
        return Timed {
            answer: Err(ChannelError::OutOfRange),
            tnc,
            channel,
        };
    }
    Timed {
        answer: Ok(()),
        tnc: tnc.with_radio(ending_at(tnc.radio, channel.clock + in_samples)),
        channel,
    }
}

// The radio once the clock shows now: a transmission whose end has come is over.
fn at_time(radio: Radio, now_samples: u64) -> Radio
    ensures { result ≡ in_state radio (time_reached radio.state now_samples) }
{
    match radio.state {
        State::TxEndingAtTime(end) if end <= now_samples => Radio {
            state: State::Idle,
            ..radio
        },
        _ => radio,
    }
}

// The radio once the modulator has said when it will be done, which counts only where an end was given and no time yet.
fn ending_at(radio: Radio, end: u64) -> Radio
    ensures { result ≡ in_state radio (ending_at radio.state end) }
{
    match radio.state {
        State::TxEnding => Radio {
            state: State::TxEndingAtTime(end),
            ..radio
        },
        _ => radio,
    }
}
