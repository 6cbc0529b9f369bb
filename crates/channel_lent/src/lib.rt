// Channel access on a record that is lent: each setter is the by-value one of `channel`, written back.
#![tactic(auto)]

ghost use Rattle.std.specs.Prelude.{◌≡◌};
ghost use Rattle.channel.specs.Access.{clock_set, carrier_set, duplex_set};
ghost use Rattle.channel_lent.specs.Lent.{set_by};

use channel::{Channel, ChannelError};

// Document 01 asks for this form, three thin setters over the calls by value.
pub fn set_now(channel: &mut Channel, now_samples: u64) -> Result<(), ChannelError>
    ensures { (result, channel.new) ≡ set_by (clock_set channel.old now_samples) }
{
    let timed = (*channel).set_now(now_samples);
    *channel = timed.channel;
    timed.answer
}

pub fn set_data_carrier_detect(channel: &mut Channel, dcd: bool) -> Result<(), ChannelError>
    ensures { (result, channel.new) ≡ set_by (carrier_set channel.old dcd) }
{
    let heard = (*channel).set_data_carrier_detect(dcd);
    *channel = heard.channel;
    heard.answer
}

pub fn set_full_duplex(channel: &mut Channel, full_duplex: bool) -> Result<(), ChannelError>
    ensures { (result, channel.new) ≡ set_by (duplex_set channel.old full_duplex) }
{
    let switched = (*channel).set_full_duplex(full_duplex);
    *channel = switched.channel;
    switched.answer
}
