// Channel access, as m17core's tnc.rs has it, behind `channel`, which has the record and the definitions.
#![tactic(auto)]

ghost use Rattle.std.specs.Prelude.{true, ◌≡◌, Ok};
ghost use Rattle.channel.specs.declared.Access.TheVariants.{Sends};
ghost use Rattle.channel.specs.Access.{sound_channel, is_accessed, check_later, check_due, accessed};

use channel::{Access, Accessed, Channel, ChannelError, SLOT};

// May somebody who has something to send start now? If not, a check waits.
pub fn access(channel: Channel) -> Accessed
    ensures { result ≡ accessed channel }
{
    if !channel.is_sound() {
        return Accessed {
            answer: Err(ChannelError::OutOfBounds),
            channel,
        };
    }
    if channel.duplex {
        return sends(channel);
    }
    if channel.waits {
        return check_due(channel);
    }
    if channel.carrier {
        return check_later(channel);
    }
    sends(channel)
}

// A check is pending. One time in four that it is due and finds the channel clear it sends, so that two boxes which wait for the same end do not both start.
fn check_due(channel: Channel) -> Accessed
    requires { sound_channel channel ≡ true }
    ensures { result ≡ check_due channel }
{
    if channel.clock < channel.check {
        return Accessed {
            answer: Ok(Access::Waits),
            channel,
        };
    }
    if channel.carrier || channel.clock % 4 != 3 {
        return check_later(channel);
    }
    sends(Channel {
        waits: false,
        ..channel
    })
}

fn check_later(channel: Channel) -> Accessed
    requires { sound_channel channel ≡ true }
    ensures { result ≡ check_later channel }
{
    Accessed {
        answer: Ok(Access::Waits),
        channel: Channel {
            waits: true,
            check: channel.clock + SLOT,
            ..channel
        },
    }
}

fn sends(channel: Channel) -> Accessed
    ensures { result ≡ is_accessed (Ok Sends) channel }
{
    Accessed {
        answer: Ok(Access::Sends),
        channel,
    }
}
