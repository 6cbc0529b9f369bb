// What both pushes of the packet queue end with, behind `packets`, which has the record and the definitions.
#![tactic(auto, unfolding(crate::specs::Accepted::accepted_as, packets::specs::Queue::with_packet, choice::specs::Pick::pick))]

ghost use Rattle.std.specs.Prelude.{◌≡◌};
ghost use Rattle.packet_push.specs.Accepted.{accepted_as};

use kiss_layout::PushError;
use packets::{PacketQueue, Place, Push, Pushed};

// One packet more waits, with len bytes of data.
pub fn accepted(mut queue: PacketQueue, len: usize) -> Pushed
    ensures { result ≡ accepted_as queue len }
{
    let at = queue.next;
    if 4 <= at {
        return Pushed {
            answer: Err(PushError::OutOfBounds),
            queue,
        };
    }
    let next = (at + 1) % 4;
    queue.places[at] = Place {
        due: true,
        len,
        sent: 0,
    };
    queue.next = next;
    queue.full = next == queue.curr;
    Pushed {
        answer: Ok(Push::Queued),
        queue,
    }
}
