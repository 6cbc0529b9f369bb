// A ring of places, as both queues have it: the place that the next one is put into, and that of the first one that waits. Equal places are an empty ring, or a full one.
#![tactic(auto)]

ghost use Rattle.std.specs.Prelude.{◌≡◌};
ghost use Rattle.ring.specs.Ring.{sound_ring, empty_ring};

// Both are among the places, and the ring is called full only where they are equal.
pub fn is_sound<const PLACES: usize>(next: usize, curr: usize, full: bool) -> bool
    ensures { result ≡ sound_ring PLACES next curr full }
{
    (next < PLACES) & (curr < PLACES) & (!full | (next == curr))
}

// None waits.
pub fn is_empty(next: usize, curr: usize, full: bool) -> bool
    ensures { result ≡ empty_ring next curr full }
{
    !full & (next == curr)
}
