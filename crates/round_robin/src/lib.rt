// A desk served in turn, over any places and any work: the order of service, and how long a query waits. Definitions and laws, and the step from one place to the next.
#![tactic(auto)]

ghost use Rattle.std.specs.Prelude.{◌≡◌, ◌+◌, ◌<◌};
ghost use Rattle.round_robin.specs.Desk.{above};

// The places of a desk.
pub const PLACES: usize = 16;

// The place above, after the last again from 0: below the places, whatever was given.
pub fn above(k: usize) -> usize
    ensures { (result ≡ above k) × (result < 16) }
{
    if k < PLACES - 1 {
        return k + 1;
    }
    0
}
