// The longest time for which an operation of a generation keeps a unit busy.
ghost use Rattle.std.specs.Prelude.{◌≡◌, take};
ghost use Rattle.machine_desc.specs.Busiest.{IsLongestBusy, longest_among};

use super::Generation;
use super::kinds::LATENCY_KINDS;
use operation::LatKind;

fn longest_of<G: Generation>(g: &G, kinds: &[LatKind]) -> u8
    ensures { result ≡ longest_among (G.description g.now) kinds.now }
{
    let mut longest = 0;
    for kind in kinds {
        longest = longest.max(g.busy(*kind));
    }
    longest
}

/// The greatest of a generation's busy times, in cycles, 1 to 32.
pub fn longest_busy<G: Generation>(g: &G) -> u8
    ensures { IsLongestBusy (G.description g.now) result }
{
    longest_of(g, &LATENCY_KINDS)
}
