// A core's events one by one, with what is seen behind each: how often pages came and went, and how far the program is. What
// is expected was worked out by hand.
ghost use Rattle.std.specs.Prelude.{◌≡◌, ◌<◌, All, length, IfSome};

use super::descriptions::{Numbers, T1, T2, described};
use super::images::{ONE_ROW, accepted};
use contexts::{Core, Counts, Event, Setup};
use operation::End;
use std::alloc::Global;
use tnk_base::Key;

/// The one page of the one program.
const KEY: Key = Key {
    program: 0,
    page: 0,
};

/// Where the program stands: at a cycle of its block, or at its end.
#[derive(Clone, Copy)]
enum Place {
    At(u32),
    Ended(End),
}

/// An event, and behind it how often a page was loaded, rescheduled, restored and evicted, where the program stands, and how
/// many bytes it has put out.
type Seen = (Event, [u64; 4], Place, usize);

/// As the generation that the image was made for: its three MultiOps are played as they are.
const OWN: [Seen; 12] = [
    (Event::Turn(0), [1, 0, 0, 0], Place::At(1), 0),
    (Event::Evict(KEY), [1, 0, 0, 1], Place::At(1), 0),
    // The page comes back as it was saved, in the middle of the block.
    (Event::Turn(0), [2, 0, 1, 1], Place::At(2), 1),
    (Event::Drop(KEY), [2, 0, 1, 1], Place::At(2), 1),
    (Event::Evict(KEY), [2, 0, 1, 2], Place::At(2), 1),
    (Event::Drop(KEY), [2, 0, 1, 2], Place::At(2), 1),
    // It isn't resident.
    (Event::Evict(KEY), [2, 0, 1, 2], Place::At(2), 1),
    // It isn't saved, and nothing has to be rescheduled.
    (
        Event::Turn(0),
        [3, 0, 1, 2],
        Place::Ended(End::Halted(0)),
        1,
    ),
    (
        Event::Prefetch(KEY),
        [3, 0, 1, 2],
        Place::Ended(End::Halted(0)),
        1,
    ),
    (
        Event::Evict(KEY),
        [3, 0, 1, 3],
        Place::Ended(End::Halted(0)),
        1,
    ),
    (
        Event::Prefetch(KEY),
        [4, 0, 2, 3],
        Place::Ended(End::Halted(0)),
        1,
    ),
    // The program has ended.
    (
        Event::Turn(0),
        [4, 0, 2, 3],
        Place::Ended(End::Halted(0)),
        1,
    ),
];

/// As another generation, in which `halt` issues with `addi`: two MultiOps.
const ELSEWHERE: [Seen; 5] = [
    (Event::Prefetch(KEY), [1, 1, 0, 0], Place::At(0), 0),
    (Event::Turn(0), [1, 1, 0, 0], Place::At(1), 0),
    (Event::Evict(KEY), [1, 1, 0, 1], Place::At(1), 0),
    (Event::Drop(KEY), [1, 1, 0, 1], Place::At(1), 0),
    (
        Event::Turn(0),
        [2, 2, 0, 1],
        Place::Ended(End::Halted(0)),
        1,
    ),
];

fn setup(alloc: Global, chosen: &Numbers) -> Option<Setup>
    ensures { IfSome result (λ s. 0 < s.bound) }
{
    Some(Setup {
        image: accepted(alloc, 1, &ONE_ROW, &[])?,
        chosen: described(chosen)?,
        input: Vec::new(alloc),
        limit: 10,
        bound: 5,
    })
}

fn alone(alloc: Global, setup: Setup) -> Option<Vec<Setup>>
    requires { 0 < setup.bound }
    ensures one { IfSome result (λ setups. length setups.items ≡ 1) }
    ensures bound { IfSome result (λ setups. All (λ s. 0 < s.bound) setups.items) }
{
    let mut setups = Vec::new(alloc);
    setups.push(setup).ok()?;
    Some(setups)
}

/// One context, with one frame and one saved page.
fn core(alloc: Global, chosen: &Numbers) -> Option<Core> {
    let setups = alone(alloc, setup(alloc, chosen)?)?;
    Core::open(alloc, setups, 1, 1).ok()
}

fn stands(core: &Core, place: Place) -> bool {
    if core.contexts() == 0 {
        return false;
    }
    match (core.ended(0), place) {
        (None, Place::At(clock)) => core.clock(0) == clock,
        (Some(end), Place::Ended(wanted)) => end == wanted,
        _ => false,
    }
}

fn has_counts(found: Counts, counts: [u64; 4]) -> bool {
    let [loaded, rescheduled, restored, evicted] = counts;
    found
        == Counts {
            loaded,
            rescheduled,
            restored,
            evicted,
        }
}

fn has_put(core: &Core, bytes: &[u8]) -> bool {
    core.contexts() != 0 && core.output(0) == bytes
}

/// Plays the event.
fn is_seen(core: &mut Core, case: &Seen) -> bool {
    let (event, counts, place, size) = *case;
    if !core.admits(event) {
        return false;
    }
    core.step(event);
    has_counts(core.counts(), counts)
        && stands(core, place)
        && has_put(core, &[65; 1][..size.min(1)])
}

fn has_taken(core: &Core, blocks: u32, cycles: u64) -> bool {
    core.contexts() == 1 && core.blocks(0) == blocks && core.cycles(0) == cycles
}

#[test]
fn events_of_a_program_in_its_own_generation(rt: HostRuntime) {
    let mut core = core(rt.alloc(), &T1).expect(&rt, "it has the units");
    for (row, case) in OWN.iter().enumerate() {
        assert!(rt; is_seen(&mut core, case), "row {row}");
    }
    assert!(rt; has_taken(&core, 1, 3));
}

#[test]
fn events_of_a_program_in_another_generation(rt: HostRuntime) {
    let mut core = core(rt.alloc(), &T2).expect(&rt, "it has the units");
    for (row, case) in ELSEWHERE.iter().enumerate() {
        assert!(rt; is_seen(&mut core, case), "row {row}");
    }
    assert!(rt; has_taken(&core, 1, 2));
}

/// An event, and whether its context, or its program and page, are there.
const ADMITTED: [(Event, bool); 6] = [
    (Event::Turn(0), true),
    (Event::Turn(1), false),
    (Event::Evict(KEY), true),
    (
        Event::Evict(Key {
            program: 1,
            page: 0,
        }),
        false,
    ),
    (
        Event::Drop(Key {
            program: 0,
            page: 1,
        }),
        false,
    ),
    (
        Event::Prefetch(Key {
            program: 0,
            page: 1,
        }),
        false,
    ),
];

#[test]
fn events_that_are_there(rt: HostRuntime) {
    let core = core(rt.alloc(), &T1).expect(&rt, "it has the units");
    for (row, (event, is_there)) in ADMITTED.iter().enumerate() {
        assert!(rt; core.admits(*event) == *is_there, "row {row}");
    }
}
