// Pages that are needed, evicted and dropped, with the counts of that and the words in the frame. What is expected was worked
// out by hand.
ghost use Rattle.std.specs.Prelude.{◌≤◌, IfSome};
ghost use Rattle.page_fault.specs.Loading.{HaveUnits};

use super::descriptions::{Numbers, T1, T2, described};
use super::images::{ADD, PUT, PUT_AND_WAIT, TWO_PAGES, accepted};
use image_check::has_units;
use page_fault::{Counts, Loaded, Loader};
use std::alloc::Global;
use tnk_base::Key;

/// A call: with the word at place 1 of the page that is needed, or whether there was such a page.
#[derive(Clone, Copy)]
enum Call {
    Need(u64),
    Evict(bool),
    Drop(bool),
}

/// A page and a call, and behind it how often a page was loaded, rescheduled, restored and evicted.
type Step = (u16, Call, [u64; 4]);

/// As the generation that the image was made for, with room for two saved pages beside one frame.
const OWN: [Step; 9] = [
    (0, Call::Need(PUT_AND_WAIT), [1, 0, 0, 0]),
    (0, Call::Need(PUT_AND_WAIT), [1, 0, 0, 0]),
    (1, Call::Need(ADD), [2, 0, 0, 1]),
    // It was saved when it left its frame.
    (0, Call::Need(PUT_AND_WAIT), [3, 0, 1, 2]),
    (1, Call::Need(ADD), [4, 0, 2, 3]),
    (1, Call::Evict(true), [4, 0, 2, 4]),
    (1, Call::Evict(false), [4, 0, 2, 4]),
    (1, Call::Drop(true), [4, 0, 2, 4]),
    (1, Call::Need(ADD), [5, 0, 2, 4]),
];

/// `addi r1, r0, 65` beside the operation before it.
const ADD_BESIDE: u64 = 0x0008_8020_0000_0041;

/// As another generation, in which `outb` lands at once, and `addi` issues with `pbr`. A page that was saved isn't rescheduled.
const ELSEWHERE: [Step; 7] = [
    (0, Call::Need(PUT), [1, 1, 0, 0]),
    (1, Call::Need(ADD_BESIDE), [2, 2, 0, 1]),
    (0, Call::Need(PUT), [3, 2, 1, 2]),
    (1, Call::Need(ADD_BESIDE), [4, 2, 2, 3]),
    (0, Call::Drop(true), [4, 2, 2, 3]),
    (0, Call::Drop(false), [4, 2, 2, 3]),
    (0, Call::Need(PUT), [5, 3, 2, 4]),
];

/// Where one page may be saved, the page that leaves its frame takes the place of the other.
const CROWDED: [Step; 4] = [
    (0, Call::Need(PUT), [1, 1, 0, 0]),
    (1, Call::Need(ADD_BESIDE), [2, 2, 0, 1]),
    (0, Call::Need(PUT), [3, 3, 0, 2]),
    (1, Call::Need(ADD_BESIDE), [4, 4, 0, 3]),
];

/// An image of two pages as a program.
fn programs(alloc: Global, chosen: &Numbers) -> Option<Vec<Loaded>>
    ensures { IfSome result (λ programs. HaveUnits programs.items) }
{
    let image = accepted(alloc, 2, &TWO_PAGES, &[])?;
    let chosen = described(chosen)?;
    if has_units(&image, &chosen).is_some() {
        return None;
    }
    let mut programs = Vec::new(alloc);
    programs.push(Loaded { image, chosen }).ok()?;
    Some(programs)
}

/// Its loader, with one frame.
fn loader(alloc: Global, chosen: &Numbers, saved: u16) -> Option<Loader>
    requires { saved ≤ 1024 }
{
    Loader::new(alloc, programs(alloc, chosen)?, 1, saved).ok()
}

fn is_needed(loader: &mut Loader, key: Key, word: u64) -> bool {
    if !loader.has_page(key) {
        return false;
    }
    let slot = loader.need(key);
    slot.number() == 0 && loader.words(slot)[1] == word
}

fn comes_to(loader: &mut Loader, case: &Step) -> bool {
    let (page, call, counts) = *case;
    let key = Key { program: 0, page };
    let is_done = match call {
        Call::Need(word) => is_needed(loader, key, word),
        Call::Evict(is_there) => loader.evict(key) == is_there,
        Call::Drop(is_there) => loader.drop_saved(key) == is_there,
    };
    let [loaded, rescheduled, restored, evicted] = counts;
    is_done
        && loader.counts()
            == Counts {
                loaded,
                rescheduled,
                restored,
                evicted,
            }
}

#[test]
fn pages_of_a_program_in_its_own_generation(rt: HostRuntime) {
    let mut loader = loader(rt.alloc(), &T1, 2).expect(&rt, "it has the units");
    for (row, case) in OWN.iter().enumerate() {
        assert!(rt; comes_to(&mut loader, case), "row {row}");
    }
}

#[test]
fn pages_of_a_program_in_another_generation(rt: HostRuntime) {
    let mut loader = loader(rt.alloc(), &T2, 2).expect(&rt, "it has the units");
    for (row, case) in ELSEWHERE.iter().enumerate() {
        assert!(rt; comes_to(&mut loader, case), "row {row}");
    }
}

#[test]
fn pages_that_take_the_place_of_saved_ones(rt: HostRuntime) {
    let mut loader = loader(rt.alloc(), &T2, 1).expect(&rt, "it has the units");
    for (row, case) in CROWDED.iter().enumerate() {
        assert!(rt; comes_to(&mut loader, case), "row {row}");
    }
}

/// A key, and whether its program is there and has the page.
const THERE: [(Key, bool); 3] = [
    (
        Key {
            program: 0,
            page: 1,
        },
        true,
    ),
    (
        Key {
            program: 0,
            page: 2,
        },
        false,
    ),
    (
        Key {
            program: 1,
            page: 0,
        },
        false,
    ),
];

#[test]
fn pages_that_are_there(rt: HostRuntime) {
    let loader = loader(rt.alloc(), &T1, 0).expect(&rt, "it has the units");
    for (row, (key, is_there)) in THERE.iter().enumerate() {
        assert!(rt; loader.has_page(*key) == *is_there, "row {row}");
    }
}
