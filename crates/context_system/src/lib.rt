// Several contexts beside the pages of their programs: what an event does, and what holds after every list of events.
//
// It has no code. It stands on `block_steps` for the MultiOps of a block, on `paging` for the lists of resident and saved
// pages, and on `image_resched` for images in other generations. A context plays the MultiOps of its program one at a time
// (specs/Context.antt); a system is contexts and pages, and `play` plays a list of events on it (specs/System.antt). Its
// contracts are laws over `play`: a context that has ended has the meaning of its image's program (specs/Meant.antt), it does
// what it does alone (specs/Turns.antt), and the words under a key are always its form's (specs/Pages.antt).
#![tactic(auto)]

pub mod laws;

use tnk_base::Key;

/// What may happen next: a context has its turn and plays one MultiOp, or a page is evicted, dropped from the saved ones, or
/// fetched before it is needed.
#[derive(Clone, Copy, Debug, PartialEq, Eq)]
pub enum Event {
    Turn(u8),
    Evict(Key),
    Drop(Key),
    Prefetch(Key),
}
