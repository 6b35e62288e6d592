// Several contexts that run on a machine, each as some generation, beside the pages of their programs in frames.
//
// It stands on `cycle_sim` for the machine of a context, on `page_fault` for pages in their forms, on `block_ops` for the
// operations of a page, and on `context_system` for what contexts, pages and events are. `Core` promises that each event is
// one step of the system that it holds (specs/Core.antt); what a context means is said by the laws of `context_system` over
// all such steps. It takes all its memory at `open`, and none as it runs. How a context stands in a block, and that the
// operations of each frame are read once, is private (specs/Standing.antt).
#![tactic(auto)]

mod cores;
mod opening;
mod pages;
mod seat;

pub use context_system::Event;
pub use cores::{Core, OpenFault};
use image_check::Accepted;
use machine_desc::Mdes;
pub use page_fault::Counts;

/// What a context is given: an image, the description of the generation that it runs as, the input, the greatest number of
/// bytes that it may put out, and the greatest number of blocks that it may run, at least 1.
#[derive(Drop)]
pub struct Setup {
    pub image: Accepted,
    pub chosen: Mdes,
    pub input: Vec<u8>,
    pub limit: u32,
    pub bound: u32,
}
