// The loader of pages: a page that is needed is brought into a frame, in the form in which its program runs.
//
// It stands on `page_cache` for frames and saved pages, on `page_resched` for forms and on `image_check` for images. `Loader`
// promises that the lists and counts are those of `paging`, and that the words under each key are those of its form
// (specs/Loading.antt). It takes all its memory at `new`. `laws` says that these words are those of the whole image in its
// program's generation (specs/Laws.antt). What the words do is for the layer above.
#![tactic(auto)]

mod fetching;
pub mod laws;
mod loader;

use image_check::Accepted;
pub use loader::{Counts, Loader};
use machine_desc::Mdes;

/// A program: an image, and the description of the generation that it runs as.
#[derive(Drop)]
pub struct Loaded {
    pub image: Accepted,
    pub chosen: Mdes,
}
