// Images that are generated from a number, for measurements and tests: the same number gives the same image everywhere.
//
// It stands on `image_check` for what an accepted image is, on `image_format` for its file, and on `list_encoding` for its
// words. Which image a number gives stands in specs/Generated.antt, over its draws (specs/Draws.antt), its operations
// (specs/Operations.antt) and the place of its blocks (specs/Layout.antt); `image_of` promises the bytes of just that image.
// `laws` says what holds of it (specs/Laws.antt): it is accepted, whatever the number.
#![tactic(auto)]

mod blocks;
mod draws;
mod images;
pub mod laws;
mod layout;
mod operations;

pub use images::{generated, image_of};
