// Whole images in another generation.
//
// It stands on `image_check` for accepted images, on `page_resched` for pages in form, and on `image_format` for the bytes of
// files. What the image in another generation is stands in specs/Rescheduled.antt, and `reschedule` promises the bytes of
// just that image. `laws` says what holds of it (specs/Laws.antt): it is accepted, its program means the same, "before" is the
// same relation among the same operations, and each page keeps its shape.
#![tactic(auto)]

pub mod laws;
mod moving;

pub use moving::{described, reschedule};
