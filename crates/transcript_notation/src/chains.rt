// Chains of generations: an image is rescheduled for one, and what came of it for another.
use super::words::{spaced, split_word};

/// All pairs of some generations, through which an image becomes the file of a name.
#[derive(Clone, Copy)]
pub struct Chains<'a> {
    pub name: &'a str,
    pub image: &'a str,
    /// The generations, with single spaces between them.
    pub generations: &'a str,
}

impl<'a> Chains<'a> {
    /// NAME IMAGE GENERATION ..
    pub fn read(text: &'a str) -> Option<Self> {
        let (name, others) = split_word(text);
        let (image, generations) = split_word(others);
        match spaced(generations) {
            Ok(()) => Some(Chains {
                name,
                image,
                generations,
            }),
            Err(_) => None,
        }
    }
}
