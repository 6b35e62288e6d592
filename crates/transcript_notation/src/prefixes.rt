// First parts of a file, over which a run is made.
use super::words::range;

/// First parts of a file, each of which is to be the file of a name.
#[derive(Clone, Copy)]
pub struct Prefixes<'a> {
    pub name: &'a str,
    pub file: &'a str,
    /// The shortest part's length.
    pub from: usize,
    /// One more than the longest part's length.
    pub to: usize,
}

impl<'a> Prefixes<'a> {
    /// NAME FILE FROM..TO, of which the first number is below the second.
    pub fn read(text: &'a str) -> Option<Self> {
        let (name, others) = text.split_once(' ')?;
        let (file, ends) = others.split_once(' ')?;
        let (from, to) = range(ends)?;
        Some(Prefixes {
            name,
            file,
            from,
            to,
        })
    }
}
