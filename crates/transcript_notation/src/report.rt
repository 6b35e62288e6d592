// What is told of a transcript.
use super::transcript::Block;
use super::trouble::Trouble;
use std::alloc::{AllocError, Global};

/// What is told of a transcript, and how many runs and troubles there were in all so far.
#[derive(Drop)]
pub struct Report {
    /// The name of the transcript's file.
    name: String,
    pub text: String,
    pub runs: u64,
    pub troubles: u64,
}

impl Report {
    /// No transcript was played yet.
    pub fn new(alloc: Global) -> Self {
        Report {
            name: String::new(alloc),
            text: String::new(alloc),
            runs: 0,
            troubles: 0,
        }
    }

    /// Begins with the transcript in the file of this name, of which nothing is told yet.
    pub fn begin(&mut self, name: &str) -> Result<(), AllocError> {
        self.text.clear();
        self.name.clear();
        self.name.push_str(name)
    }

    /// Tells what is wrong with a command, and what differs.
    pub fn tell(
        &mut self,
        block: &Block,
        trouble: Trouble,
        differs: &str,
    ) -> Result<(), AllocError> {
        let (line, text) = block.line_at(trouble.place());
        self.push_place(line, text)?;
        self.text.push_str(trouble.text())?;
        self.text.push_str(differs)
    }

    /// Tells what is wrong with the file as a whole.
    pub fn tell_file(&mut self, what: &str) -> Result<(), AllocError> {
        self.push_place(1, what)
    }

    /// One more trouble, at a line.
    fn push_place(&mut self, line: usize, text: &str) -> Result<(), AllocError> {
        let name = &self.name;
        self.troubles = self.troubles.saturating_add(1);
        writeln!(self.text, "{name}:{line}: {text}")
    }
}
