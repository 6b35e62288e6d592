// Plays the commands of a transcript over its files.
use std::alloc::{AllocError, Global};
use tinker_top::tinker;
use tnk_base::MemoryHost;
use transcript_notation::{
    Block, Chains, Content, Files, Part, Prefixes, Report, Trouble, Verb, compare_file,
    compare_run, number, owned, split_name, split_word,
};

/// Plays the whole transcript, and tells what is wrong with it.
pub fn play(alloc: Global, text: &str, report: &mut Report) -> Result<(), AllocError> {
    let lines: Vec<&str> = text.split('\n').collect(alloc)?;
    play_lines(alloc, &lines, report)
}

fn play_lines(alloc: Global, lines: &[&str], report: &mut Report) -> Result<(), AllocError> {
    let mut player = Player::new(alloc);
    let played = player.play_all(lines, report);
    report.runs = report.runs.saturating_add(player.runs);
    played
}

/// A run of `tinker`: its words, and the lines behind it.
#[derive(Clone, Copy)]
struct Run<'a> {
    words: &'a [String],
    lines: &'a [&'a str],
}

/// What the commands so far have left.
#[derive(Drop)]
struct Player<'a> {
    alloc: Global,
    files: Files,
    /// The numbers of the calls that fail in the next run.
    failing: Vec<u64>,
    /// The first parts that the next run is made over.
    prefixes: Option<Prefixes<'a>>,
    /// The chains that the next run is made behind.
    chains: Option<Chains<'a>>,
    /// What differs at the command that is played.
    differs: String,
    /// How many runs were made.
    runs: u64,
}

impl<'a> Player<'a> {
    /// Nothing was played yet.
    fn new(alloc: Global) -> Self {
        Player {
            alloc,
            files: Files::new(alloc),
            failing: Vec::new(alloc),
            prefixes: None,
            chains: None,
            differs: String::new(alloc),
            runs: 0,
        }
    }

    fn play_all(&mut self, lines: &'a [&'a str], report: &mut Report) -> Result<(), AllocError> {
        let mut is_empty = true;
        for index in 0..lines.len() {
            if let Some(block) = Block::at(lines, index) {
                is_empty = false;
                self.play(&block, report)?;
            }
        }
        if is_empty {
            report.tell_file("there is no command")?;
        }
        Ok(())
    }

    /// Plays a command, and tells what is wrong with it.
    fn play(&mut self, block: &Block<'a>, report: &mut Report) -> Result<(), AllocError> {
        self.differs.clear();
        match self.perform(block) {
            Ok(()) => Ok(()),
            Err(Trouble::NoMemory) => Err(AllocError),
            Err(trouble) => report.tell(block, trouble, &self.differs),
        }
    }

    fn perform(&mut self, block: &Block<'a>) -> Result<(), Trouble> {
        let (verb, words) = split_word(block.command()?);
        match Verb::of(verb)? {
            Verb::Tinker => self.tinker(words, block.behind),
            Verb::File => self.file(words, block.behind),
            Verb::Holds => self.holds(words, block.behind),
            Verb::Absent => self.absent(words, block),
            Verb::Failing => self.failing(words, block),
            Verb::Prefixes => self.prefixes(words, block),
            Verb::Chains => self.chains(words, block),
        }
    }

    fn file(&mut self, words: &str, lines: &[&str]) -> Result<(), Trouble> {
        let (name, parts) = split_name(words)?;
        let bytes = self.content(parts, lines)?;
        self.files.put(name, bytes)
    }

    fn holds(&mut self, words: &str, lines: &[&str]) -> Result<(), Trouble> {
        let (name, parts) = split_name(words)?;
        let bytes = self.content(parts, lines)?;
        self.compare(name, &bytes)
    }

    fn compare(&mut self, name: &str, bytes: &[u8]) -> Result<(), Trouble> {
        compare_file(&mut self.differs, bytes, self.files.find(name)?)
    }

    /// The bytes of CONTENT: these parts, and those of the lines.
    fn content(&self, parts: &str, lines: &[&str]) -> Result<Vec<u8>, Trouble> {
        let mut content = Content::new(self.alloc, &self.files);
        content.add_all(parts, lines)?;
        Ok(content.into_bytes())
    }

    fn absent(&mut self, words: &str, block: &Block) -> Result<(), Trouble> {
        block.alone()?;
        let (name, others) = split_name(words)?;
        if !others.is_empty() {
            return Err(Trouble::Unreadable(0));
        }
        match self.files.find(name) {
            Ok(_) => Err(Trouble::HasFile),
            Err(_) => Ok(()),
        }
    }

    fn failing(&mut self, numbers: &str, block: &Block) -> Result<(), Trouble> {
        block.alone()?;
        block.used()?;
        for digits in numbers.split(' ') {
            match number(digits) {
                Some(number) => self.failing.push(number as u64)?,
                None => return Err(Trouble::Unreadable(0)),
            }
        }
        Ok(())
    }

    fn prefixes(&mut self, words: &'a str, block: &Block) -> Result<(), Trouble> {
        block.alone()?;
        block.used()?;
        self.prefixes = Prefixes::read(words);
        match self.prefixes {
            Some(_) => Ok(()),
            None => Err(Trouble::Unreadable(0)),
        }
    }

    fn chains(&mut self, words: &'a str, block: &Block) -> Result<(), Trouble> {
        block.alone()?;
        block.used()?;
        self.chains = Chains::read(words);
        match self.chains {
            Some(_) => Ok(()),
            None => Err(Trouble::Unreadable(0)),
        }
    }

    fn tinker(&mut self, words: &str, lines: &[&str]) -> Result<(), Trouble> {
        let words = owned(self.alloc, words)?;
        let ran = self.run(&Run {
            words: &words,
            lines,
        });
        self.failing.clear();
        self.prefixes = None;
        self.chains = None;
        ran
    }

    /// Makes a run, over each first part or behind each chain where there are some.
    fn run(&mut self, run: &Run) -> Result<(), Trouble> {
        match (self.prefixes, self.chains) {
            (Some(prefixes), _) => self.run_over(&prefixes, run),
            (None, Some(chains)) => self.run_behind(&chains, run),
            (None, None) => self.run_once(run),
        }
    }

    fn run_once(&mut self, run: &Run) -> Result<(), Trouble> {
        let host = self.files.host(run.words, &self.failing)?;
        self.run_on(host, run)
    }

    /// Runs behind each two of the generations, up to the first that differs.
    fn run_behind(&mut self, chains: &Chains, run: &Run) -> Result<(), Trouble> {
        for first in chains.generations.split(' ') {
            for second in chains.generations.split(' ') {
                if let Err(trouble) = self.run_through(chains, first, second, run) {
                    writeln!(self.differs, "through {first} and {second}")?;
                    return Err(trouble);
                }
            }
        }
        Ok(())
    }

    /// Runs behind two generations.
    fn run_through(
        &mut self,
        chains: &Chains,
        first: &str,
        second: &str,
        run: &Run,
    ) -> Result<(), Trouble> {
        self.resched(chains.image, first, chains.name)?;
        self.resched(chains.name, second, chains.name)?;
        self.run_once(run)
    }

    /// Reschedules an image for a generation, which is to be done with the status 0.
    fn resched(&mut self, image: &str, generation: &str, out: &str) -> Result<(), Trouble> {
        let mut text = String::new(self.alloc);
        write!(text, "resched {image} {generation} {out}")?;
        self.succeed(&text)
    }

    /// Makes a run of the words in a text, which is to end with the status 0.
    fn succeed(&mut self, text: &str) -> Result<(), Trouble> {
        let words = owned(self.alloc, text)?;
        let mut host = self.files.host(&words, &[])?;
        let status = self.call(&mut host, &words)?;
        if status != 0 {
            writeln!(self.differs, "{text}: status {status}")?;
            return Err(Trouble::Differs);
        }
        Ok(())
    }

    /// Runs over each first part, up to the first that differs.
    fn run_over(&mut self, prefixes: &Prefixes, run: &Run) -> Result<(), Trouble> {
        for length in prefixes.from..prefixes.to {
            let (name, file) = (prefixes.name, prefixes.file);
            if let Err(trouble) = self.run_part(&Part { name, file, length }, run) {
                writeln!(self.differs, "over the first {length} bytes of {file}")?;
                return Err(trouble);
            }
        }
        Ok(())
    }

    /// Runs over a first part.
    fn run_part(&mut self, part: &Part, run: &Run) -> Result<(), Trouble> {
        let mut host = self.files.host(run.words, &self.failing)?;
        self.files.give_part(&mut host, part)?;
        self.run_on(host, run)
    }

    fn run_on(&mut self, mut host: MemoryHost, run: &Run) -> Result<(), Trouble> {
        let status = self.call(&mut host, run.words)?;
        compare_run(&mut self.differs, run.lines, status, &host)
    }

    /// Makes a run of these words, takes back what the host kept, and answers the status.
    fn call(&mut self, host: &mut MemoryHost, words: &[String]) -> Result<u8, Trouble> {
        let status = tinker(self.alloc, host, words);
        self.runs = self.runs.saturating_add(1);
        self.files.take_kept(host)?;
        Ok(status)
    }
}
