// What the program says of itself.
ghost use Rattle.std.specs.Prelude.{◌≡◌, IfOk};
ghost use Rattle.tinker_texts.specs.Help.{version_line, help_commands, help_rest, help_page};

use std::alloc::{AllocError, Global};

/// The program's name and version.
#[tactic(auto, unfolding(crate::specs::Help::version_line))]
pub fn version() -> &'static [u8]
    ensures { result.now ≡ version_line }
{
    b"tinker 0.1\n"
}

/// Each command with its words, and what it does.
#[tactic(auto, unfolding(crate::specs::Help::help_commands))]
fn commands() -> &'static [u8]
    ensures { result.now ≡ help_commands }
{
    b"\
tinker: old VLIW object code on newer machine generations, with proved answers
tinker check IMAGE                                says whether an image is accepted, or which rule it breaks first
tinker meaning [SETTINGS] IMAGE INPUT             runs an image by its definition: how it ends, and what it puts out
tinker run [SETTINGS] (IMAGE GENERATION INPUT)..  runs 1 to 8 images on generations, page by page, and tells the cycles
tinker resched IMAGE GENERATION OUT               writes an image for another generation, which means the same
tinker gen NUMBER BLOCKS OPS OUT                  writes an image drawn from a number, and runs it on t1, t2 and t3
tinker --help                                     puts out this page
tinker --version                                  puts out the version
"
}

/// The settings, the statuses, and where to read more.
#[tactic(auto, unfolding(crate::specs::Help::help_rest))]
fn rest() -> &'static [u8]
    ensures { result.now ≡ help_rest }
{
    b"\
INPUT is a file, or - for an empty input. GENERATION is own, t1, t2, t3 or a description file.
NUMBER is 0 to 4294967295, BLOCKS 1 to 256, and OPS 1 to 500 operations of each block.
SETTINGS, in any order, each at most once:
  frames=N     has N frames for pages, for run alone: 1 to 1024, else 16
  saved=N      saves at most N evicted pages, for run alone: 0 to 1024, else 16
  bound=N      runs at most N blocks of each image: 1 to 1000000, else 100000
  limit=N      takes at most N bytes of output of each: 1 to 1048576, else 65536
  script=FILE  plays the events of a file first, for run alone
  dump=yes     shows the memory that isn't 0
Status: 0 done, 1 a file is refused, 2 words without a form, 3 a file or the output fails, 4 no memory
The manual is docs/MANUAL.md.
"
}

/// The page that `--help` puts out.
pub fn page(alloc: Global) -> Result<Vec<u8>, AllocError>
    ensures { IfOk result (λ page. page.items ≡ help_page) }
{
    let mut page = commands().to_vec(alloc)?;
    page.extend_from_slice(rest())?;
    Ok(page)
}
