// Plays transcripts: text files that read as a terminal does, each over a host in memory that begins without files. What
// differs from them is told on standard output. It is equipment for tests, and stands on `tinker_top`, `tnk_base` and
// `transcript_notation`, which reads them; data/README.md has the notation.
//
// Here the transcripts are fetched and what was found is printed; `player` plays them.
#![tactic(auto)]

mod player;

use player::play;
use std::process::ExitCode;
use std::rt::{Env, Files};
use std::{env, fs, io};
use transcript_notation::Report;

fn main(rt: HostRuntime) -> ExitCode {
    match play_all(&rt) {
        Ok(true) => ExitCode::SUCCESS,
        Ok(false) => ExitCode::FAILURE,
        Err(e) => {
            let _ = println!(rt; "{e}");
            ExitCode::FAILURE
        }
    }
}

/// Plays the transcripts that the program's words name, and answers whether all is as they say.
fn play_all<R: Env + Files + Print + AllocGlobal>(rt: &R) -> io::Result<bool> {
    let names: Vec<String> = env::args(rt)?.skip(1).collect(rt.alloc())?;
    play_files(rt, &names)
}

fn play_files<R: Files + Print + AllocGlobal>(rt: &R, names: &[String]) -> io::Result<bool> {
    let mut report = Report::new(rt.alloc());
    for name in names {
        report.begin(name)?;
        play_file(rt, name, &mut report)?;
        rt.print(&report.text)?;
    }
    tell_runs(rt, report.runs)?;
    Ok(report.troubles == 0)
}

fn tell_runs<R: Print>(rt: &R, runs: u64) -> io::Result<()> {
    println!(rt; "{runs} commands")
}

/// Plays the transcript in the file of a name.
fn play_file<R: Files + AllocGlobal>(rt: &R, name: &str, report: &mut Report) -> io::Result<()> {
    match fs::read_to_string(rt, name) {
        Ok(text) => Ok(play(rt.alloc(), &text, report)?),
        Err(_) => Ok(report.tell_file("the file can't be fetched")?),
    }
}
