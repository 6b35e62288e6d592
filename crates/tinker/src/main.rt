// The program: the commands of `tinker_top` over the system's files and standard output. It stands on `tinker_top` and
// `tnk_base`. No clause can say what the system gives or takes, so this layer only hands on: all work is done below.
#![tactic(auto)]

mod keeping;
mod real;
mod words;

use real::RealHost;
use std::process::ExitCode;
use tinker_top::tinker;
use words::{Unread, words};

fn main(rt: HostRuntime) -> ExitCode {
    let alloc = rt.alloc();
    let status = match words(alloc, &rt) {
        Ok(words) => tinker(alloc, &mut RealHost::new(&rt), &words),
        Err(Unread::NotText) => {
            let _ = eprintln!(rt; "tinker: a word is not UTF-8");
            2
        }
        Err(Unread::NoMemory) => 4,
    };
    if status == 4 {
        let _ = eprintln!(rt; "tinker: out of memory");
    }
    ExitCode::from(status)
}
