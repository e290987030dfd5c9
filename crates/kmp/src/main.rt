//! Runs an assembler source or an image on the machine and reports the run, writes the image of a source, or checks a
//! report.
#![tactic(auto)]

mod obey;
mod tool;
mod trial;
mod usage;
mod verdict;

use kmp_base::{StdSink, StdSource};
use kmp_call::{given_words, tell_end, tell_reading, tell_split, texts};
use kmp_words::Program;
use std::env;
use std::process::ExitCode;

fn main(rt: HostRuntime) -> ExitCode {
    let owned = given_words(rt.alloc(), env::args(&rt));
    let words = texts(rt.alloc(), &owned);
    tell_reading(&rt, Program::Kmp, &rt.stdin(), &words);
    let mut source = StdSource::new(rt.stdin());
    let sink = StdSink::new(rt.stdout());
    let (ending, _) = tool::answer(rt.alloc(), &words, &mut source, sink);
    tell_split(&rt, Program::Kmp, &ending.split);
    tell_end(&rt, Program::Kmp, usage::USAGE, &words, ending.status);
    ExitCode::from(ending.status.code())
}
