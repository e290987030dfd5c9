//! Runs an assembler source or an image on the machine, each core on a thread of its own, and reports the run.
#![tactic(auto)]

#[cfg(test)]
mod gates;
mod obey;
mod tool;
mod usage;

use core_threads::OpenGate;
use kmp_base::{StdSink, StdSource};
use kmp_call::{given_words, tell_end, tell_reading, tell_split, texts};
use kmp_words::Program;
use std::env;
use std::process::ExitCode;

fn main(rt: HostRuntime) -> ExitCode {
    let owned = given_words(rt.alloc(), env::args(&rt));
    let words = texts(rt.alloc(), &owned);
    tell_reading(&rt, Program::KmpMp, &rt.stdin(), &words);
    let mut source = StdSource::new(rt.stdin());
    let sink = StdSink::new(rt.stdout());
    let (ending, _) = tool::answer(&rt, rt.alloc(), &words, &mut source, sink, &OpenGate);
    tell_split(&rt, Program::KmpMp, &ending.split);
    tell_end(&rt, Program::KmpMp, usage::USAGE, &words, ending.status);
    ExitCode::from(ending.status.code())
}
