//! The whole of a call of the program.
ghost use Rattle.std.specs.Prelude.{◌≡◌, [], IfOk, IfErr};
ghost use Rattle.kmp_base.specs.Streams.{HoldsNothing};
ghost use Rattle.kmp_words.specs.Words.{texts_of, words_meaning};
ghost use Rattle.kmp_words.specs.declared.program.Program.TheVariants as programs;
ghost use Rattle.kmp_call.specs.Call.{IsCall};
ghost use Rattle.kmp_call.specs.Status.{code_of};
ghost use Rattle.kmp_call.specs.Told.{Tells};
ghost use Rattle.kmp_call.specs.declared.status.Status.{Status};
ghost use Rattle.kmp_mp.specs.Outcome.{IsDue};

use crate::obey::obey;
use core_threads::Gate;
use kmp_base::{Sink, Source};
use kmp_call::{Ending, Status, begin_call, end_call, refuse_words};
use kmp_words::{Program, read_words};
use std::alloc::Global;
use std::sync::Wait;
use std::thread::Threads;

/// Does all that the program does with the words that it was given, writes what is due in long
/// pieces, and answers how it ends; the sink is given back. The gate is called before each cycle of a
/// core, while its thread doesn't hold the turn.
pub fn answer<R: Threads + Wait + Sync, S: Source, K: Sink, G: Gate + Sync>(
    rt: &R,
    alloc: Global,
    words: &Result<Vec<&str>, Status>,
    source: &mut S,
    sink: K,
    gate: &G,
) -> (Ending, K)
    requires fresh { HoldsNothing (K.held sink) }
    ensures obeys { IfOk words.now (λ words. IsCall S.left S.faults K.held K.faults IsDue (words_meaning programs.KmpMp (texts_of words.items))
        source.old source.new sink result.1 result.0.status) }
    ensures tells { IfOk words.now (λ words. Tells S.left S.faults (words_meaning programs.KmpMp (texts_of words.items))
        source.old source.new sink result.1 result.0.status result.0.split.items) }

    // Without words nothing is read, written or told.
    ensures withheld { IfErr words.now (λ status. (result.0.status ≡ status) × (result.0.split.items ≡ [])
        × (source.new ≡ source.old) × (result.1 ≡ sink)) }
{
    match begin_call(alloc, words, Program::KmpMp, sink) {
        Ok((order, mut collected)) => {
            let ending = obey(rt, alloc, &order, source, &mut collected, gate);
            end_call(ending, collected)
        }
        Err((status, sink)) => (Ending::of(alloc, status), sink),
    }
}

/// The same over a sink that doesn't collect, by the status alone.
fn call<R: Threads + Wait + Sync, S: Source, K: Sink, G: Gate + Sync>(
    rt: &R,
    alloc: Global,
    words: &[&str],
    source: &mut S,
    sink: &mut K,
    gate: &G,
) -> Status
    ensures obeys { IsCall S.left S.faults K.held K.faults IsDue (words_meaning programs.KmpMp (texts_of words.now))
        source.old source.new sink.old sink.new result }
{
    match read_words(words, Program::KmpMp) {
        Ok(order) => obey(rt, alloc, &order, source, sink, gate).status,
        Err(fault) => refuse_words(fault, sink),
    }
}

/// The status of a call over a sink that doesn't collect, as a number.
pub fn tool_threads<R: Threads + Wait + Sync, S: Source, K: Sink, G: Gate + Sync>(
    rt: &R,
    alloc: Global,
    words: &[&str],
    source: &mut S,
    sink: &mut K,
    gate: &G,
) -> u8
    ensures obeys { (status : Status) × (result ≡ code_of status)
        × IsCall S.left S.faults K.held K.faults IsDue (words_meaning programs.KmpMp (texts_of words.now)) source.old source.new sink.old sink.new status }
{
    call(rt, alloc, words, source, sink, gate).code()
}
