//! What stands around an order: the words that ask for it, and the sink that collects what it writes.
ghost use Rattle.std.specs.Prelude.{◌≡◌, [], Ok, IfOk, IfErr, MatchResult};
ghost use Rattle.kmp_base.specs.Streams.{HoldsNothing};
ghost use Rattle.kmp_words.specs.Words.{texts_of, words_meaning, IsRunnable};
ghost use Rattle.kmp_call.specs.Call.{IsOver, IsPut};

use crate::ending::Ending;
use crate::last_row::refuse_words;
use crate::status::Status;
use kmp_base::{Collected, Sink};
use kmp_words::{Order, Program, read_words};
use std::alloc::Global;

/// The most bytes that are collected before they are written.
const ROOM: usize = 65_536;

/// The order that the words of a call ask for, with a sink that collects what is written; or the
/// status of a call that is over at once, with the sink itself. Words without a meaning are refused
/// without memory.
pub fn begin_call<K: Sink>(
    alloc: Global,
    words: &Result<Vec<&str>, Status>,
    program: Program,
    mut sink: K,
) -> Result<(Order, Collected<K>), (Status, K)>
    ensures order { IfOk result (λ begun. MatchResult words.now
        (λ words. words_meaning program (texts_of words.items) ≡ Ok begun.0)
        (λ status. ⊥)) }
    ensures runnable { IfOk result (λ begun. IsRunnable program begun.0) }
    ensures sink { IfOk result (λ begun. begun.1.sink ≡ sink) }
    ensures empty { IfOk result (λ begun. begun.1.waiting.items ≡ []) }
    ensures over { IfErr result (λ ended. MatchResult words.now
        (λ words. IsOver K.held K.faults (words_meaning program (texts_of words.items)) sink ended.1 ended.0)
        (λ status. (ended.0 ≡ status) × (ended.1 ≡ sink))) }
{
    let words = match words {
        Ok(words) => words,
        Err(status) => return Err((*status, sink)),
    };
    match read_words(words, program) {
        Ok(order) => match Collected::new(alloc, ROOM, sink) {
            Ok(collected) => Ok((order, collected)),
            Err(sink) => Err((Status::NoMemory, sink)),
        },
        Err(fault) => {
            let status = refuse_words(fault, &mut sink);
            Err((status, sink))
        }
    }
}

/// Writes what is still collected, and gives the sink back.
pub fn end_call<K: Sink>(ending: Ending, collected: Collected<K>) -> (Ending, K)
    ensures put { IsPut K.held K.faults collected result.1 ending.status result.0.status }
    ensures split { result.0.split ≡ ending.split }
{
    let Ending { status, split } = ending;
    let (sink, finished) = collected.finish();
    let status = status.after_write(finished);
    (Ending { status, split }, sink)
}
