//! The order of kmp_mp: a run on threads.
ghost use Rattle.std.specs.Prelude.{◌≡◌, Ok};
ghost use Rattle.kmp_words.specs.Input.{limit_of, meaning_of};
ghost use Rattle.kmp_words.specs.Loaded.{image_in};
ghost use Rattle.kmp_words.specs.Words.{IsProperInput, IsRunnable, IsRunnableSetup};
ghost use Rattle.kmp_words.specs.declared.program.Program.TheVariants as programs;
ghost use Rattle.kmp_call.specs.Outcome.{Ends, EndsOrder, IsRunDue};
ghost use Rattle.kmp_call.specs.Told.{Tells, TellsInput};
ghost use Rattle.kmp_mp.specs.Outcome.{IsDue};

use core_threads::{Gate, run_threads};
use kmp_base::{Setup, Sink, Source};
use kmp_call::{Ending, end_unloaded, write_run};
use kmp_words::{Input, Loaded, Order, load};
use std::alloc::Global;
use std::sync::Wait;
use std::thread::Threads;

/// Reads an input and runs it on threads, or refuses it.
fn obey_run<R: Threads + Wait + Sync, S: Source, K: Sink, G: Gate + Sync>(
    rt: &R,
    alloc: Global,
    setup: &Setup,
    input: Input,
    source: &mut S,
    sink: &mut K,
    gate: &G,
) -> Ending
    requires runnable { IsRunnableSetup programs.KmpMp setup.now }
    requires proper { IsProperInput input }
    ensures ends { Ends S.left S.faults K.held K.faults (limit_of input) (λ bytes. IsRunDue setup.now (image_in (meaning_of input bytes)))
        source.old source.new sink.old sink.new result.status }
    ensures tells { TellsInput S.left S.faults input source.old source.new sink.old sink.new result.status result.split.items }
{
    match load(alloc, source, input) {
        Ok(Loaded { image, split }) => {
            let ran = run_threads(rt, alloc, &image, setup, gate);
            Ending {
                status: write_run(alloc, setup, image, ran, sink),
                split,
            }
        }
        Err(fault) => end_unloaded(alloc, fault, sink),
    }
}

/// Reads the input of an order and carries the order out, or refuses the input. Nothing is written
/// before all memory was taken.
pub fn obey<R: Threads + Wait + Sync, S: Source, K: Sink, G: Gate + Sync>(
    rt: &R,
    alloc: Global,
    order: &Order,
    source: &mut S,
    sink: &mut K,
    gate: &G,
) -> Ending
    requires runnable { IsRunnable programs.KmpMp order.now }
    ensures ends { EndsOrder S.left S.faults K.held K.faults IsDue order.now source.old source.new sink.old sink.new result.status }
    ensures tells { Tells S.left S.faults (Ok order.now) source.old source.new sink.old sink.new result.status result.split.items }
{
    match order {
        Order::Run { setup, input } => obey_run(rt, alloc, setup, *input, source, sink, gate),
        Order::Asm { .. } | Order::Replay | Order::Trial { .. } => unreachable!(),
    }
}
