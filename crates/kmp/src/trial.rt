//! A trial: the run of a source that a seed draws, and its summary.
ghost use Rattle.std.specs.Prelude.{◌≡◌, ◌⊎◌, ◌≤◌};
ghost use Rattle.kmp_words.specs.Words.{IsRunnableSetup};
ghost use Rattle.kmp_words.specs.declared.program.Program.TheVariants as programs;
ghost use Rattle.kmp_call.specs.Outcome.{Finishes, RunsOut};
ghost use Rattle.kmp.specs.Outcome.{IsSummaryDue, IsTrialDue};

use core_run::run_serial;
use image_file::Image;
use kmp_base::{Setup, Sink};
use kmp_call::{Status, report_run, status_of};
use kmp_words::{Input, LoadFault, Loaded, loaded_from};
use report_summary::print_summary;
use std::alloc::Global;
use workload_gen::source_of;

/// The lines of a trial's memory, of 8 bytes each.
const MEMORY_LINES: u32 = 8192;

/// Runs an image and writes the summary of its report, or nothing without memory.
fn run_trial<K: Sink>(alloc: Global, setup: &Setup, size: u32, image: Image, sink: &mut K) -> Status
    requires runnable { IsRunnableSetup programs.Kmp setup.now }
    requires size { size ≤ 1000 }
    ensures written { Finishes K.held K.faults sink.old sink.new (IsSummaryDue setup.now size image) result
        ⊎ RunsOut sink.old sink.new result }
{
    let ran = run_serial(alloc, &image, setup);
    match report_run(alloc, setup, image, ran) {
        Ok(report) => status_of(&report).after_write(print_summary(&report, size, sink)),
        Err(_) => Status::NoMemory,
    }
}

/// Draws a source, which is a program, runs it in turns, and writes the summary of its report.
pub fn obey_trial<K: Sink>(alloc: Global, setup: &Setup, size: u32, sink: &mut K) -> Status
    requires runnable { IsRunnableSetup programs.Kmp setup.now }
    requires size { size ≤ 1000 }
    ensures written { Finishes K.held K.faults sink.old sink.new (IsTrialDue setup.now size) result
        ⊎ RunsOut sink.old sink.new result }
{
    let Ok(source) = source_of(alloc, setup.seed, size) else {
        return Status::NoMemory;
    };
    match loaded_from(alloc, Input::Source(MEMORY_LINES), &source) {
        Ok(Loaded { image, split: _ }) => run_trial(alloc, setup, size, image, sink),
        Err(LoadFault::Memory) => Status::NoMemory,
        Err(LoadFault::Refused(_)) => unreachable!(),
        Err(LoadFault::Read) => unreachable!(),
    }
}
