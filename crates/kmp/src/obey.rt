//! The orders of kmp: a run in turns, the image of a source, the check of a report, and a trial.
ghost use Rattle.std.specs.Prelude.{◌≡◌, ◌⊎◌, ◌≤◌, length, Ok};
ghost use Rattle.report_text.specs.Form.{IsReport};
ghost use Rattle.report_text.specs.Text.{report_text};
ghost use Rattle.image_file.specs.Value.{image_bytes};
ghost use Rattle.kmp_words.specs.Input.{limit_of, meaning_of};
ghost use Rattle.kmp_words.specs.Loaded.{image_in};
ghost use Rattle.kmp_words.specs.Words.{IsProperInput, IsRunnable, IsRunnableSetup};
ghost use Rattle.kmp_words.specs.declared.program.Program.TheVariants as programs;
ghost use Rattle.kmp_call.specs.Outcome.{report_limit, Answers, Finishes, RunsOut, Ends, EndsOrder, IsRunDue};
ghost use Rattle.kmp_call.specs.Told.{Tells, TellsInput};
ghost use Rattle.kmp_call.specs.declared.status.Status.TheVariants.{Done};
ghost use Rattle.kmp.specs.Outcome.{IsImageDue, IsVerdictDue, IsCheckDue, IsDue};

use crate::trial::obey_trial;
use crate::verdict;
use core_run::run_serial;
use image_file::{Image, write_image};
use kmp_base::{InputFault, Setup, Sink, Source, read_input};
use kmp_call::{Ending, Status, end_unloaded, refuse_input, refuse_report, write_row, write_run};
use kmp_words::{Input, Loaded, Order, Refusal, load};
use replayer::{Verdict, check};
use report_read::{REPORT_LIMIT, ReportFault, read_report};
use report_text::Report;
use std::alloc::Global;

/// Reads the input of an order and carries the order out, or refuses the input. Nothing is written
/// before all memory was taken.
pub fn obey<S: Source, K: Sink>(
    alloc: Global,
    order: &Order,
    source: &mut S,
    sink: &mut K,
) -> Ending
    requires runnable { IsRunnable programs.Kmp order.now }
    ensures ends { EndsOrder S.left S.faults K.held K.faults IsDue order.now source.old source.new sink.old sink.new result.status }
    ensures tells { Tells S.left S.faults (Ok order.now) source.old source.new sink.old sink.new result.status result.split.items }
{
    match order {
        Order::Run { setup, input } => obey_run(alloc, setup, *input, source, sink),
        Order::Asm { memory_lines } => obey_asm(alloc, *memory_lines, source, sink),
        Order::Replay => Ending::of(alloc, obey_replay(alloc, source, sink)),
        Order::Trial { setup, size } => { Ending::of(alloc, obey_trial(alloc, setup, *size, sink)) }
    }
}

// Runs an image in turns, and writes its report.
fn run<K: Sink>(alloc: Global, setup: &Setup, image: Image, sink: &mut K) -> Status
    requires runnable { IsRunnableSetup programs.Kmp setup.now }
    ensures written { Finishes K.held K.faults sink.old sink.new (IsRunDue setup.now (Ok image)) result ⊎ RunsOut sink.old sink.new result }
{
    let ran = run_serial(alloc, &image, setup);
    write_run(alloc, setup, image, ran, sink)
}

// Reads an input and runs it in turns, or refuses it.
fn obey_run<S: Source, K: Sink>(
    alloc: Global,
    setup: &Setup,
    input: Input,
    source: &mut S,
    sink: &mut K,
) -> Ending
    requires runnable { IsRunnableSetup programs.Kmp setup.now }
    requires proper { IsProperInput input }
    ensures ends { Ends S.left S.faults K.held K.faults (limit_of input) (λ bytes. IsRunDue setup.now (image_in (meaning_of input bytes)))
        source.old source.new sink.old sink.new result.status }
    ensures tells { TellsInput S.left S.faults input source.old source.new sink.old sink.new result.status result.split.items }
{
    match load(alloc, source, input) {
        Ok(Loaded { image, split }) => Ending {
            status: run(alloc, setup, image, sink),
            split,
        },
        Err(fault) => end_unloaded(alloc, fault, sink),
    }
}

// Writes the bytes of an image.
fn write<K: Sink>(image: &Image, sink: &mut K) -> Status
    ensures answers { Answers K.held K.faults sink.old sink.new (image_bytes image.now) Done result }
{
    Status::Done.after_write(write_image(image, sink))
}

// Reads a source and writes its image, or refuses it.
fn obey_asm<S: Source, K: Sink>(
    alloc: Global,
    memory_lines: u32,
    source: &mut S,
    sink: &mut K,
) -> Ending
    requires proper { IsProperInput (Input.Source memory_lines) }
    ensures ends { Ends S.left S.faults K.held K.faults (limit_of (Input.Source memory_lines))
        (λ bytes. IsImageDue (image_in (meaning_of (Input.Source memory_lines) bytes))) source.old source.new sink.old sink.new result.status }
    ensures tells { TellsInput S.left S.faults (Input.Source memory_lines) source.old source.new sink.old sink.new result.status result.split.items }
{
    match load(alloc, source, Input::Source(memory_lines)) {
        Ok(Loaded { image, split }) => Ending {
            status: write(&image, sink),
            split,
        },
        Err(fault) => end_unloaded(alloc, fault, sink),
    }
}

// Checks a report and writes the verdict.
fn judge<K: Sink>(alloc: Global, report: &Report, sink: &mut K) -> Status
    requires form { IsReport report.now }
    requires size { length (report_text report.now) ≤ 268435456 }
    ensures { Finishes K.held K.faults sink.old sink.new (IsVerdictDue report.now) result ⊎ RunsOut sink.old sink.new result }
{
    match check(alloc, report) {
        Ok(Verdict::Agrees) => write_row(&verdict::agrees(), Status::Done, sink),
        Ok(Verdict::Differs(difference)) => write_row(
            &verdict::differs(&difference),
            Status::Differs(difference.line),
            sink,
        ),
        Err(_) => Status::NoMemory,
    }
}

// Checks the report whose text was read, or refuses the text.
fn check_text<K: Sink>(alloc: Global, bytes: &[u8], sink: &mut K) -> Status
    requires size { length bytes.now ≤ 268435456 }
    ensures { Finishes K.held K.faults sink.old sink.new (IsCheckDue bytes.now) result ⊎ RunsOut sink.old sink.new result }
{
    match read_report(alloc, bytes) {
        Ok(report) => judge(alloc, &report, sink),
        Err(ReportFault::BadRow(line)) => refuse_report(line, sink),
        Err(ReportFault::Memory) => Status::NoMemory,
    }
}

// Reads a report and checks it, or refuses it.
fn obey_replay<S: Source, K: Sink>(alloc: Global, source: &mut S, sink: &mut K) -> Status
    ensures ends { Ends S.left S.faults K.held K.faults report_limit IsCheckDue source.old source.new sink.old sink.new result }
{
    match read_input(alloc, source, REPORT_LIMIT) {
        Ok(bytes) => check_text(alloc, &bytes, sink),
        Err(InputFault::TooLong) => refuse_input(Refusal::TooLong(REPORT_LIMIT), sink),
        Err(InputFault::Failed) => Status::ReadFault,
        Err(InputFault::Memory) => Status::NoMemory,
    }
}
