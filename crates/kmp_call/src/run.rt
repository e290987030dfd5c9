//! The report of a run, whatever engine and turns it went by.
ghost use Rattle.std.specs.Prelude.{◌≡◌, ◌⊎◌, ◌*◌, ◌<◌, ◌≤◌, length, Ok, IfOk};
ghost use Rattle.std.specs.List.{AllByRecursion};
ghost use Rattle.kmp_base.specs.Limits.{IsWithinLimits};
ghost use Rattle.kmp_base.specs.Machines.{most_ways};
ghost use Rattle.access_log.specs.Items.{entries, transactions};
ghost use Rattle.right_run.specs.Right.{IsRight};
ghost use Rattle.right_run.specs.Turns.{IsInTurns, cycles_of, tables_of};
ghost use Rattle.report_text.specs.Text.{report_text};
ghost use Rattle.kmp_call.specs.Right.{IsReportOf};
ghost use Rattle.kmp_call.specs.Status.{status_of};
ghost use Rattle.kmp_call.specs.Outcome.{Answers, Finishes, RunsOut, IsRunDue};

use crate::status::{Status, status_of};
use image_file::Image;
use kmp_base::{NoMemory, Setup, Sink};
use report_build::build_report;
use report_print::print_report;
use report_text::Report;
use std::alloc::Global;
use timetable::Outcome;

/// The report of an image's run. It fails only for want of memory.
pub fn report_run(
    alloc: Global,
    setup: &Setup,
    image: Image,
    ran: Result<Outcome, NoMemory>,
) -> Result<Report, NoMemory>
    requires limits { IsWithinLimits setup.now }
    requires ways { setup.now.ways ≤ most_ways setup.now.machine }
    requires right { IfOk ran (IsRight setup.now image) }
    requires turns { IfOk ran (λ outcome. IsInTurns setup.now (cycles_of outcome.cores) (tables_of outcome.cores) (entries outcome.items)) }
    requires cores { IfOk ran (λ outcome. length outcome.cores ≡ setup.now.cores) }
    requires words { IfOk ran (λ outcome. length outcome.words ≡ 2 * image.memory_lines) }
    requires lines { IfOk ran (λ outcome. AllByRecursion (λ bus. bus.line < image.memory_lines) (transactions outcome.items)) }
    ensures report { IfOk result (λ report. IsReportOf setup.now image report) }
{
    let outcome = ran?;
    build_report(alloc, setup, image, outcome)
}

// Writes a report.
fn write_report<K: Sink>(report: &Report, sink: &mut K) -> Status
    ensures answers { Answers K.held K.faults sink.old sink.new (report_text report.now) (status_of report.now) result }
{
    status_of(report).after_write(print_report(report, sink))
}

/// Writes the report of an image's run, or nothing where memory ran out.
pub fn write_run<K: Sink>(
    alloc: Global,
    setup: &Setup,
    image: Image,
    ran: Result<Outcome, NoMemory>,
    sink: &mut K,
) -> Status
    requires limits { IsWithinLimits setup.now }
    requires ways { setup.now.ways ≤ most_ways setup.now.machine }
    requires right { IfOk ran (IsRight setup.now image) }
    requires turns { IfOk ran (λ outcome. IsInTurns setup.now (cycles_of outcome.cores) (tables_of outcome.cores) (entries outcome.items)) }
    requires cores { IfOk ran (λ outcome. length outcome.cores ≡ setup.now.cores) }
    requires words { IfOk ran (λ outcome. length outcome.words ≡ 2 * image.memory_lines) }
    requires lines { IfOk ran (λ outcome. AllByRecursion (λ bus. bus.line < image.memory_lines) (transactions outcome.items)) }
    ensures written { Finishes K.held K.faults sink.old sink.new (IsRunDue setup.now (Ok image)) result ⊎ RunsOut sink.old sink.new result }
{
    match report_run(alloc, setup, image, ran) {
        Ok(report) => write_report(&report, sink),
        Err(_) => Status::NoMemory,
    }
}
