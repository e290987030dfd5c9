//! The rows behind the history.
ghost use Rattle.std.specs.Prelude.{◌≡◌, ◌*◌, ◌≤◌, length, IfOk};
ghost use Rattle.right_run.specs.Right.{FollowsOn};
ghost use Rattle.report_text.specs.Form.{IsReport};
ghost use Rattle.report_text.specs.Text.{report_text};
ghost use Rattle.row_check.specs.Judgments.{first_told};
ghost use Rattle.replayer.specs.Outcome.{outcome_judged};

use crate::Difference;
use crate::cores::cores_difference;
use crate::counts::counts_difference;
use crate::lines::{cores_line, counts_line, timetables_line, words_line};
use crate::timetables::judge_timetables;
use crate::words::words_difference;
use report_build::counts_of;
use report_text::{NoMemory, Report};
use seq_machine::Machine;
use std::alloc::Global;

/// The first field that differs behind the history, whose accesses the machine has made. The error says that there wasn't enough
/// memory for the counts.
pub(crate) fn outcome_difference(
    alloc: Global,
    machine: &mut Machine,
    report: &Report,
) -> Result<Option<Difference>, NoMemory>
    requires form { IsReport report.now }
    requires size { length (report_text report.now) ≤ 268435456 }
    requires follows { FollowsOn report.now.setup.machine report.now.setup report.now.image report.now.items }
    requires cores { length machine.old.cores ≡ report.now.setup.cores }
    requires words { length machine.old.memory ≡ 2 * report.now.image.memory_lines }
    ensures { IfOk result (λ told. told ≡ first_told (outcome_judged report.now machine.old)) }
{
    let tables = judge_timetables(report, timetables_line(report));
    if let Some(difference) = cores_difference(
        machine,
        report,
        &tables.clocks,
        cores_line(report),
    ) {
        return Ok(Some(difference));
    }
    let line = words_line(report);
    if let Some(difference) = words_difference(machine, &report.image, &report.words, line) {
        return Ok(Some(difference));
    }
    if let Some(difference) = tables.told {
        return Ok(Some(difference));
    }
    let due = counts_of(
        alloc,
        &report.setup,
        &report.image,
        &report.cores,
        report.history.items(),
    )?;
    Ok(counts_difference(counts_line(report), &report.counts, &due))
}
