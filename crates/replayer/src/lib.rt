//! The check of a report by the sequential machine and the letters of the caches.
//!
//! The machine makes the report's accesses in their order, and over caches each item of the history is compared with the letters
//! in which these hold their lines. Then each core catches up to the number of instructions that its row tells. What stands in
//! each row is compared with what the machine has there.
//!
//! The law that other crates cite:
//! - `proofs/CheckLaws`: a report has no difference exactly where it is right.
#![tactic(auto)]

ghost use Rattle.std.specs.Prelude.{◌≡◌, ◌≤◌, ◌↔◌, length, IfOk, IfNone, IfSome};
ghost use Rattle.report_text.specs.Form.{IsReport};
ghost use Rattle.report_text.specs.Right.{IsRightReport};
ghost use Rattle.report_text.specs.Text.{report_text};
ghost use Rattle.replayer.specs.Outcome.{machine_of};
ghost use Rattle.replayer.specs.Difference.{IsDifference, IfDiffers};

mod cores;
mod counts;
mod course;
mod ends;
mod judgments;
mod lines;
mod outcome;
mod timetables;
mod words;

use history_check::history_difference;
use lines::history_line;
use outcome::outcome_difference;
pub use report_text::NoMemory;
use report_text::Report;
pub use row_check::Difference;
use seq_machine::Machine;
use std::alloc::Global;

/// What a check answers.
#[derive(Clone, Copy)]
pub enum Verdict {
    /// The report is right.
    Agrees,
    /// It isn't, and this is the first field that differs. Rows are judged in their order, and the fields of a row in the
    /// order of [`access_log::Field`]; whether a spent core may have retired so many instructions is judged behind its end.
    Differs(Difference),
}

/// The first difference of a report, by the machine at the start of what it says was loaded.
fn difference_of(
    alloc: Global,
    machine: &mut Machine,
    report: &Report,
) -> Result<Option<Difference>, NoMemory>
    requires form { IsReport report.now }
    requires size { length (report_text report.now) ≤ 268435456 }
    requires start { machine.old ≡ machine_of report.now }
    ensures none { IfOk result (λ told. IfNone told (IsRightReport report.now)) }
    ensures some { IfOk result (λ told. IfSome told (λ difference. IsDifference report.now difference)) }
{
    let items = report.history.items();
    let line = history_line(report);
    let told = history_difference(alloc, &report.setup, &report.image, machine, items, line)?;
    if let Some(difference) = told {
        return Ok(Some(difference));
    }
    outcome_difference(alloc, machine, report)
}

/// Whether a report is right, and else its first difference.
///
/// Each report that was read from a text meets the conditions. The error says that there wasn't enough
/// memory for the machine, or for the letters of the caches; nothing else is taken.
pub fn check(alloc: Global, report: &Report) -> Result<Verdict, NoMemory>
    requires form { IsReport report.now }
    requires size { length (report_text report.now) ≤ 268435456 }
    ensures agrees { IfOk result (λ verdict. (verdict ≡ Verdict.Agrees) ↔ IsRightReport report.now) }
    ensures differs { IfOk result (λ verdict. IfDiffers verdict (IsDifference report.now)) }
    ensures only { (difference : Difference) → IsDifference report.now difference → IfOk result (λ verdict. verdict ≡ Verdict.Differs difference) }
{
    let mut machine = Machine::new(alloc, &report.image, report.setup.cores)?;
    let told = difference_of(alloc, &mut machine, report)?;
    match told {
        None => Ok(Verdict::Agrees),
        Some(difference) => Ok(Verdict::Differs(difference)),
    }
}
