//! A report from its text.
ghost use Rattle.std.specs.Prelude.{◌≡◌, ◌≤◌, length, IfOk};
ghost use Rattle.row_reader.specs.Rows.{rows_of};
ghost use Rattle.row_reader.specs.Gives.{Gives};
ghost use Rattle.report_text.specs.Report.{ReportValue};
ghost use Rattle.report_text.specs.Text.{report_text};
ghost use Rattle.report_text.specs.Form.{IsReport};
ghost use Rattle.report_read.specs.BadRow.{IsReadAs, IfBadRow, IsBadRow};
ghost use Rattle.report_read.specs.Reading.{report_at, read_of};

use crate::image::{last_image_row, read_opening};
use crate::outcome::outcome;
use kmp_base::Fault;
use report_text::Report;
use row_reader::{Stuck, row_count};
use std::alloc::Global;
use thiserror::Error;

/// A report that stands first in a text, and the text behind it.
#[tactic(auto, unfolding(crate::specs::Reading::report_at))]
fn report(alloc: Global, text: &[u8]) -> Result<(Report, &[u8]), Stuck<'_>>
    requires { length text.now ≤ 268435456 }
    ensures { Gives (λ x. (x.0, rows_of x.1.now)) result (report_at (rows_of text.now)) }
{
    let (opening, rest) = read_opening(alloc, text)?;
    let (image, rest) = last_image_row(alloc, rest, opening.size, opening.front)?;
    outcome(alloc, rest, opening.setup, image)
}

/// The report that is the whole of a text.
#[tactic(auto, unfolding(crate::specs::Reading::read_of))]
fn read(alloc: Global, text: &[u8]) -> Result<Report, Stuck<'_>>
    requires { length text.now ≤ 268435456 }
    ensures { Gives (λ report. report) result (read_of (rows_of text.now)) }
{
    let (report, rest) = report(alloc, text)?;
    if rest.is_empty() {
        Ok(report)
    } else {
        Err(Fault::Cause(rest))
    }
}

/// The most bytes of a report that is read.
pub const REPORT_LIMIT: usize = 268_435_456;

/// Why a text wasn't read.
#[derive(Clone, Copy, Debug, Error)]
pub enum ReportFault {
    #[error("no memory")]
    Memory,
    /// The number of the first row that doesn't go on as a report, from 1. It is one past the last where rows are
    /// missing.
    #[error("line {0} doesn't go on as a report")]
    BadRow(u32),
}

/// The report whose text this is, of at most [`REPORT_LIMIT`] bytes.
///
/// Its time is linear in the bytes.
pub fn read_report(alloc: Global, bytes: &[u8]) -> Result<Report, ReportFault>
    requires size { length bytes.now ≤ 268435456 }
    ensures found { IfOk result (λ report. IsReport report × (bytes.now ≡ report_text report)) }
    ensures only { (report : ReportValue) → IsReport report → bytes.now ≡ report_text report → IsReadAs result report }
    ensures bad { IfBadRow result (λ line. IsBadRow (rows_of bytes.now) line) }
{
    match read(alloc, bytes) {
        Ok(report) => Ok(report),
        Err(Fault::Memory) => Err(ReportFault::Memory),
        Err(Fault::Cause(rest)) => {
            let line = row_count(bytes) - row_count(rest) + 1;
            Err(ReportFault::BadRow(line as u32))
        }
    }
}
