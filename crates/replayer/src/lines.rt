//! The lines at which the rows of a report begin.
ghost use Rattle.std.specs.Prelude.{◌≡◌, ◌≤◌, length, sum_by};
ghost use Rattle.report_text.specs.Text.{report_text};
ghost use Rattle.replayer.specs.Outcome.{history_line, cores_line, words_line, timetables_line, counts_line};

use image_file::image_size;
use report_text::Report;
use timetable::CoreEnd;

/// The line of the first item of the history. Nine rows of what was asked for, the number of the image's bytes, and the image, 32 bytes
/// in a row, stand before it.
#[tactic(auto, using(crate::proofs::LineLemmas::history_line_is))]
pub(crate) fn history_line(report: &Report) -> u32
    ensures { result ≡ history_line report.now }
{
    11 + image_size(&report.image).div_ceil(32)
}

/// The line of the first core.
#[tactic(auto, using(crate::proofs::LineLemmas::cores_line_is, crate::proofs::LineLemmas::words_line_is, crate::proofs::LineLemmas::counts_line_is, crate::proofs::LineLemmas::last_line))]
pub(crate) fn cores_line(report: &Report) -> u32
    requires { length (report_text report.now) ≤ 268435456 }
    ensures { result ≡ cores_line report.now }
{
    history_line(report) + report.history.len()
}

/// The line of the first memory word, behind five for each core.
#[tactic(auto, using(crate::proofs::LineLemmas::words_line_is, crate::proofs::LineLemmas::counts_line_is, crate::proofs::LineLemmas::last_line))]
pub(crate) fn words_line(report: &Report) -> u32
    requires { length (report_text report.now) ≤ 268435456 }
    ensures { result ≡ words_line report.now }
{
    cores_line(report) + 5 * report.cores.len() as u32
}

/// The line of the first row of a timetable, behind the memory words.
#[tactic(auto, using(crate::proofs::LineLemmas::timetables_line_is, crate::proofs::LineLemmas::counts_line_is, crate::proofs::LineLemmas::last_line))]
pub(crate) fn timetables_line(report: &Report) -> u32
    requires { length (report_text report.now) ≤ 268435456 }
    ensures { result ≡ timetables_line report.now }
{
    words_line(report) + report.words.len() as u32
}

/// How many rows the timetables of cores have.
fn timetable_rows(cores: &[CoreEnd]) -> u64
    requires few { length cores.now ≤ 8 }
    ensures rows { result ≡ sum_by (λ ended. length ended.rows.rows) cores.now }
{
    cores.iter().map(|ended| u64::from(ended.rows.len())).sum()
}

/// The line of the first count, behind the timetables.
#[tactic(auto, using(crate::proofs::LineLemmas::counts_line_is, crate::proofs::LineLemmas::last_line))]
pub(crate) fn counts_line(report: &Report) -> u32
    requires few { length report.now.cores ≤ 8 }
    requires size { length (report_text report.now) ≤ 268435456 }
    ensures { result ≡ counts_line report.now }
{
    timetables_line(report) + timetable_rows(&report.cores) as u32
}
