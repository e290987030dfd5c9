//! The first row of a text.
ghost use Rattle.std.specs.Prelude.{◌≡◌, ℕ, ◌<◌, ◌≤◌, List, [], ◌∷◌, length, Option, Some, None, IfOk};
ghost use Rattle.std.specs.Fn.{FnOnceReturnsAt};
ghost use Rattle.row_reader.specs.Rows.{Row, rows_of};
ghost use Rattle.row_reader.specs.Fields.{parts_of};
ghost use Rattle.row_reader.specs.Reading.{row_at};
ghost use Rattle.row_reader.specs.Gives.{Gives};
ghost use Rattle.report_row_reader.specs.Reading.{fixed_of, number_row_of, registers_row_of};

use kmp_base::Fault;
use report_row_reader::{fixed_row, number_row, registers_row};
use row_reader::{Stuck, cut_row};

/// The value that `read` finds in the first row, and the text behind the row.
pub(crate) fn first_row<'a, T: Copy, F: FnOnce(&[u8]) -> Option<T>>(
    text: &'a [u8],
    read: F,
) -> Result<(T, &'a [u8]), Stuck<'a>>
    // What is read of the parts of a row.
    ghost one: { Row → Option T }
    requires callable { F.IsAlwaysCallable read }
    requires reads { (row : List ℕ) (value : Option T) → FnOnceReturnsAt F.FnOnce read row value → value ≡ one (parts_of row) }
    requires some { one [] ≡ None }
    ensures found { Gives (λ x. (x.0, rows_of x.1.now)) result (row_at one (rows_of text.now)) }
    ensures returned { IfOk result (λ x. (row : List ℕ) × FnOnceReturnsAt F.FnOnce read row (Some x.0)) }
    ensures shorter { IfOk result (λ x. length x.1.now < length text.now) }
{
    match cut_row(text) {
        Some((row, rest)) => match read(row) {
            Some(value) => Ok((value, rest)),
            None => Err(Fault::Cause(text)),
        },
        None => Err(Fault::Cause(text)),
    }
}

/// The text behind a row of these two parts, which stands first.
#[tactic(auto, unfolding(report_row_reader::specs::Reading::fixed_of))]
pub(crate) fn fixed_at<'a>(
    text: &'a [u8],
    first: &[u8],
    second: &[u8],
) -> Result<((), &'a [u8]), Stuck<'a>>
    ensures found { Gives (λ x. (x.0, rows_of x.1.now)) result (row_at (fixed_of (first.now ∷ second.now ∷ [])) (rows_of text.now)) }
    ensures shorter { IfOk result (λ x. length x.1.now < length text.now) }
{
    first_row(text, move |row| fixed_row(row, first, second))
}

/// The number behind a name in the first row, and the text behind the row.
#[tactic(auto, unfolding(report_row_reader::specs::Reading::number_row_of))]
pub(crate) fn number_at<'a>(
    text: &'a [u8],
    title: &[u8],
    least: u64,
    most: u64,
) -> Result<(u64, &'a [u8]), Stuck<'a>>
    ensures found { Gives (λ x. (x.0, rows_of x.1.now)) result (row_at (number_row_of title.now least most) (rows_of text.now)) }
    ensures some { IfOk result (λ x. least ≤ x.0) }
    ensures within { IfOk result (λ x. x.0 ≤ most) }
    ensures shorter { IfOk result (λ x. length x.1.now < length text.now) }
{
    first_row(text, move |row| number_row(row, title, least, most))
}

/// Eight registers of a core in the first row, and the text behind the row.
#[tactic(auto, unfolding(report_row_reader::specs::Reading::registers_row_of))]
pub(crate) fn registers_at(
    text: &[u8],
    core: u32,
    first: u32,
) -> Result<([u32; 8], &[u8]), Stuck<'_>>
    ensures found { Gives (λ x. (x.0, rows_of x.1.now)) result (row_at (registers_row_of core first) (rows_of text.now)) }
{
    first_row(text, move |row| registers_row(row, core, first))
}
