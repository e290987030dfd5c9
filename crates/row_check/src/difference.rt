//! What is told of a field that differs.
ghost use Rattle.std.specs.Prelude.{◌≡◌, false};
ghost use Rattle.row_check.specs.Judgments.{told, number, optional, word, end, allowed, found_optional, found_end};

use access_log::{Field, Found};
use timetable::End;

/// A field of a report that differs from what is due.
#[derive(Clone, Copy)]
pub struct Difference {
    /// The number of its row, from 1.
    pub line: u32,
    pub field: Field,
    /// What stands there.
    pub kept: Found,
    /// What is due.
    pub found: Found,
}

/// A number.
pub fn number(line: u32, field: Field, kept: u64, due: u64) -> Difference
    ensures { result ≡ told (number line field kept due) }
{
    Difference {
        line,
        field,
        kept: Found::Number(kept),
        found: Found::Number(due),
    }
}

fn found_optional(n: Option<u32>) -> Found
    ensures { result ≡ found_optional n }
{
    match n {
        None => Found::Nothing,
        Some(n) => Found::Number(u64::from(n)),
    }
}

/// A number, or none.
pub fn optional(line: u32, field: Field, kept: Option<u32>, due: Option<u32>) -> Difference
    ensures { result ≡ told (optional line field kept due) }
{
    Difference {
        line,
        field,
        kept: found_optional(kept),
        found: found_optional(due),
    }
}

/// A word.
pub fn word(line: u32, field: Field, kept: u32, due: u32) -> Difference
    ensures { result ≡ told (word line field kept due) }
{
    Difference {
        line,
        field,
        kept: Found::Hex(kept),
        found: Found::Hex(due),
    }
}

fn found_end(end: End) -> Found
    ensures { result ≡ found_end end }
{
    match end {
        End::Stopped(stop) => Found::End(Some(stop)),
        End::Spent => Found::End(None),
    }
}

/// Why a core went no further.
pub fn end(line: u32, kept: End, due: End) -> Difference
    ensures { result ≡ told (end line kept due) }
{
    Difference {
        line,
        field: Field::End,
        kept: found_end(kept),
        found: found_end(due),
    }
}

/// A number where nothing is due.
pub fn refused(line: u32, field: Field, kept: u64) -> Difference
    ensures { result ≡ told (allowed line field kept false) }
{
    Difference {
        line,
        field,
        kept: Found::Number(kept),
        found: Found::Nothing,
    }
}
