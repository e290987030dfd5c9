//! Cutting a text into rows, and a row into parts.
ghost use Rattle.std.specs.Prelude.{◌≡◌, ◌∷◌, ◌++◌, ◌==◌, ◌<◌, ◌≤◌, min, false, length, codes, IfSome, IfNone};
ghost use Rattle.std.specs.List.{position};
ghost use Rattle.std.specs.Option.{option_copied};
ghost use Rattle.row_reader.specs.Rows.{rows_of, begins_named};
ghost use Rattle.row_reader.specs.Fields.{Finds, parts_of, parts_left, part_at, IsCutOff};

use kmp_base::Fault;

/// What is left of a row, without its line feed: none where the row has ended. An empty slice is one
/// empty part.
pub type Parts<'a> = Option<&'a [u8]>;

/// Why a value was not read from a text. Its cause is the text from the first row on that doesn't go on as a value of
/// the wanted kind. It is empty where rows are missing.
pub type Stuck<'a> = Fault<&'a [u8]>;

// The index of the first such byte.
fn index_of(bytes: &[u8], byte: u8) -> Option<usize>
    ensures { result ≡ position (λ b. b == byte) bytes.now }
{
    bytes.iter().position(|b| *b == byte)
}

/// The first row of a text, without its line feed, and the text behind that. None where no whole row
/// is left: the text is empty, or has no line feed.
pub fn cut_row(text: &[u8]) -> Option<(&[u8], &[u8])>
    ensures none { IfNone result (IsCutOff (rows_of text.now)) }
    ensures some { IfSome result (λ cut. rows_of text.now ≡ parts_of cut.0.now ∷ rows_of cut.1.now) }
    ensures whole { IfSome result (λ cut. text.now ≡ cut.0.now ++ codes "\n" ++ cut.1.now) }
    ensures shorter { IfSome result (λ cut. length cut.1.now < length text.now) }
    ensures left { IfNone result (length (rows_of text.now) ≡ min 1 (length text.now)) }
{
    match index_of(text, b'\n') {
        Some(end) => Some((&text[..end], &text[end + 1..])),
        None => None,
    }
}

/// The next part of a row, and what is left behind it. None where the row has ended.
pub fn part(rest: Parts) -> Option<(&[u8], Parts)>
    ensures { Finds (λ p. (p.0.now, parts_left (option_copied p.1))) result (part_at (parts_left (option_copied rest.entry))) }
{
    match rest {
        None => None,
        Some(row) => Some(first_part(row)),
    }
}

// The first part of a row's text, and what is left behind it.
fn first_part(row: &[u8]) -> (&[u8], Parts)
    ensures { part_at (parts_of row.now) ≡ Some (result.0.now, parts_left (option_copied result.1)) }
{
    match index_of(row, b' ') {
        Some(end) => (&row[..end], Some(&row[end + 1..])),
        None => (row, None),
    }
}

/// The parts behind `name` in the first row, and the text behind that row. None where no whole row comes next whose
/// first part is `name`.
pub fn named_row<'a>(text: &'a [u8], name: &[u8]) -> Option<(Parts<'a>, &'a [u8])>
    ensures none { IfNone result (begins_named name.now (rows_of text.now) ≡ false) }
    ensures some { IfSome result (λ cut.
        rows_of text.now ≡ (name.now ∷ parts_left (option_copied cut.0)) ∷ rows_of cut.1.now) }
    ensures shorter { IfSome result (λ cut. length cut.1.now < length text.now) }
{
    let (row, behind) = cut_row(text)?;
    let (first, parts) = first_part(row);
    if first == name {
        Some((parts, behind))
    } else {
        None
    }
}

/// The number of rows of a text. What stands behind the last line feed counts as a row, unless it is
/// empty.
pub fn row_count(text: &[u8]) -> usize
    ensures rows { result ≡ length (rows_of text.now) }
    ensures within { result ≤ length text.now }
{
    let mut rest = text;
    let mut count = 0;
    'rows: while rest.len() > 0 {
        match cut_row(rest) {
            Some((_, behind)) => {
                rest = behind;
                count += 1;
            }
            None => return count + 1,
        }
    }
    count
}
