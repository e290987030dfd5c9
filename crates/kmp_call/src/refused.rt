//! The rows of refusals.
ghost use Rattle.std.specs.Prelude.{◌≡◌, ◌≤◌, length};
ghost use Rattle.kmp_call.specs.Refused.{refused_row, word_row, source_row, image_row, too_long_row, bad_row, refusal_row};

use asm_parse::AsmCause;
use image_file::ImageCause;
use kmp_base::Row;
use kmp_words::{Refusal, WordCause, WordFault};

// A refusal's number and name, and the kind and the number of its place.
#[tactic(auto, using(std_laws::proofs::NumberLaws::length_decimal_64))]
fn refused(number: u64, name: &str, kind: &str, place: u64) -> Row
    requires name { length name.now ≤ 20 }
    requires kind { length kind.now ≤ 10 }
    ensures row { result ≡ refused_row number name.now kind.now place }
{
    let mut row = Row::new();
    row.text("refused ");
    row.decimal(number);
    row.text(" ");
    row.text(name);
    row.text(" ");
    row.text(kind);
    row.text(" ");
    row.decimal(place);
    row.text("\n");
    row
}

/// The row of words without a meaning.
pub fn of_words(fault: WordFault) -> Row
    ensures row { result ≡ word_row fault }
{
    let word = u64::from(fault.word);
    match fault.cause {
        WordCause::NoCommand(_) => refused(20, "NoCommand", "word", word),
        WordCause::UnknownCommand(_) => refused(21, "UnknownCommand", "word", word),
        WordCause::UnknownOption => refused(22, "UnknownOption", "word", word),
        WordCause::OptionTwice => refused(23, "OptionTwice", "word", word),
        WordCause::BadValue => refused(24, "BadValue", "word", word),
        WordCause::Excluded => refused(25, "Excluded", "word", word),
    }
}

fn of_source(cause: AsmCause, line: u32) -> Row
    ensures row { result ≡ source_row cause line }
{
    let line = u64::from(line);
    match cause {
        AsmCause::BadByte => refused(1, "BadByte", "line", line),
        AsmCause::UnknownName => refused(2, "UnknownName", "line", line),
        AsmCause::BadOperand => refused(3, "BadOperand", "line", line),
        AsmCause::Range => refused(4, "Range", "line", line),
        AsmCause::LabelTwice => refused(5, "LabelTwice", "line", line),
        AsmCause::LabelMissing => refused(6, "LabelMissing", "line", line),
        AsmCause::NoCode => refused(7, "NoCode", "line", line),
        AsmCause::TooMuch => refused(8, "TooMuch", "line", line),
    }
}

fn of_image(cause: ImageCause, byte: u32) -> Row
    ensures row { result ≡ image_row cause byte }
{
    let byte = u64::from(byte);
    match cause {
        ImageCause::BadMagic => refused(10, "BadMagic", "byte", byte),
        ImageCause::Truncated => refused(11, "Truncated", "byte", byte),
        ImageCause::OddCode => refused(12, "OddCode", "byte", byte),
        ImageCause::BadWord => refused(13, "BadWord", "byte", byte),
        ImageCause::Overlap => refused(14, "Overlap", "byte", byte),
        ImageCause::DoesNotFit => refused(15, "DoesNotFit", "byte", byte),
        ImageCause::Trailing => refused(16, "Trailing", "byte", byte),
    }
}

fn too_long(limit: usize) -> Row
    ensures row { result ≡ too_long_row limit }
{
    refused(9, "TooLong", "byte", limit as u64)
}

/// The row of a text that is no report, by the number of its first bad row.
pub fn bad_row(line: u32) -> Row
    ensures row { result ≡ bad_row line }
{
    refused(30, "BadRow", "line", u64::from(line))
}

/// The row of an input that means no image.
pub fn of_input(refusal: Refusal) -> Row
    ensures row { result ≡ refusal_row refusal }
{
    match refusal {
        Refusal::TooLong(limit) => too_long(limit),
        Refusal::Asm(cause, line) => of_source(cause, line),
        Refusal::Image(cause, byte) => of_image(cause, byte),
    }
}
