//! Rows that end a call.
ghost use Rattle.kmp_call.specs.Refused.{word_row, refusal_row, bad_row};
ghost use Rattle.kmp_call.specs.Outcome.{Answers};
ghost use Rattle.kmp_call.specs.declared.status.Status.TheVariants.{WordsRefused, InputRefused, ReportRefused};

use crate::refused;
use crate::status::Status;
use kmp_base::{Row, Sink, put};
use kmp_words::{Refusal, WordFault};

/// Writes a row, behind which a status is due.
pub fn write_row<K: Sink>(row: &Row, due: Status, sink: &mut K) -> Status
    ensures answers { Answers K.held K.faults sink.old sink.new row.now due result }
{
    due.after_write(put(sink, row.bytes()))
}

/// Writes the row of words without a meaning.
pub fn refuse_words<K: Sink>(fault: WordFault, sink: &mut K) -> Status
    ensures answers { Answers K.held K.faults sink.old sink.new (word_row fault) (WordsRefused fault) result }
{
    write_row(&refused::of_words(fault), Status::WordsRefused(fault), sink)
}

/// Writes the row of an input that means no image.
pub fn refuse_input<K: Sink>(refusal: Refusal, sink: &mut K) -> Status
    ensures answers { Answers K.held K.faults sink.old sink.new (refusal_row refusal) (InputRefused refusal) result }
{
    write_row(
        &refused::of_input(refusal),
        Status::InputRefused(refusal),
        sink,
    )
}

/// Writes the row of a text that is no report, by the number of its first bad row.
pub fn refuse_report<K: Sink>(line: u32, sink: &mut K) -> Status
    ensures answers { Answers K.held K.faults sink.old sink.new (bad_row line) (ReportRefused line) result }
{
    write_row(&refused::bad_row(line), Status::ReportRefused(line), sink)
}
