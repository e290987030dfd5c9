//! What is told of a memory word that differs.
ghost use Rattle.std.specs.Prelude.{◌≡◌, false};
ghost use Rattle.row_check.specs.Judgments.{told};
ghost use Rattle.replayer.specs.Lists.{memory_word, found_word};

use access_log::{Field, Found};
use report_rows::MemoryWord;
use row_check::Difference;

pub(crate) fn found_word(word: MemoryWord) -> Found
    ensures { result ≡ found_word word }
{
    Found::Word(word.addr, word.value)
}

/// A memory word, or that there is none.
pub(crate) fn memory_word(line: u32, kept: Found, due: Found) -> Difference
    ensures { result ≡ told (memory_word line kept due false) }
{
    Difference {
        line,
        field: Field::Word,
        kept,
        found: due,
    }
}
