//! What a summary counts, and its rows into a sink.
ghost use Rattle.std.specs.Prelude.{◌≡◌, ◌≤◌, true, length, map};
ghost use Rattle.kmp_base.specs.Rows.{row_text};
ghost use Rattle.kmp_base.specs.Streams.{Writes};
ghost use Rattle.access_log.specs.Items.{entries, transactions};
ghost use Rattle.report_rows.specs.Ends.{end_value};
ghost use Rattle.report_text.specs.Counts.{at_entry};
ghost use Rattle.report_summary.specs.Summary.{all_retired, word_sum, summary_rows, summary_text};

use crate::rows;
use access_log::Item;
use kmp_base::{Row, Sink, WriteFault};
use report_print::put_rows;
use report_text::{MemoryWord, Report};
use timetable::CoreEnd;

/// The instructions that all cores executed.
fn retired(cores: &[CoreEnd]) -> u64
    requires few { length cores.now ≤ 8 }
    ensures retired { result ≡ all_retired (map end_value cores.now) }
{
    cores.iter().map(|ended| u64::from(ended.retired)).sum()
}

/// Whether an item is an access.
fn is_access(item: &Item) -> bool
    ensures access { result ≡ at_entry (λ entry. true) item.now }
{
    match item {
        Item::Done(_) => true,
        Item::Bus(_) => false,
    }
}

/// How many accesses there are.
fn count_accesses(items: &[Item]) -> u64
    ensures accesses { result ≡ length (entries items.now) }
{
    let mut count = 0;
    for item in items {
        count += u64::from(is_access(item));
    }
    count
}

/// How many transactions there are on the bus.
fn count_transactions(items: &[Item]) -> u64
    ensures transactions { result ≡ length (transactions items.now) }
{
    items.len() as u64 - count_accesses(items)
}

/// The words of memory, added; the lowest 32 bits of it.
fn word_sum(words: &[MemoryWord]) -> u32
    ensures sum { result ≡ word_sum words.now }
{
    let mut sum = 0u32;
    for word in words {
        sum = sum.wrapping_add(word.value);
    }
    sum
}

/// The rows of the summary of a report of a trial of so many blocks.
fn summary(report: &Report, size: u32) -> [Row; 7]
    requires few { length report.now.cores ≤ 8 }
    ensures rows { result ≡ map row_text (summary_rows size report.now) }
{
    let items = report.history.items();
    [
        rows::trial(report.setup.seed, size),
        rows::machine(&report.setup),
        rows::count("retired", retired(&report.cores)),
        rows::count("accesses", count_accesses(items)),
        rows::count("transactions", count_transactions(items)),
        rows::sum(word_sum(&report.words)),
        rows::ends(&report.cores),
    ]
}

/// Writes the summary of a report of a trial of so many blocks, one row in a put. It takes no memory.
pub fn print_summary<K: Sink>(report: &Report, size: u32, sink: &mut K) -> Result<(), WriteFault>
    requires few { length report.now.cores ≤ 8 }
    ensures writes { Writes K.held K.faults sink.old sink.new result (summary_text size report.now) }
{
    put_rows(&summary(report, size), sink)
}
