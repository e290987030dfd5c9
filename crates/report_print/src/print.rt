//! A report's rows into a sink, one in a put.
ghost use Rattle.std.specs.Prelude.{map, flat_map};
ghost use Rattle.std.specs.List.{range_with_len};
ghost use Rattle.kmp_base.specs.Rows.{text_of};
ghost use Rattle.kmp_base.specs.Streams.{Writes};
ghost use Rattle.image_file.specs.Value.{image_bytes};
ghost use Rattle.report_rows.specs.Ends.{end_value};
ghost use Rattle.report_rows.specs.Rows.{bytes_row_at, item_row, memory_row, timetable_rows};
ghost use Rattle.report_text.specs.Text.{image_rows, rows_of_cores, rows_of_timetables, count_rows, run_rows, outcome_rows, report_text};

use crate::spell;
use access_log::Item;
use image_file::{Image, Spelling, image_size};
use kmp_base::{Row, Sink, WriteFault, put};
use report_text::{Counts, MemoryWord, Report};
use timetable::{CoreEnd, Rows};

/// Puts rows in order, one in a put. It ends at the first write that fails.
pub fn put_rows<K: Sink>(rows: &[Row], sink: &mut K) -> Result<(), WriteFault>
    ensures { Writes K.held K.faults sink.old sink.new result (flat_map (λ row. row) rows.now) }
{
    for row in rows {
        put(sink, row.bytes())?;
    }
    Ok(())
}

fn print_image_rows<K: Sink>(image: &Image, rows: u32, sink: &mut K) -> Result<(), WriteFault>
    ensures { Writes K.held K.faults sink.old sink.new result
        (text_of (map (bytes_row_at (image_bytes image.now)) (range_with_len 0 rows))) }
{
    let mut numbers = Spelling::new(image);
    for _ in 0..rows {
        put(sink, spell::image(&mut numbers).bytes())?;
    }
    Ok(())
}

fn print_image<K: Sink>(image: &Image, sink: &mut K) -> Result<(), WriteFault>
    ensures { Writes K.held K.faults sink.old sink.new result (text_of (image_rows image.now)) }
{
    let size = image_size(image);
    put(sink, spell::number("image", u64::from(size)).bytes())?;
    print_image_rows(image, size.div_ceil(32), sink)
}

fn print_history<K: Sink>(items: &[Item], sink: &mut K) -> Result<(), WriteFault>
    ensures { Writes K.held K.faults sink.old sink.new result (text_of (map item_row items.now)) }
{
    for item in items {
        put(sink, spell::item(item).bytes())?;
    }
    Ok(())
}

fn print_cores<K: Sink>(cores: &[CoreEnd], sink: &mut K) -> Result<(), WriteFault>
    ensures { Writes K.held K.faults sink.old sink.new result (text_of (rows_of_cores 0 (map end_value cores.now))) }
{
    for i in 0..cores.len() {
        put_rows(&spell::core_end(i as u64, &cores[i]), sink)?;
    }
    Ok(())
}

fn print_memory<K: Sink>(words: &[MemoryWord], sink: &mut K) -> Result<(), WriteFault>
    ensures { Writes K.held K.faults sink.old sink.new result (text_of (map memory_row words.now)) }
{
    for word in words {
        put(sink, spell::memory(word).bytes())?;
    }
    Ok(())
}

fn print_timetable<K: Sink>(core: u64, rows: &Rows, sink: &mut K) -> Result<(), WriteFault>
    ensures { Writes K.held K.faults sink.old sink.new result (text_of (timetable_rows core rows.now.rows)) }
{
    for n in 0..rows.len() {
        put(
            sink,
            spell::timed(core, n, &rows.as_slice()[n as usize]).bytes(),
        )?;
    }
    Ok(())
}

fn print_timetables<K: Sink>(cores: &[CoreEnd], sink: &mut K) -> Result<(), WriteFault>
    ensures { Writes K.held K.faults sink.old sink.new result (text_of (rows_of_timetables 0 (map end_value cores.now))) }
{
    for i in 0..cores.len() {
        print_timetable(i as u64, &cores[i].rows, sink)?;
    }
    Ok(())
}

fn print_counts<K: Sink>(counts: &Counts, sink: &mut K) -> Result<(), WriteFault>
    ensures { Writes K.held K.faults sink.old sink.new result (text_of (count_rows counts.now.values)) }
{
    put_rows(&spell::access_counts(counts), sink)?;
    put_rows(&spell::bus_counts(counts), sink)?;
    put_rows(&spell::wait_counts(counts), sink)
}

/// What was asked for, what was loaded, and what was done.
fn print_run<K: Sink>(report: &Report, sink: &mut K) -> Result<(), WriteFault>
    ensures { Writes K.held K.faults sink.old sink.new result (text_of (run_rows report.now)) }
{
    put_rows(&spell::header(&report.setup), sink)?;
    print_image(&report.image, sink)?;
    print_history(report.history.items(), sink)
}

/// How it ended.
fn print_outcome<K: Sink>(report: &Report, sink: &mut K) -> Result<(), WriteFault>
    ensures { Writes K.held K.faults sink.old sink.new result (text_of (outcome_rows report.now)) }
{
    print_cores(&report.cores, sink)?;
    print_memory(&report.words, sink)?;
    print_timetables(&report.cores, sink)?;
    print_counts(&report.counts, sink)
}

/// Puts the one text of a report, one row in a put. It takes no memory, and ends at the first write that fails.
pub fn print_report<K: Sink>(report: &Report, sink: &mut K) -> Result<(), WriteFault>
    ensures writes { Writes K.held K.faults sink.old sink.new result (report_text report.now) }
{
    print_run(report, sink)?;
    print_outcome(report, sink)?;
    put(sink, b"end\n")
}
