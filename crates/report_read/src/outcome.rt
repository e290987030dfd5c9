//! What was done and how it ended, from the rows behind the image.
ghost use Rattle.std.specs.Prelude.{◌≡◌, ◌^◌, ◌<◌, ◌≤◌, ◌++◌, [], length, map, slice_index_or, IfOk};
ghost use Rattle.row_reader.specs.Rows.{rows_of};
ghost use Rattle.row_reader.specs.Gives.{Gives};
ghost use Rattle.report_rows.specs.Ends.{end_value};
ghost use Rattle.report_row_reader.specs.Reading.{numbered};
ghost use Rattle.report_read.specs.Reading.{end_at, ends_at, words_at, timetable_at, timetables_at, timed, with_timetables, counts_at, outcome_at};

use crate::history::history;
use crate::rows::{first_row, registers_at};
use image_file::Image;
use kmp_base::{Fault, Setup};
use mips_isa::CoreState;
use report_row_reader::{count_row, end_row, last_row, memory_row, timed_parts, timed_row};
use report_rows::{Counts, MemoryWord, count_name, most_rows};
use report_text::Report;
use row_reader::{Stuck, named_row};
use std::alloc::Global;
use timetable::{CoreEnd, Rows};

/// The registers of a core, by eight of them in a row.
fn registers(a: [u32; 8], b: [u32; 8], c: [u32; 8], d: [u32; 8]) -> [u32; 32]
    ensures { result ≡ a ++ b ++ c ++ d }
{
    let mut registers = [0; 32];
    registers.copy_from_slice([a, b, c, d].as_flattened());
    registers
}

/// How a core ended, without its timetable.
#[tactic(auto, unfolding(report_row_reader::specs::Reading::end_row_of, crate::specs::Reading::end_at))]
fn end<'a>(
    alloc: Global,
    text: &'a [u8],
    budget: u32,
    core: u32,
) -> Result<(CoreEnd, &'a [u8]), Stuck<'a>>
    ensures { Gives (λ x. (end_value x.0, rows_of x.1.now)) result (end_at budget core (rows_of text.now)) }
{
    let (row, rest) = first_row(text, move |row| end_row(row, budget, core))?;
    let (a, rest) = registers_at(rest, core, 0)?;
    let (b, rest) = registers_at(rest, core, 8)?;
    let (c, rest) = registers_at(rest, core, 16)?;
    let (d, rest) = registers_at(rest, core, 24)?;
    let ended = CoreEnd {
        end: row.end,
        cycles: row.cycles,
        retired: row.retired,
        state: CoreState {
            pc: row.pc,
            dpc: row.dpc,
            regs: registers(a, b, c, d),
        },
        rows: Rows::empty(alloc),
    };
    Ok((ended, rest))
}

/// How each core ended, without its timetable.
fn ends<'a>(
    alloc: Global,
    text: &'a [u8],
    budget: u32,
    cores: u32,
) -> Result<(Vec<CoreEnd>, &'a [u8]), Stuck<'a>>
    ensures read { Gives (λ x. (map end_value x.0.items, rows_of x.1.now)) result (ends_at budget cores (rows_of text.now)) }
    ensures count { IfOk result (λ x. length x.0.items ≡ cores) }
{
    let mut ends = Vec::new(alloc);
    let mut rest = text;
    for core in 0..cores {
        let (ended, behind) = end(alloc, rest, budget, core)?;
        ends.push(ended)?;
        rest = behind;
    }
    Ok((ends, rest))
}

/// The words that stand first in a text, at addresses from `low` on within so many bytes.
#[tactic(auto, unfolding(report_row_reader::specs::Reading::memory_row_of))]
fn words<'a>(
    alloc: Global,
    text: &'a [u8],
    bytes: u32,
    low: u32,
) -> Result<(Vec<MemoryWord>, &'a [u8]), Stuck<'a>>
    requires { bytes ≤ 16777216 }
    ensures { Gives (λ x. (x.0.items, rows_of x.1.now)) result (words_at bytes low (rows_of text.now)) }
{
    let mut words = Vec::new(alloc);
    let mut rest = text;
    let mut from = low;
    'rows: while let Some((parts, behind)) = named_row(rest, b"W") {
        let Some(word) = memory_row(parts, bytes, from) else {
            return Err(Fault::Cause(rest));
        };
        words.push(word)?;
        from = word.addr + 4;
        rest = behind;
    }
    Ok((words, rest))
}

/// The timetable of a core that stands first in a text, of so many rows at most.
#[tactic(auto, unfolding(report_row_reader::specs::Reading::timed_row_of))]
fn timetable<'a>(
    alloc: Global,
    text: &'a [u8],
    core: u32,
    most: u32,
) -> Result<(Rows, &'a [u8]), Stuck<'a>>
    requires few { most ≤ 100002 }
    ensures { Gives (λ x. (numbered 0 x.0.rows, rows_of x.1.now)) result (timetable_at most core (rows_of text.now)) }
{
    let mut rows = Vec::new(alloc);
    let mut rest = text;
    'rows: while let Some((parts, behind)) = timed_parts(rest, core) {
        let Some(row) = timed_row(parts, rows.len() as u32, most) else {
            return Err(Fault::Cause(rest));
        };
        rows.push(row)?;
        rest = behind;
    }
    Ok((Rows::from_vec(rows), rest))
}

/// How each core ended, with its timetable, of so many rows at most.
fn timetables<'a>(
    alloc: Global,
    text: &'a [u8],
    ends: Vec<CoreEnd>,
    most: u32,
) -> Result<(Vec<CoreEnd>, &'a [u8]), Stuck<'a>>
    requires few { length ends.items ≤ 8 }
    requires few_rows { most ≤ 100002 }
    ensures read { Gives (λ x. (map timed (map end_value x.0.items), rows_of x.1.now)) result
        (timetables_at most (length ends.items) (rows_of text.now)) }
    ensures ends { IfOk result (λ x.
        with_timetables (map end_value ends.items) (map timed (map end_value x.0.items)) ≡ map end_value x.0.items) }
{
    let mut cores = ends;
    let mut rest = text;
    for core in 0..cores.len() {
        let (rows, behind) = timetable(alloc, rest, core as u32, most)?;
        cores[core].rows = rows;
        rest = behind;
    }
    Ok((cores, rest))
}

/// The counts.
#[tactic(auto, unfolding(report_row_reader::specs::Reading::count_row_of))]
fn counts(text: &[u8]) -> Result<(Counts, &[u8]), Stuck<'_>>
    ensures { Gives (λ x. (x.0.values, rows_of x.1.now)) result (counts_at (rows_of text.now)) }
{
    let mut values = [0; 13];
    let mut rest = text;
    for i in 0..13 {
        let key = count_name(i).as_bytes();
        let (count, behind) = first_row(rest, move |row| count_row(row, key))?;
        values[i] = count;
        rest = behind;
    }
    Ok((Counts { values }, rest))
}

/// What stands behind an image.
#[tactic(auto, unfolding(report_row_reader::specs::Reading::fixed_of, crate::specs::Reading::outcome_at))]
pub(crate) fn outcome<'a>(
    alloc: Global,
    text: &'a [u8],
    setup: Setup,
    image: Image,
) -> Result<(Report, &'a [u8]), Stuck<'a>>
    requires some_cores { 0 < setup.cores }
    requires few_cores { setup.cores ≤ 8 }
    requires small { length text.now < 2 ^ 32 }
    ensures { Gives (λ x. (x.0, rows_of x.1.now)) result (outcome_at setup image (rows_of text.now)) }
{
    let bytes = 8 * image.memory_lines;
    let (history, rest) = history(alloc, text, setup.machine, setup.cores, bytes)?;
    let (ends, rest) = ends(alloc, rest, setup.budget, setup.cores)?;
    let (words, rest) = words(alloc, rest, bytes, 4 * image.code.len() as u32)?;
    let (cores, rest) = timetables(alloc, rest, ends, most_rows(setup.machine))?;
    let (counts, rest) = counts(rest)?;
    let (_, rest) = first_row(rest, |row| last_row(row))?;
    let report = Report {
        setup,
        image,
        history,
        cores,
        words,
        counts,
    };
    Ok((report, rest))
}
