//! Each row of a report, read from its text.
//!
//! The laws that other crates cite:
//! - `proofs/RowLaws`: what is read of a row is what the row spells.
//! - `proofs/TimedLaws`: the same of the rows of timetables, with their numbers.
//! - `proofs/PlainRowLaws`: the rows are plain, so they can be told from a report's text.
#![tactic(auto)]

mod fields;
mod read;

pub use read::{
    EndRow, bus_row, bytes_row, count_row, end_row, entry_row, fixed_row, last_row, machine_row,
    memory_row, number_row, policy_row, registers_row, sets_row, timed_parts, timed_row, turns_row,
};
