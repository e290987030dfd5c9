//! The check of one row of a report against what is due in it: what is told of a field that differs, and the fields of a
//! timetable's rows on a memory that answers at once, within a bound, or at any time.
//!
//! Laws that crates above cite:
//!
//! - `proofs/JudgmentLaws`: no difference is told exactly where all judgments agree, and then what is kept is what is due.
//! - `proofs/EndLaws`: all judgments of a core's rows agree exactly where they are the rows of its end.
#![tactic(auto)]

mod clocks;
pub mod difference;
pub mod laws;
mod rows;

pub use clocks::Clocks;
pub use difference::Difference;
pub use rows::{limit_for, row_difference, stop_difference};
