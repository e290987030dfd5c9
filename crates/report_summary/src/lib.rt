//! The summary of a trial: a few rows on what a report tells, in place of the report.
#![tactic(auto)]

mod rows;
mod summary;

pub use summary::print_summary;
