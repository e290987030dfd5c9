//! A report from its text.
#![tactic(auto)]

mod header;
mod history;
mod image;
mod outcome;
mod read;
mod rows;

pub use read::{REPORT_LIMIT, ReportFault, read_report};
