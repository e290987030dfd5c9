//! The one text of a report, into a sink.
#![tactic(auto)]

mod print;
mod spell;

pub use print::{print_report, put_rows};
