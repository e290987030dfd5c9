//! The report of a run's outcome.
#![tactic(auto)]

mod build;
mod counts;

pub use build::build_report;
pub use counts::counts_of;
