//! What a report is: what it tells, its one text, its bounds, and when it is right.
//!
//! The laws that other crates cite:
//! - `proofs/CountLaws`: how many counts there are; the items that are an entry with a property are as many as such entries;
//!   caches that made no transaction count nothing.
//! - `proofs/ImageLaws`: an image that its bytes mean is good.
#![tactic(auto)]

ghost use Rattle.report_text.specs.Worked.{WorkedCounts};

mod report;

pub use report::Report;
pub use report_rows::{Counts, MemoryWord};
pub use std::alloc::AllocError as NoMemory;

/// What is counted of the transactions of a worked history. The call does nothing.
pub fn worked_counts()
    ensures law { WorkedCounts }
{}
