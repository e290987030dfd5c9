//! The check of a history, row by row: each access by the sequential machine, and over caches each access and each transaction
//! by the letters in which these hold their lines.
//!
//! Laws that crates above cite:
//!
//! - `proofs/OnlyLaws`: a history has one first difference, and none where it is right.
#![tactic(auto)]

mod history;
mod kept;

pub use history::history_difference;
pub use item_check::NoMemory;
