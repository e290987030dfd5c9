//! A cache: a finite map from lines to two words and a letter, with the lines of each set in the
//! order in which they were filled.
#![tactic(auto, unfolding(crate::specs::Lines::letter_in, crate::specs::Lines::word_in, crate::specs::Lines::filled_in))]

mod cache;
mod line;

pub use cache::Cache;
pub use line::Line;
pub use std::alloc::AllocError as NoMemory;
