//! Sources of random workloads: programs that several cores can run at once, and that differ by a seed and a size.
//!
//! Laws for the crates above:
//! - `proofs/SizeLaws`: how long sources are.
#![tactic(auto)]

pub mod laws;
mod source;

pub use source::source_of;
