//! The sources of random workloads are programs: the assembler accepts each.
//!
//! Laws for the crates above:
//! - `proofs/ProgramLaws`: what the source of a random workload means.
#![tactic(auto)]

pub mod laws;
