//! The tokens of an assembler source's lines, and what can be wrong with a source.
//!
//! Laws for the crates above:
//! - `proofs/PrintingLaws`: a line that writes tokens is read as these tokens.
#![tactic(auto)]

mod bytes;
mod digits;
mod fault;
pub mod laws;
mod name;
mod number;
mod token;

pub use fault::{AsmCause, AsmFault, LineFault};
pub use name::Name;
pub use number::Number;
pub use std::alloc::AllocError as NoMemory;
pub use token::{Token, tokens_of};
