//! The statements of an assembler source.
//!
//! Laws for the crates above:
//! - `proofs/LinesLaws`: a text line by line.
#![tactic(auto)]

mod bodies;
mod bounds;
mod forms;
pub mod laws;
mod lines;
mod operands;
mod registers;
mod source;
mod statement;

pub use asm_token::{AsmCause, AsmFault};
pub use source::parse;
pub use statement::{Body, Part, Statement, Value};
