//! An engine with five stages: IF fetches, ID decodes and reads registers, EX computes, M makes
//! accesses and decides stops, and WB writes the register file.
//!
//! A stop is decided in M before anything is asked there, so nothing is asked behind a stop. Branches
//! are decided in ID. An operand is taken from its last earlier writer, and only a load in EX or M is
//! waited for.
//!
//! Laws that crates above cite:
//!
//! - `proofs/EndLaws`: where the budget of a core is spent whose wants were met at once, the next
//!   instruction would not be done within it.
//! - `proofs/RowLaws`: behind one row more, the rows of accesses have their clocks still.
#![tactic(auto)]

mod flight;
mod moves;
mod pipe;
mod reads;
mod table;

pub use flight::{Flight, Operands, Times};
pub use pipe::Pipe;
