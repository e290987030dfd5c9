//! What stands between cores and memory: the laws of both, and a memory that answers at once.
//!
//! A core has two ports, one for fetches and one for accesses. A request goes through a port in
//! three calls: it is asked, it is served, and its answer is taken. Between the second and the
//! third it may wait, until steps of the memory answer it.
//!
//! Laws that crates above cite:
//!
//! - `proofs/LoadedLaws`: what a core does next, as a stop, a request or a quiet step.
//! - `proofs/PortLaws`: ports, and what an answer adds to the entries of each core.
//! - `proofs/SideLaws`: ports that may have been answered meanwhile; what calls for one core leave of the
//!   others, and what they mean to itself.
//! - `proofs/CellLaws`: what a change of one cell leaves of all ports.
//! - `proofs/AnswerLaws`: what an answer adds to a history.
//! - `proofs/ChangeLaws`: a memory in which one port changes keeps the law.
#![tactic(auto)]

mod cell;
mod engine;
mod flat;
mod memory;
mod port;

pub use cell::{Cell, cell_index};
pub use engine::{CoreEngine, Progress};
pub use flat::FlatMemory;
pub use memory::MemoryCore;
pub use port::{Moved, Port, PortState, Withdrawal};
pub use std::alloc::AllocError as NoMemory;
