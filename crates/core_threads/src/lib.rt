//! Cores on threads: each runs on a thread of its own, and all share one memory by a turn.
#![tactic(auto)]

mod ends;
mod gate;
mod run;
mod side;
mod work;

pub use gate::{Gate, OpenGate};
pub use run::{run_piped, run_slots, run_threads};
pub use side::TurnSide;
pub use std::alloc::AllocError as NoMemory;
pub use work::run_core;
