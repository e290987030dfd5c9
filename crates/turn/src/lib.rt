//! A lock over a memory, with a pass for each core that knows what its core did.
//!
//! Callers on several threads take the memory in turn. Whenever the turn is free, all is so of the
//! memory that any pass has seen of its own core: other cores' calls change none of it, but that a
//! request that waited may have been answered.
#![tactic(auto)]

mod calls;
mod counted;
mod ends;
mod lock;
mod pass;
mod steps;
mod tally;
mod threads;
mod views;

pub use counted::Counted;
pub use ends::make;
pub use pass::{Pass, Turn};
