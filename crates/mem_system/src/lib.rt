//! The memory of several cores: their caches with the bus, in front of them the ports, and a queue of
//! the caches whose requests wait.
//!
//! A request that is a hit as it is served is answered at once. Another one waits; a step takes the
//! first that waits, makes the transaction that it needs, and answers it.
#![tactic(auto)]

mod system;

pub use std::alloc::AllocError as NoMemory;
pub use system::MemSystem;
