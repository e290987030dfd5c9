//! A memory round another one, in which served requests wait in a queue.
//!
//! It shows that the law of memory can be met where requests wait, with distances and a load that
//! are told, and where a choice says which of them is answered: the first one, or once the second
//! in its place. No program stands on it.
#![tactic(auto)]

mod memory;
mod queue;

pub use memory::QueuedMemory;
