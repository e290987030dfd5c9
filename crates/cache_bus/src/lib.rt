//! The caches of several cores, the bus between them, and main memory behind it.
//!
//! Each core has two caches, each with one line in a set: cache 2c has the words of code that core c
//! fetches, and cache 2c + 1 the words that it accesses. They keep their copies right by the MOESI
//! protocol. One transaction is on at a time; it takes several transitions, and between these other
//! caches may still answer from the copies that they hold.
//!
//! The law that other crates cite:
//! - `proofs/EndLaws`: what a core asks for lies inside memory; a transaction begins, and ends.
#![tactic(auto)]

mod bus;
mod cache_bus;
mod caches;
mod line;
mod main_memory;
mod slaves;

pub use bus::Bus;
pub use cache_bus::CacheBus;
pub use std::alloc::AllocError as NoMemory;
