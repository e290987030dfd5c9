//! The base of the programs: streams of bytes, rows of text, numbers, and what is asked of a run.
//! A stream in memory tells its content, so contracts say what was read and what was written. One
//! over a real stream can't know what lies behind it, and tells none. Each counts its faults.
//!
//! Laws that crates above cite:
//!
//! - `proofs/StreamLaws`: texts that are appended one after another, and bytes that are read one after another.
//! - `proofs/CollectedLaws`: what is written over a sink that collects is written beneath.
//! - `proofs/ReadingLaws`: a step of reading and what follows it, and values that are read one by one.
#![tactic(auto)]

mod collected;
mod fault;
mod memory;
mod names;
mod numbers;
mod row;
mod setup;
mod standard;
mod streams;
mod transfer;

pub use collected::Collected;
pub use fault::{Fault, FaultAt};
pub use memory::{MemorySink, MemorySource};
pub use names::named;
pub use numbers::{decimal_of, hex8_of};
pub use row::{ROOM, Row};
pub use setup::{MOST_BUDGET, MOST_CORES, MOST_SETS, MOST_WAYS, MachineKind, Policy, Setup, Turns};
pub use standard::{StdSink, StdSource};
/// The answer for want of memory.
pub use std::alloc::AllocError as NoMemory;
pub use streams::{Read, Sink, Source, Wrote};
pub use transfer::{InputFault, WriteFault, put, read_input};
