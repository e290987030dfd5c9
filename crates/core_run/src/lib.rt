//! Cores that run against a memory: one cycle of a core, its end, and cores that take turns.
//!
//! Laws that crates above cite:
//!
//! - `proofs/CycleLaws`: the history by which a core's cycle serves its engine, and that it is no tighter
//!   than the side behind it; where answers come at once, nothing is open behind it.
//! - `proofs/DoneLaws`: what cores that have ended did is a run of the sequential machine.
//! - `proofs/EndLaws`: the end that a cycle makes is one of its core, and the history by which its engine
//!   is served behind it.
//! - `proofs/LeadLaws`: calls behind others lead on, and calls on what holds a memory are calls on it.
//! - `proofs/PipedRunLaws`: a run of cores with five stages is right, over caches whenever its answers came,
//!   over flat memory as they came at once; and then its accesses were received in the cycles that its
//!   timetables tell.
//! - `proofs/PlainRunLaws`: a run of such unpipelined cores is right, and its accesses were received in the
//!   cycles that their order tells.
//! - `proofs/RunLaws`: when all cores of a run were served without a wait.
//! - `proofs/RunningLaws`: a core behind its cycle and behind its end, and how its engine was served.
//! - `proofs/StartLaws`: a core before its first cycle.
#![tactic(auto)]

mod lane;
mod piped;
mod plain;
mod run;
mod seeded;
mod serial;
mod side;
mod timed;

pub use lane::{Lane, cycle, finish, run_cycle};
pub use piped::pipe_slots;
pub use plain::Plain;
pub use run::{plain_slots, run_piped, run_serial};
pub use seeded::run_seeded;
pub use serial::{CoreSlot, end_of, run_slots};
pub use side::CoreSide;
pub use std::alloc::AllocError as NoMemory;
pub use timed::TimedEngine;
