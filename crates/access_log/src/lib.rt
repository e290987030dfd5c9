//! What cores ask of memory, the list of what was done, and the sequential machine that repeats it.
//!
//! Laws that crates above cite:
//!
//! - `proofs/ReplayLaws`: catching up, entries and replay, in parts and as a whole.
//! - `proofs/InterleavingLaws`: an interleaving is a run of the sequential machine.
//! - `proofs/SplitLaws`: a run of the sequential machine is an interleaving.
//! - `proofs/MergeLaws`: a history that memory allows, and that each core makes by itself, is such a run.
//! - `proofs/AloneLaws`: the steps of one core by itself.
//! - `proofs/ItemLaws`: a history over an append, and the entries in it.
//! - `proofs/EntryLaws`: the test of two entries tells whether they are one.
//! - `proofs/RequestLaws`: the fields of the entry of a request.
//! - `proofs/StampLaws`: stamps over an append, and those of one core.
#![tactic(auto)]

mod field;
mod history;
mod laws;
mod memory;
mod request;

pub use field::{Field, Found};
pub use history::History;
pub use laws::{interleaving_is_replay, replay_is_interleaving};
pub use memory::{due, made, store};
use mips_isa::{CoreState, Kind};
pub use request::Request;
pub use std::alloc::AllocError as NoMemory;

/// An access that was done: what memory had, and what was stored.
#[derive(Clone, Copy, Debug, PartialEq, Eq)]
pub struct Entry {
    /// The core that made it.
    pub core: u32,
    /// The number of instructions that the core executed before.
    pub nth: u32,
    /// A load, a store or a compare and swap, never a fetch.
    pub kind: Kind,
    /// In bytes. It is a multiple of the access's width.
    pub addr: u32,
    /// What memory had there.
    pub old: u32,
    /// What was stored there: none for a load, and for a compare and swap that found another word
    /// than it expected.
    pub new: Option<u32>,
}

/// The state in which a cache holds a line, as in the MOESI protocol.
#[derive(Clone, Copy, Debug, PartialEq, Eq)]
pub enum Letter {
    /// Modified: the only copy, and main memory is behind it.
    M,
    /// Owned: there may be copies, and main memory is behind them.
    O,
    /// Exclusive: the only copy, as main memory has it.
    E,
    /// Shared: one of several copies.
    S,
    /// Invalid: not held.
    I,
}

impl Letter {
    ghost use Rattle.std.specs.Prelude.{◌≡◌, ◌≤◌, length};
    ghost use Rattle.access_log.specs.Names.{letter_name};

    pub fn name(self) -> &'static str
        ensures name { result.now ≡ letter_name self }
        ensures short { length result.now ≤ 10 }
    {
        match self {
            Letter::M => "M",
            Letter::O => "O",
            Letter::E => "E",
            Letter::S => "S",
            Letter::I => "I",
        }
    }
}

/// A transaction of the bus. It carries no words.
///
/// The instruction cache of core c is cache 2c, and its data cache is cache 2c + 1. Line k holds
/// the words at the byte addresses 8k and 8k + 4.
#[derive(Clone, Copy, Debug, PartialEq, Eq)]
pub struct Transaction {
    /// The cache that the bus was granted to.
    pub master: u32,
    /// The line that it wanted.
    pub line: u32,
    /// The intent to modify: set for a store and a compare and swap.
    pub im: bool,
    /// The caches that held the line beside the master: bit k stands for cache k.
    pub ch: u16,
    /// The cache that intervened with its words, where one held them modified or owned.
    pub di: Option<u32>,
    /// The line that the master dropped to make room.
    pub victim: Option<u32>,
    /// How the master holds the line afterwards.
    pub letter: Letter,
}

/// What a history keeps.
#[derive(Clone, Copy, Debug, PartialEq, Eq)]
pub enum Item {
    /// An access that was done.
    Done(Entry),
    /// A transaction that has ended.
    Bus(Transaction),
}

/// A core of the sequential machine.
#[derive(Clone, Copy, Debug)]
pub struct Core {
    pub state: CoreState,
    /// The number of instructions that it has executed.
    pub executed: u32,
}
