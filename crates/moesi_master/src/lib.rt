//! The master's part of the MOESI protocol: what its letters allow and become, and the phases of its
//! transaction.
#![tactic(auto)]

/// The transition of a transaction that comes next.
#[derive(Clone, Copy, Debug, PartialEq, Eq)]
pub enum Phase {
    /// No transaction is on.
    Off,
    /// The victim's words go to main memory.
    Flush,
    /// Line and intent to modify stand on the bus.
    Address,
    /// Another cache latches whether it holds the line, and whether it has to supply it.
    Look,
    /// The words come.
    Supply,
    /// Another cache's letter changes.
    Act,
    /// The master's letter changes, and the transaction ends.
    Finish,
}

pub mod letters;
pub mod phases;
