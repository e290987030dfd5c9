//! The sequential machine: cores over one flat memory, led by a list of entries.
//!
//! Each core executes its instructions up to the access that an entry tells, and the machine compares the entry with
//! that access and makes it.
//!
//! Laws that crates above cite:
//!
//! - `proofs/EnteringLaws`: what applying an entry does to a machine.
//! - `proofs/ReachingLaws`: where a core stands that was to catch up: one answer fits.
#![tactic(auto)]

mod machine;

use access_log::{Entry, Field, Found};
pub use image_file::NoMemory;
pub use machine::Machine;

/// Where a core stands that was to catch up to so many executed instructions.
#[derive(Clone, Copy, Debug, PartialEq, Eq)]
pub enum Reach {
    /// It has executed so many.
    There,
    /// It has executed this number, which is less: its next instruction makes an access.
    AccessAt(u32),
    /// It has executed this number, which is less: it is at a stop.
    StopAt(u32),
    /// It had executed this number before, which is more. It is where it was.
    Passed(u32),
}

/// The first field of an entry that differs from the access that is due.
#[derive(Clone, Copy, Debug, PartialEq, Eq)]
pub struct Differs {
    /// The entry that was not applied.
    pub entry: Entry,
    pub field: Field,
    /// What is due in that field.
    pub found: Found,
}
