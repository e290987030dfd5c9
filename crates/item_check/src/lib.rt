//! The items of a history, one by one, against the letters in which caches hold lines: whether an item
//! is one that the letters allow, and else the first of its fields that isn't as is due.
//!
//! The law that other crates cite:
//! - `proofs/IllegalLaws`: something is illegal in an item exactly where the letters don't allow it.
#![tactic(auto)]

mod cache;
mod caches;
mod fold;
mod held;

ghost use Rattle.item_check.specs.Illegal.{IllegalIsNotAllowed};
ghost use Rattle.item_check.specs.WorkedItems.{WorkedItemsAreTold};

use access_log::{Field, Found};
pub use fold::Letters;
pub use held::HeldLine;
pub use std::alloc::AllocError as NoMemory;

/// A rule of the letters that an item breaks.
#[derive(Clone, Copy, Debug)]
pub struct Illegal {
    /// The first of the item's fields that isn't as is due.
    pub field: Field,
    /// What is due there.
    pub found: Found,
}

/// There is something illegal in an item exactly where the letters don't allow it. The call does
/// nothing.
pub fn illegal_is_not_allowed()
    ensures law { IllegalIsNotAllowed }
{}

/// Of each worked item the first field that isn't as is due is told, and what is due there. The call
/// does nothing.
pub fn worked_items_are_told()
    ensures law { WorkedItemsAreTold }
{}
