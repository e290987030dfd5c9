//! Where the statements of an assembler source stand in memory, and what is wrong with them as a whole.
//!
//! All addresses and sizes are in bytes.
//!
//! Laws for the crates above:
//! - `proofs/PlacesLaws`: places, one statement after the other.
//! - `proofs/RoomLaws`: what holds of a layout without a fault.
#![tactic(auto)]

mod delay_slots;
mod labels;
pub mod laws;
mod layout;
mod operands;
mod place;
mod room;

pub use delay_slots::split_lines;
pub use labels::{Labels, address_of};
pub use layout::{MOST_STATEMENTS, lay_out};
pub use place::{Place, code_size};
