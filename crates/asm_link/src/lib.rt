//! The image of an assembler source's statements.
//!
//! All addresses are in bytes.
//!
//! Laws for the crates above:
//! - `proofs/ImageLaws`: the image of statements.
#![tactic(auto)]

mod code;
mod image;
pub mod laws;
mod segments;
mod values;

pub use image::assemble;
