//! A program as it is loaded: its code, its segments, and the size of its memory.
//!
//! A word has four bytes, the lowest first. A line of memory has two words, that is 8 bytes.
//!
//! Laws that crates above cite:
//!
//! - `proofs/SpellingLaws`: how long the spelling of an image is, and how it is put together.
//! - `proofs/ReadingLaws`: only the spelling of a good image is read as an image.
//! - `proofs/NumberLaws`: the numbers of an image have four bytes each.
//! - `proofs/RoundTripLaws`: the spelling of a good image is read as that image.
//! - `proofs/StartLaws`: how many words memory has at the start.
//! - `proofs/WordLaws`: which word stands at an address: of the code, of a segment, or none.
#![tactic(auto)]

mod fault;
mod field;
mod memory;
mod read;
mod spelling;
mod start;
mod write;

pub use fault::{ImageCause, ImageFault};
pub use memory::{start_memory, word_at};
pub use read::read_image;
pub use spelling::{Spelling, image_size};
pub use start::start_state;
pub use std::alloc::AllocError as NoMemory;
use std::marker::Model;
pub use write::write_image;

/// Words that memory starts with, one behind the other.
#[derive(Drop)]
pub struct Segment {
    /// The byte address of the first word, a multiple of 4.
    pub start: u32,
    pub words: Vec<u32>,
}

impl Model for Segment {
    ghost use Rattle.image_file.specs.Value.{SegmentValue};

    ghost Value = { SegmentValue };

    ghost view = { λ segment. record { start = segment.start; words = segment.words.items } };
}

/// A good program: an even number of words of code, from 2 to 65,536, each of them an instruction, and segments behind
/// the code and behind each other, within a memory of 2 to 2,097,152 lines. Its spelling has fewer than 2^32 bytes, and is
/// read as this image.
#[derive(Drop)]
pub struct Image {
    /// The size of memory in lines.
    pub memory_lines: u32,
    /// The words of memory from address 0 on.
    pub code: Vec<u32>,
    /// What else memory starts with, by rising address.
    pub segments: Vec<Segment>,
}

impl Model for Image {
    ghost use Rattle.image_file.specs.Value.{ImageValue, IsGood};

    ghost Value = { ImageValue };

    ghost view = { λ image. record {
      memory_lines = image.memory_lines;
      code = image.code.items;
      segments = image.segments.items;
    } };

    ghost invariant = { λ image. IsGood (record {
      memory_lines = image.memory_lines;
      code = image.code.items;
      segments = image.segments.items;
    }) };
}

/// A list of words. Where it is a memory, index i is the word at address 4i.
#[derive(Drop)]
pub struct Words {
    pub words: Vec<u32>,
}

impl Model for Words {
    ghost use Rattle.std.specs.Prelude.{List, ℕ};

    ghost Value = { List ℕ };

    ghost view = { λ words. words.words.items };
}
