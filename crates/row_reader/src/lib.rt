//! A text as rows of parts, and what is read from its rows.
//!
//! The laws that other crates cite:
//! - `proofs/CutLaws`: where a text and a row are cut.
//! - `proofs/TextLaws`: rows of plain parts can be told from their text.
//! - `proofs/PlainLaws`: which parts are plain.
//! - `proofs/NumberLaws`: the spellings of values are read as these values, and nothing else is read.
//! - `proofs/FieldLaws`: fields one after another in a row.
//! - `proofs/PartLaws`: a part of one row, and a part with what follows it.
//! - `proofs/ManyLaws`: a part that comes many times, and one that comes once for each of a list.
//! - `proofs/EachManyLaws`: a part that comes many times for each of some keys.
//! - `proofs/LoopLaws`: reading rows one after another, as a loop does.
#![tactic(auto)]

mod fields;
mod rows;

pub use fields::{
    bytes_of, ended, field, name, number, number_of, optional_number_of, optional_word,
    optional_word_of, word, word_of,
};
pub use rows::{Parts, Stuck, cut_row, named_row, part, row_count};
