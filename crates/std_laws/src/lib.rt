//! Laws of std's lists, options and numbers that std doesn't have: they name nothing of the other
//! crates.
//!
//! The laws that other crates cite:
//! - `proofs/ListLaws`: an element by its index, what holds of each element, a list of pieces, a list that is split.
//! - `proofs/OptionLaws`: what an option is made of, bytes that may be known.
//! - `proofs/NumberLaws`: multiples of a number, how long a number is in decimal.
//! - `proofs/RangeLaws`: numbers in a row.
#![tactic(auto)]
