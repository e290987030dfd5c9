//! What a cache holds of one line.
use access_log::Letter;

/// A line that is held.
#[derive(Clone, Copy, Debug, PartialEq, Eq)]
pub struct Line {
    /// Its number: line k has the bytes of memory from 8k on.
    pub line: u32,
    /// It is never I.
    pub letter: Letter,
    /// Its first word.
    pub low: u32,
    /// Its second word.
    pub high: u32,
}
