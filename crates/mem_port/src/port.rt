//! The ports of cores, and what calls on them answer.
use access_log::Request;

/// A port of the core with a number.
#[derive(Clone, Copy, PartialEq, Eq)]
pub enum Port {
    /// For words of code.
    Fetch(u32),
    /// For loads, stores and compare-and-swaps.
    Access(u32),
}

/// What has become of the request on a port.
#[derive(Clone, Copy)]
pub enum PortState {
    /// There is none.
    Free,
    /// It was asked, and memory doesn't know of it yet.
    Asked(Request),
    /// It was served, and has no answer yet.
    Waiting(Request),
    /// It has its answer, the word that was there, and the core hasn't taken it yet.
    Answered(Request, u32),
    /// There will be none any more.
    Closed,
}

/// Whether a step of memory moved something.
#[derive(Clone, Copy)]
pub enum Moved {
    Moved,
    /// There was nothing to be moved.
    Idle,
}

/// What became of a request that was withdrawn.
#[derive(Clone, Copy)]
pub enum Withdrawal {
    /// It had no answer, and there won't be one.
    Withdrawn,
    /// It was done already; this word was there.
    Answered(u32),
}
