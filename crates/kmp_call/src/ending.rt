//! How a call ends, and the lines of its source that are told with it.
ghost use Rattle.std.specs.Prelude.{◌≡◌, []};

use crate::status::Status;
use std::alloc::Global;

/// How a call ends.
#[derive(Drop)]
pub struct Ending {
    pub status: Status,
    /// The lines of its source with an `li` or `la` of which only the first word stands in a delay slot.
    pub split: Vec<u32>,
}

impl Ending {
    /// An ending with no line.
    pub fn of(alloc: Global, status: Status) -> Ending
        ensures status { result.status ≡ status }
        ensures split { result.split.items ≡ [] }
    {
        Ending {
            status,
            split: Vec::new(alloc),
        }
    }
}
