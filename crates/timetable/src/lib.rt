//! What a run leaves: where each core ended, after how many cycles, what was done, and the timetable of
//! a pipelined core.
//!
//! Laws that crates above cite:
//!
//! - `proofs/TraceLaws`: the instructions of a core that goes on by one more, and that finds more.
//! - `proofs/FirstClockLaws`: on a memory that answers at once the clocks are the first that can be.
//! - `proofs/WithinLaws`: M rises along a table, so all rows are within a limit exactly where the last one is.
//! - `proofs/ClockLaws`: M bounds the clocks of its row and the number of the rows, so a core's timetable is within its budget.
//! - `proofs/BoundLaws`: what holds of a timetable under a bound holds of it without one.
//! - `proofs/TraceLengthLaws`: a core that runs alone executes as many instructions as it is to.
#![tactic(auto)]

ghost use Rattle.std.specs.Prelude.{◌≡◌, ◌≤◌};

pub mod laws;
pub mod recurrence;
mod rows;
mod waiting;

use access_log::History;
use image_file::Words;
use mips_isa::{CoreState, Stop};
pub use recurrence::next_row;
pub use rows::{Rows, TimeRow, Waits};
pub use std::alloc::AllocError as NoMemory;
use std::marker::Model;
pub use waiting::waits;

/// Why a core went no further.
#[derive(Clone, Copy, Debug, PartialEq, Eq)]
pub enum End {
    /// It came to a stop.
    Stopped(Stop),
    /// Its budget of cycles was spent before.
    Spent,
}

impl End {
    ghost use Rattle.std.specs.Prelude.{length};
    ghost use Rattle.timetable.specs.Names.{end_name};
    ghost use Rattle.timetable.specs.Outcome.{is_halt};

    pub fn name(self) -> &'static str
        ensures name { result.now ≡ end_name self }
        ensures short { length result.now ≤ 10 }
    {
        match self {
            End::Stopped(stop) => stop.name(),
            End::Spent => "spent",
        }
    }

    /// Whether the core ended at a `halt`.
    pub fn is_halt(self) -> bool
        ensures halt { result ≡ is_halt self }
    {
        matches!(self, End::Stopped(Stop::Halt))
    }
}

/// Where a core ended.
#[derive(Drop)]
pub struct CoreEnd {
    pub end: End,
    /// The cycles that it took, with the one of its stop. A spent core took its whole budget.
    pub cycles: u32,
    /// The number of instructions that it executed. A stopped one isn't executed.
    pub retired: u32,
    /// Its state behind the last of these.
    pub state: CoreState,
    /// Its timetable. An unpipelined core has none.
    pub rows: Rows,
}

/// What a run leaves.
#[derive(Drop)]
pub struct Outcome {
    /// The end of each core, by its number.
    pub cores: Vec<CoreEnd>,
    /// Memory at the end.
    pub words: Words,
    /// All that was done, in order.
    pub history: History,
}

impl Model for Outcome {
    ghost use Rattle.std.specs.List.{All};
    ghost use Rattle.timetable.specs.Outcome.{OutcomeValue, IsState};

    ghost Value = { OutcomeValue };

    ghost view = { λ outcome. record {
      cores = outcome.cores.items;
      words = outcome.words;
      items = outcome.history.items;
    } };

    ghost invariant = { λ outcome. All (λ ended. IsState ended.state) outcome.cores.items };
}
