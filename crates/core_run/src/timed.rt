//! Engines that leave a timetable.
ghost use Rattle.std.specs.Prelude.{◌≡◌, List};
ghost use Rattle.timetable.specs.declared.rows.TimeRow.{TimeRow};

use mem_port::CoreEngine;
use std::alloc::Global;
use timetable::Rows;

/// An engine that leaves a timetable of what it executed.
pub trait TimedEngine: CoreEngine {
    /// Its rows so far, an instruction each.
    ghost rows: { Self → List TimeRow };

    /// The timetable at its end. It takes no memory.
    fn into_rows(self, alloc: Global) -> Rows
        ensures rows { result.rows ≡ rows self };
}
