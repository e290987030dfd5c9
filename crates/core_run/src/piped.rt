//! Slots of cores with five stages.
ghost use Rattle.std.specs.Prelude.{◌≡◌, ℕ, ◌≤◌, Some, slice_get, vec_len, IfOk};
ghost use Rattle.mem_port.specs.ServiceHistory.{ServiceHistory, IsFirstHistory};
ghost use Rattle.core_run.specs.Outcomes.{AreFirst};
ghost use Rattle.pipe_core.specs.PipeView.{PipeValue};
ghost use Rattle.core_run.specs.declared.serial.CoreSlot.{CoreSlot};

use crate::{CoreSlot, NoMemory, TimedEngine};
use image_file::Image;
use mem_port::CoreEngine;
use pipe_core::Pipe;
use std::alloc::Global;
use timetable::Rows;

impl TimedEngine for Pipe<'_> {
    ghost rows = { λ e. e.table.rows };

    fn into_rows(self, _alloc: Global) -> Rows {
        Pipe::into_rows(self)
    }
}

/// A slot for each of so many cores with five stages, before its first turn, with room for the rows
/// of a budget. It fails only for want of memory.
pub fn pipe_slots<'a>(
    alloc: Global,
    image: &'a Image,
    cores: u32,
    budget: u32,
) -> Result<Vec<CoreSlot<Pipe<'a>>>, NoMemory>
    requires budget { budget ≤ 100000 }
    ensures count { IfOk result (λ slots. vec_len slots ≡ cores) }
    ensures slots { IfOk result (λ slots. AreFirst ⟦<Pipe<'static> as CoreEngine>⟧.view image.now cores budget slots.items) }
    ensures timed { IfOk result (λ slots. (core : ℕ) (s : CoreSlot PipeValue) → slice_get slots.items core ≡ Some s
        → (history : ServiceHistory) → IsFirstHistory history → ⟦<Pipe<'static> as CoreEngine>⟧.timed history s.engine) }
{
    let mut slots = Vec::with_capacity(alloc, cores as usize)?;
    for core in 0..cores {
        let pipe = Pipe::new(alloc, image, core, cores, budget)?;
        slots.push_reserved(CoreSlot::new(pipe, core));
    }
    Ok(slots)
}
