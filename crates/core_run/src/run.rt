//! The run of a program on cores that take turns.
ghost use Rattle.std.specs.Prelude.{◌≡◌, ℕ, ◌*◌, ◌<◌, ◌≤◌, [], Some, length, slice_get, vec_len, vec_capacity, IfOk};
ghost use Rattle.std.specs.List.{AllByRecursion};
ghost use Rattle.kmp_base.specs.Limits.{IsWithinLimits};
ghost use Rattle.kmp_base.specs.Machines.{most_ways};
ghost use Rattle.access_log.specs.Items.{entries, transactions};
ghost use Rattle.right_run.specs.Right.{IsRight, caches_of};
ghost use Rattle.right_run.specs.Turns.{AreInTurns, IsInTurns, cycles_of, tables_of};
ghost use Rattle.mem_port.specs.Memory.{IsFresh};
ghost use Rattle.mem_port.specs.ServiceHistory.{ServiceHistory, IsFirstHistory};
ghost use Rattle.core_run.specs.Outcomes.{AreFirst, IsPipedMemory, IsRun};
ghost use Rattle.core_run.specs.Serial.{IsSerial, IsServedRun};
ghost use Rattle.core_run.specs.declared.plain.Plain.{Plain};
ghost use Rattle.core_run.specs.declared.serial.CoreSlot.{CoreSlot};

use crate::{CoreSlot, NoMemory, Plain, TimedEngine, pipe_slots, run_seeded, run_slots};
use image_file::Image;
use kmp_base::{MachineKind, Setup, Turns};
use mem_port::{CoreEngine, FlatMemory, MemoryCore};
use mem_system::MemSystem;
use std::alloc::Global;
use timetable::{CoreEnd, Outcome};

/// A slot for each of so many unpipelined cores, before its first turn. It fails only for want of memory.
pub fn plain_slots<'a>(
    alloc: Global,
    image: &'a Image,
    cores: u32,
) -> Result<Vec<CoreSlot<Plain<'a>>>, NoMemory>
    ensures count { IfOk result (λ slots. vec_len slots ≡ cores) }
    ensures slots { IfOk result (λ slots. (budget : ℕ) → budget ≤ 4294967295
        → AreFirst ⟦<Plain<'static> as CoreEngine>⟧.view image.now cores budget slots.items) }
    ensures timed { IfOk result (λ slots. (core : ℕ) (s : CoreSlot Plain) → slice_get slots.items core ≡ Some s
        → (history : ServiceHistory) → IsFirstHistory history → ⟦<Plain<'static> as CoreEngine>⟧.timed history s.engine) }
{
    let mut slots = Vec::with_capacity(alloc, cores as usize)?;
    for core in 0..cores {
        slots.push_reserved(CoreSlot::new(Plain::new(image, core, cores), core));
    }
    Ok(slots)
}

/// Runs all cores to their ends, in the turns of a setup. It takes no memory: the list of ends comes
/// with room for them.
fn run_in_turns<E: TimedEngine, M: MemoryCore>(
    alloc: Global,
    memory: M,
    slots: Vec<CoreSlot<E>>,
    ends: Vec<CoreEnd>,
    setup: &Setup,
) -> Outcome
    requires budget { 1 ≤ setup.now.budget }
    requires serial { IsSerial setup.now.turns }
    requires fresh { IsFresh (M.view memory).image (M.view memory).cores setup.now.budget (M.view memory).caches (M.view memory) }
    requires cores { vec_len slots ≡ (M.view memory).cores }
    requires slots { AreFirst E.view (M.view memory).image (M.view memory).cores setup.now.budget slots.items }
    requires room { vec_len slots ≤ vec_capacity ends }
    requires empty { ends.items ≡ [] }
    ensures run { IsRun (M.view memory).image (M.view memory).cores setup.now.budget (M.view memory).caches result }
    ensures served { ((core : ℕ) (s : CoreSlot E) → slice_get slots.items core ≡ Some s → (history : ServiceHistory) → IsFirstHistory history → E.timed history s.engine)
        → (histories : ℕ → ServiceHistory) × IsServedRun E.view E.rows E.timed (M.view memory)
        (AreInTurns setup.now.turns setup.now.seed (cycles_of result.cores)) result histories }
{
    match setup.turns {
        Turns::Round => run_slots(alloc, memory, slots, ends, setup.budget),
        Turns::Seeded => run_seeded(alloc, memory, slots, ends, setup.seed, setup.budget),
        Turns::Threads => unreachable!(),
    }
}

/// Runs an image to the ends of its cores, which have five stages, in turns over a memory that was
/// made for it: on the machine `pipe` one that answers each request as it is served, on `full` one
/// with the caches of the setup, which may let requests wait. All memory that is still wanted is
/// taken before the first cycle.
pub fn run_piped<M: MemoryCore>(
    alloc: Global,
    memory: M,
    image: &Image,
    setup: &Setup,
) -> Result<Outcome, NoMemory>
    requires limits { IsWithinLimits setup.now }
    requires serial { IsSerial setup.now.turns }
    requires fresh { IsFresh image.now setup.now.cores setup.now.budget (caches_of setup.now) (M.view memory) }
    requires fits { IsPipedMemory setup.now.machine (M.view memory) }
    ensures right { IfOk result (IsRight setup.now image.now) }
    ensures turns { IfOk result (λ outcome.
        IsInTurns setup.now (cycles_of outcome.cores) (tables_of outcome.cores) (entries outcome.items)) }
    ensures cores { IfOk result (λ outcome. length outcome.cores ≡ setup.now.cores) }
    ensures words { IfOk result (λ outcome. length outcome.words ≡ 2 * image.now.memory_lines) }
    ensures within { IfOk result (λ outcome. AllByRecursion (λ entry. entry.core < setup.now.cores) (entries outcome.items)) }
    ensures lines { IfOk result (λ outcome. AllByRecursion (λ bus. bus.line < image.now.memory_lines) (transactions outcome.items)) }
{
    let ends = Vec::with_capacity(alloc, setup.cores as usize)?;
    let slots = pipe_slots(alloc, image, setup.cores, setup.budget)?;
    Ok(run_in_turns(alloc, memory, slots, ends, setup))
}

/// Runs an image to the ends of its cores, in turns. All memory is taken before the first cycle.
pub fn run_serial(alloc: Global, image: &Image, setup: &Setup) -> Result<Outcome, NoMemory>
    requires limits { IsWithinLimits setup.now }
    requires ways { setup.now.ways ≤ most_ways setup.now.machine }
    requires serial { IsSerial setup.now.turns }
    ensures right { IfOk result (IsRight setup.now image.now) }
    ensures turns { IfOk result (λ outcome. IsInTurns setup.now (cycles_of outcome.cores) (tables_of outcome.cores) (entries outcome.items)) }
    ensures cores { IfOk result (λ outcome. length outcome.cores ≡ setup.now.cores) }
    ensures words { IfOk result (λ outcome. length outcome.words ≡ 2 * image.now.memory_lines) }
    ensures within { IfOk result (λ outcome. AllByRecursion (λ entry. entry.core < setup.now.cores) (entries outcome.items)) }
    ensures lines { IfOk result (λ outcome. AllByRecursion (λ bus. bus.line < image.now.memory_lines) (transactions outcome.items)) }
{
    match setup.machine {
        MachineKind::Plain => {
            let memory = FlatMemory::new(alloc, image, setup.cores, setup.budget)?;
            let ends = Vec::with_capacity(alloc, setup.cores as usize)?;
            let slots = plain_slots(alloc, image, setup.cores)?;
            Ok(run_in_turns(alloc, memory, slots, ends, setup))
        }
        MachineKind::Pipe => {
            let flat = FlatMemory::new(alloc, image, setup.cores, setup.budget)?;
            run_piped(alloc, flat, image, setup)
        }
        MachineKind::Full => {
            let cached = MemSystem::new(alloc, image, setup.cores, setup.sets, setup.budget)?;
            run_piped(alloc, cached, image, setup)
        }
    }
}
