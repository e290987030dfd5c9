//! The run of cores on threads, from their first cycles to what they leave.
ghost use Rattle.std.specs.Prelude.{◌≡◌, ◌≤◌, ◌<◌, ◌*◌, ◌^◌, ℕ, Some, slice_get, vec_len, length, map, IfOk};
ghost use Rattle.std.specs.List.{AllByRecursion};
ghost use Rattle.kmp_base.specs.Limits.{IsWithinLimits};
ghost use Rattle.kmp_base.specs.Machines.{most_ways};
ghost use Rattle.kmp_base.specs.declared.setup.Turns.TheVariants as turns;
ghost use Rattle.access_log.specs.Items.{entries, transactions};
ghost use Rattle.right_run.specs.Right.{IsRight, caches_of};
ghost use Rattle.right_run.specs.Turns.{IsInTurns, cycles_of, tables_of};
ghost use Rattle.mem_port.specs.Memory.{IsFresh, IsAtOnce};
ghost use Rattle.mem_port.specs.ServiceHistory.{ServiceHistory, IsFirstHistory};
ghost use Rattle.core_run.specs.Outcomes.{AreFirst, IsPipedMemory, IsRun, EndsServed, NoneWaited};
ghost use Rattle.core_run.specs.declared.serial.CoreSlot.{CoreSlot};
ghost use Rattle.core_threads.specs.Workers.{IsFreshFor, IsReady, HasWorked};

use crate::ends::gather;
use crate::work::{Worker, work_all};
use crate::{Gate, NoMemory};
use core_run::{CoreSlot, TimedEngine, pipe_slots, plain_slots};
use image_file::Image;
use kmp_base::{MachineKind, Setup};
use mem_port::{FlatMemory, MemoryCore};
use mem_system::MemSystem;
use std::alloc::Global;
use std::sync::Wait;
use std::thread::Threads;
use timetable::Outcome;
use turn::{Pass, Turn, make};

/// Each slot with the pass at its place, of which there are as many. It fails only for want of memory.
fn workers_of<E: Drop, M: MemoryCore>(
    alloc: Global,
    slots: Vec<CoreSlot<E>>,
    passes: Vec<Pass<M>>,
) -> Result<Vec<Worker<E, M>>, NoMemory>
    requires count { vec_len passes ≡ vec_len slots }
    ensures slots { IfOk result (λ workers. map (λ w. w.slot) workers.items ≡ slots.items) }
    ensures passes { IfOk result (λ workers. map (λ w. w.pass) workers.items ≡ passes.items) }
{
    let mut workers = Vec::with_capacity(alloc, slots.len())?;
    let mut passes = passes.into_iter();
    for slot in slots {
        let Some(pass) = passes.next() else {
            unreachable!()
        };
        workers.push_reserved(Worker { slot, pass });
    }
    Ok(workers)
}

/// Runs all workers to their ends.
fn run_workers<
    R: Threads + Wait + Sync,
    E: TimedEngine + Send,
    M: MemoryCore + Send,
    G: Gate + Sync,
>(rt: &R, turn: &Turn<M>, gate: &G, budget: u32, workers: &mut Vec<Worker<E, M>>)
    requires budget { 1 ≤ budget }
    requires fresh { IsFreshFor turn.now budget }
    requires ready { (core : ℕ) (w : _) → slice_get workers.old.items core ≡ Some w → IsReady E.view turn.now budget core w }
    ensures count { vec_len workers.new ≡ vec_len workers.old }
    ensures worked { (core : ℕ) (w : _) → slice_get workers.new.items core ≡ Some w
        → (was : _) × ((slice_get workers.old.items core ≡ Some was) × HasWorked E.view E.timed turn.now budget core was w) }
{
    work_all(rt, turn, gate, budget, workers.as_mut_slice());
}

/// Runs all cores to their ends, each on a thread of its own, over one memory that they share by a
/// turn. All memory is taken before the first cycle.
pub fn run_slots<
    R: Threads + Wait + Sync,
    E: TimedEngine + Send,
    M: MemoryCore + Send,
    G: Gate + Sync,
>(
    rt: &R,
    alloc: Global,
    memory: M,
    slots: Vec<CoreSlot<E>>,
    budget: u32,
    gate: &G,
) -> Result<Outcome, NoMemory>
    requires budget { 1 ≤ budget }
    requires fresh { IsFresh (M.view memory).image (M.view memory).cores budget (M.view memory).caches (M.view memory) }
    requires some { 0 < vec_len slots }
    requires few { vec_len slots < 2 ^ 32 }
    requires cores { vec_len slots ≡ (M.view memory).cores }
    requires slots { AreFirst E.view (M.view memory).image (M.view memory).cores budget slots.items }
    ensures run { IfOk result (IsRun (M.view memory).image (M.view memory).cores budget (M.view memory).caches) }
    ensures served { IfOk result (λ outcome.
        ((core : ℕ) (s : CoreSlot E) → slice_get slots.items core ≡ Some s
        → (history : ServiceHistory) → IsFirstHistory history → E.timed history s.engine)
        → (histories : ℕ → ServiceHistory) × (EndsServed E.view E.rows E.timed (M.view memory) outcome histories
        × (IsAtOnce (M.view memory) → NoneWaited (M.view memory).cores histories))) }
{
    let cores = slots.len();
    let mut ends = Vec::with_capacity(alloc, cores)?;
    let (turn, passes) = make(alloc, memory, cores as u32)?;
    let mut workers = workers_of(alloc, slots, passes)?;
    run_workers(rt, &turn, gate, budget, &mut workers);
    let pass = gather(alloc, &turn, workers, &mut ends);
    let (words, history) = turn.close(pass).settle();
    Ok(Outcome {
        cores: ends,
        words,
        history,
    })
}

/// Runs an image to the ends of its cores, which have five stages, each on a thread of its own, over a
/// memory that was made for it: on the machine `pipe` one that answers each request as it is served, on
/// `full` one with the caches of the setup, which may let requests wait. All memory that is still wanted
/// is taken before the first cycle.
pub fn run_piped<R: Threads + Wait + Sync, M: MemoryCore + Send, G: Gate + Sync>(
    rt: &R,
    alloc: Global,
    memory: M,
    image: &Image,
    setup: &Setup,
    gate: &G,
) -> Result<Outcome, NoMemory>
    requires limits { IsWithinLimits setup.now }
    requires threads { setup.now.turns ≡ turns.Threads }
    requires fresh { IsFresh image.now setup.now.cores setup.now.budget (caches_of setup.now) (M.view memory) }
    requires fits { IsPipedMemory setup.now.machine (M.view memory) }
    ensures right { IfOk result (IsRight setup.now image.now) }
    ensures turns { IfOk result (λ outcome.
        IsInTurns setup.now (cycles_of outcome.cores) (tables_of outcome.cores) (entries outcome.items)) }
    ensures cores { IfOk result (λ outcome. length outcome.cores ≡ setup.now.cores) }
    ensures words { IfOk result (λ outcome. length outcome.words ≡ 2 * image.now.memory_lines) }
    ensures within { IfOk result (λ outcome. AllByRecursion (λ entry. entry.core < setup.now.cores) (entries outcome.items)) }
    ensures lines { IfOk result (λ outcome. AllByRecursion (λ bus. bus.line < image.now.memory_lines) (transactions outcome.items)) }
{
    let slots = pipe_slots(alloc, image, setup.cores, setup.budget)?;
    let outcome = run_slots(rt, alloc, memory, slots, setup.budget, gate)?;
    Ok(outcome)
}

/// Runs an image to the ends of its cores, each on a thread of its own. All memory is taken before the
/// first cycle.
pub fn run_threads<R: Threads + Wait + Sync, G: Gate + Sync>(
    rt: &R,
    alloc: Global,
    image: &Image,
    setup: &Setup,
    gate: &G,
) -> Result<Outcome, NoMemory>
    requires limits { IsWithinLimits setup.now }
    requires ways { setup.now.ways ≤ most_ways setup.now.machine }
    requires threads { setup.now.turns ≡ turns.Threads }
    ensures right { IfOk result (IsRight setup.now image.now) }
    ensures turns { IfOk result (λ outcome. IsInTurns setup.now (cycles_of outcome.cores) (tables_of outcome.cores) (entries outcome.items)) }
    ensures cores { IfOk result (λ outcome. length outcome.cores ≡ setup.now.cores) }
    ensures words { IfOk result (λ outcome. length outcome.words ≡ 2 * image.now.memory_lines) }
    ensures within { IfOk result (λ outcome. AllByRecursion (λ entry. entry.core < setup.now.cores) (entries outcome.items)) }
    ensures lines { IfOk result (λ outcome. AllByRecursion (λ bus. bus.line < image.now.memory_lines) (transactions outcome.items)) }
{
    match setup.machine {
        MachineKind::Plain => {
            let memory = FlatMemory::new(alloc, image, setup.cores, setup.budget)?;
            let slots = plain_slots(alloc, image, setup.cores)?;
            let outcome = run_slots(rt, alloc, memory, slots, setup.budget, gate)?;
            Ok(outcome)
        }
        MachineKind::Pipe => {
            let flat = FlatMemory::new(alloc, image, setup.cores, setup.budget)?;
            run_piped(rt, alloc, flat, image, setup, gate)
        }
        MachineKind::Full => {
            let cached = MemSystem::new(alloc, image, setup.cores, setup.sets, setup.budget)?;
            run_piped(rt, alloc, cached, image, setup, gate)
        }
    }
}
