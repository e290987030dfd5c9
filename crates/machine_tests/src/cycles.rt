//! Cycles of cores whose requests wait in a queue: which of them is answered first.
ghost use Rattle.std.specs.Prelude.{◌≡◌, ◌≢◌, ◌<◌, ◌≤◌, ℕ, true, Some, None, length, IfOk};
ghost use Rattle.mem_port.specs.Loaded.{on_code};
ghost use Rattle.mem_port.specs.Memory.{IsFresh};
ghost use Rattle.mem_port.specs.Side.{LeavesOthers};
ghost use Rattle.core_run.specs.Lanes.{IsClosed};
ghost use Rattle.machine_tests.specs.Eager.{IsEager};
ghost use Rattle.machine_tests.specs.AtWork.{IsAtWork};

use crate::eager::Eager;
use core_run::{Lane, cycle};
use image_file::{Image, read_image};
use mem_port::{CoreEngine, FlatMemory, MemoryCore, Progress};
use queued_memory::QueuedMemory;
use std::alloc::Global;
use std::process::Abort;
use std::test::Fail;

/// An image of `sw $a1,0x100($0)` and `halt`.
const STORE: [u8; 24] =
    *b"KMP1\x00\x20\x00\x00\x02\x00\x00\x00\x00\x00\x00\x00\x00\x01\x05\xac\x0d\x00\x00\x00";

/// A core at work, and how many cycles it may have still.
#[derive(Drop)]
struct Worker<E> {
    engine: E,
    lane: Lane,
    left: u32,
}

impl<'a> Worker<Eager<'a>> {
    /// A core that wants to store, and a word of code beside that or none.
    fn new(image: &'a Image, core: u32, cores: u32, fetch: Option<u32>) -> Worker<Eager<'a>>
        requires fetch { (addr : ℕ) → fetch ≡ Some addr → on_code image.now addr ≡ true }
        ensures eager { IsEager image.now core cores (⟦<Eager<'static> as CoreEngine>⟧.view result.engine) }
        ensures core { result.lane.core ≡ core }
        ensures closed { IsClosed result.lane }
        ensures left { result.left ≡ 100 }
    {
        Worker {
            engine: Eager::new(image, core, cores, fetch),
            lane: Lane::new(core),
            left: 100,
        }
    }
}

/// One cycle of a core.
fn turn<E: CoreEngine, M: MemoryCore>(
    rt: &impl Abort,
    memory: &mut M,
    core: &mut Worker<E>,
    choice: u32,
)
    requires works { IsAtWork core.old.left (E.view core.old.engine) core.old.lane (M.view memory.old) }
    ensures works { IsAtWork core.new.left (E.view core.new.engine) core.new.lane (M.view memory.new) }
    ensures core { core.new.lane.core ≡ core.old.lane.core }
    ensures others { LeavesOthers core.old.lane.core (M.view memory.old) (M.view memory.new) }
{
    assert!(rt; core.left > 0);
    core.left -= 1;
    let mut side = memory;
    let Progress::Running = cycle(&mut core.engine, &mut side, &mut core.lane, choice) else {
        panic!(rt; "it stopped")
    };
}

/// So many cycles of a core.
fn turns<E: CoreEngine, M: MemoryCore>(
    rt: &impl Abort,
    memory: &mut M,
    core: &mut Worker<E>,
    count: u32,
    choice: u32,
)
    requires works { IsAtWork core.old.left (E.view core.old.engine) core.old.lane (M.view memory.old) }
    ensures works { IsAtWork core.new.left (E.view core.new.engine) core.new.lane (M.view memory.new) }
{
    for _ in 0..count {
        turn(rt, memory, core, choice);
    }
}

/// So many rounds, in each of which two cores have a cycle.
fn rounds<E: CoreEngine, M: MemoryCore>(
    rt: &impl Abort,
    memory: &mut M,
    first: &mut Worker<E>,
    second: &mut Worker<E>,
    count: u32,
    choice: u32,
)
    requires first { IsAtWork first.old.left (E.view first.old.engine) first.old.lane (M.view memory.old) }
    requires second { IsAtWork second.old.left (E.view second.old.engine) second.old.lane (M.view memory.old) }
    requires apart { first.old.lane.core ≢ second.old.lane.core }
    ensures first { IsAtWork first.new.left (E.view first.new.engine) first.new.lane (M.view memory.new) }
    ensures second { IsAtWork second.new.left (E.view second.new.engine) second.new.lane (M.view memory.new) }
    ensures apart { first.new.lane.core ≢ second.new.lane.core }
{
    for _ in 0..count {
        turn(rt, memory, first, choice);
        turn(rt, memory, second, choice);
    }
}

/// Whether a core still waits for its access, and for its word of code.
fn waits<E: CoreEngine>(core: &Worker<E>) -> (bool, bool) {
    (
        core.engine.want_access().is_some(),
        core.engine.want_fetch().is_some(),
    )
}

/// The image of a store and a halt.
fn store(rt: &impl Abort, alloc: Global) -> Result<Image, Fail>
    ensures code { IfOk result (λ image. length image.code ≡ 2) }
{
    let image = read_image(alloc, &STORE)?;
    assert!(rt; image.code.len() == 2);
    Ok(image)
}

/// A queue for so many cores, each of which may ask 100 times on a port.
fn start<'a>(
    alloc: Global,
    image: &'a Image,
    cores: u32,
) -> Result<QueuedMemory<FlatMemory<'a>>, Fail>
    requires some_cores { 1 ≤ cores }
    requires cores { cores ≤ 8 }
    ensures fresh { IfOk result (λ m. IsFresh image.now cores 100 None (⟦<QueuedMemory<FlatMemory<'static>> as MemoryCore>⟧.view m)) }
{
    let memory = FlatMemory::new(alloc, image, cores, 100)?;
    Ok(QueuedMemory::new(alloc, memory, cores)?)
}

/// The access of a core is served before its fetch: with an even choice it is answered first, with an
/// odd one the fetch; each when it was the first one for seven steps.
fn check_alone(rt: &impl Abort, alloc: Global, choice: u32) -> Result<(), Fail> {
    let image = store(rt, alloc)?;
    let mut memory = start(alloc, &image, 1)?;
    let mut core = Worker::new(&image, 0, 1, Some(4));
    turns(rt, &mut memory, &mut core, 7, choice);
    assert!(rt; waits(&core) == (true, true));
    turns(rt, &mut memory, &mut core, 1, choice);
    assert!(rt; waits(&core) == (choice == 1, choice == 0));
    turns(rt, &mut memory, &mut core, 6, choice);
    assert!(rt; waits(&core) == (choice == 1, choice == 0));
    turns(rt, &mut memory, &mut core, 1, choice);
    assert!(rt; waits(&core) == (false, false));
    Ok(())
}

/// Two cores store, the first one first: with an odd choice the second one has its answer before.
fn check_both(rt: &impl Abort, alloc: Global, choice: u32) -> Result<(), Fail> {
    let image = store(rt, alloc)?;
    let mut memory = start(alloc, &image, 2)?;
    let mut first = Worker::new(&image, 0, 2, None);
    let mut second = Worker::new(&image, 1, 2, None);
    rounds(rt, &mut memory, &mut first, &mut second, 5, choice);
    assert!(rt; waits(&first) == (true, false) && waits(&second) == (true, false));
    rounds(rt, &mut memory, &mut first, &mut second, 2, choice);
    assert!(rt; waits(&first) == (choice == 1, false));
    assert!(rt; waits(&second) == (choice == 0, false));
    Ok(())
}

#[test]
fn an_access_is_served_before_the_fetch(rt: HostRuntime) -> Result<(), Fail> {
    check_alone(&rt, rt.alloc(), 0)?;
    check_alone(&rt, rt.alloc(), 1)
}

#[test]
fn a_choice_lets_the_second_core_overtake(rt: HostRuntime) -> Result<(), Fail> {
    check_both(&rt, rt.alloc(), 0)?;
    check_both(&rt, rt.alloc(), 1)
}
