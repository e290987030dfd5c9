//! Two cores whose requests wait one behind the other: in a queue round flat memory, and for the bus.
ghost use Rattle.std.specs.Prelude.{◌≡◌, ◌<◌, ◌≤◌, length, IfOk};
ghost use Rattle.mips_isa.specs.Steps.{IsAccess};
ghost use Rattle.machine_tests.specs.Script.{Fits};

use access_log::{Item, Request};
use image_file::{Image, read_image};
use mem_port::{FlatMemory, MemoryCore, Moved, Port, PortState, Withdrawal};
use mem_system::MemSystem;
use mips_isa::Kind;
use queued_memory::QueuedMemory;
use std::alloc::Global;
use std::process::Abort;
use std::test::Fail;

/// The byte address of the word that is loaded and stored.
const ADDR: u32 = 256;

/// An image of `halt`, with a memory of 8,192 lines.
const HALT: [u8; 24] =
    *b"KMP1\x00\x20\x00\x00\x02\x00\x00\x00\x00\x00\x00\x00\x0d\x00\x00\x00\x00\x00\x00\x00";

/// A memory of two cores, and what was made of their access ports: a request that was served counts
/// as waiting until its answer is taken.
#[derive(Drop)]
struct Script<M: MemoryCore> {
    memory: M,
    made: [PortState; 2],
    /// How many requests each core may still ask.
    left: u32,
}

impl<M: MemoryCore> Script<M> {
    /// Asks for an access and serves it.
    fn send(&mut self, rt: &impl Abort, core: u32, kind: Kind, value: u32)
        requires fits { Fits self.old.made self.old.left (M.view self.old.memory) }
        requires core { core < 2 }
        requires kind { IsAccess kind }
        ensures fits { Fits self.new.made self.new.left (M.view self.new.memory) }
    {
        let PortState::Free = self.made[core as usize] else {
            panic!(rt; "it has a request")
        };
        assert!(rt; self.left > 0);
        let request = Request {
            nth: 0,
            kind,
            addr: ADDR,
            expected: 0,
            value,
        };
        self.memory.ask(Port::Access(core), request);
        self.memory.serve(Port::Access(core));
        self.made[core as usize] = PortState::Waiting(request);
        self.left -= 1;
    }

    /// Makes a step with a choice, and tells whether something was moved.
    fn step(&mut self, choice: u32) -> bool
        requires fits { Fits self.old.made self.old.left (M.view self.old.memory) }
        ensures fits { Fits self.new.made self.new.left (M.view self.new.memory) }
    {
        match self.memory.step(choice) {
            Moved::Moved => true,
            Moved::Idle => false,
        }
    }

    /// Makes so many steps with a choice, each of which moves something.
    fn steps(&mut self, rt: &impl Abort, count: u32, choice: u32)
        requires fits { Fits self.old.made self.old.left (M.view self.old.memory) }
        ensures fits { Fits self.new.made self.new.left (M.view self.new.memory) }
    {
        for _ in 0..count {
            assert!(rt; self.step(choice));
        }
    }

    /// Takes the answer, if it is there.
    fn take(&mut self, rt: &impl Abort, core: u32) -> Option<u32>
        requires fits { Fits self.old.made self.old.left (M.view self.old.memory) }
        requires core { core < 2 }
        ensures fits { Fits self.new.made self.new.left (M.view self.new.memory) }
    {
        let PortState::Waiting(_) = self.made[core as usize] else {
            panic!(rt; "nothing was served")
        };
        let answer = self.memory.take(Port::Access(core));
        if answer.is_some() {
            self.made[core as usize] = PortState::Free;
        }
        answer
    }

    /// Withdraws the request, and tells the answer of one that was done.
    fn withdraw(&mut self, rt: &impl Abort, core: u32) -> Option<u32>
        requires fits { Fits self.old.made self.old.left (M.view self.old.memory) }
        requires core { core < 2 }
        ensures fits { Fits self.new.made self.new.left (M.view self.new.memory) }
    {
        let PortState::Waiting(_) = self.made[core as usize] else {
            panic!(rt; "nothing was served")
        };
        self.made[core as usize] = PortState::Closed;
        let withdrawal = self.memory.withdraw(Port::Access(core));
        answer_in(withdrawal)
    }

    /// What memory has at the address when both ports are closed, and what core 0 stored there, which
    /// is all that was done.
    fn settle(self, rt: &impl Abort) -> (u32, Option<u32>)
        requires fits { Fits self.made self.left (M.view self.memory) }
    {
        let [PortState::Closed, PortState::Closed] = self.made else {
            panic!(rt; "a port isn't closed")
        };
        let (words, history) = self.memory.settle();
        let [Item::Done(entry)] = history.items() else {
            panic!(rt; "not one access was done")
        };
        assert!(rt; entry.core == 0 && words.words.len() > 64);
        (words.words[64], entry.new)
    }
}

impl Script<MemSystem<'_>> {
    /// What main memory has at the address, whatever the caches hold.
    fn main_word(&self) -> u32
        requires fits { Fits self.now.made self.now.left (⟦<MemSystem<'static> as MemoryCore>⟧.view self.now.memory) }
    {
        self.memory.in_memory(ADDR / 8)[0]
    }
}

/// The answer of a request that was done when it was withdrawn.
fn answer_in(withdrawal: Withdrawal) -> Option<u32> {
    match withdrawal {
        Withdrawal::Withdrawn => None,
        Withdrawal::Answered(word) => Some(word),
    }
}

/// The image of `halt`.
pub(crate) fn halt(rt: &impl Abort, alloc: Global) -> Result<Image, Fail>
    ensures code { IfOk result (λ image. length image.code ≡ 2) }
    ensures lines { IfOk result (λ image. image.memory_lines ≡ 8192) }
{
    let image = read_image(alloc, &HALT)?;
    assert!(rt; image.code.len() == 2 && image.memory_lines == 8192);
    Ok(image)
}

/// A queue round flat memory, in which each core may ask ten times.
fn start<'a>(alloc: Global, image: &'a Image) -> Result<Script<QueuedMemory<FlatMemory<'a>>>, Fail>
    requires code { length image.now.code ≡ 2 }
    requires lines { image.now.memory_lines ≡ 8192 }
    ensures fits { IfOk result (λ script. Fits script.made script.left (⟦<QueuedMemory<FlatMemory<'static>> as MemoryCore>⟧.view script.memory)) }
{
    let memory = FlatMemory::new(alloc, image, 2, 10)?;
    Ok(Script {
        memory: QueuedMemory::new(alloc, memory, 2)?,
        made: [PortState::Free; 2],
        left: 10,
    })
}

/// A memory with caches of so many sets, in which each core may ask ten times.
fn start_caches<'a>(
    alloc: Global,
    image: &'a Image,
    sets: u32,
) -> Result<Script<MemSystem<'a>>, Fail>
    requires some_sets { 1 ≤ sets }
    requires code { length image.now.code ≡ 2 }
    requires lines { image.now.memory_lines ≡ 8192 }
    ensures fits { IfOk result (λ script. Fits script.made script.left (⟦<MemSystem<'static> as MemoryCore>⟧.view script.memory)) }
{
    Ok(Script {
        memory: MemSystem::new(alloc, image, 2, sets, 10)?,
        made: [PortState::Free; 2],
        left: 10,
    })
}

/// A store waits for the only copy, and the load behind it for the words of that; the next load is a hit. Main memory keeps the
/// word that it had.
fn check_copies(rt: &impl Abort, script: &mut Script<MemSystem<'_>>)
    requires fits { Fits script.old.made script.old.left (⟦<MemSystem<'static> as MemoryCore>⟧.view script.old.memory) }
{
    script.send(rt, 0, Kind::Sw, 7);
    script.send(rt, 1, Kind::Lw, 0);
    assert!(rt; script.take(rt, 0).is_none());
    script.steps(rt, 1, 0);
    assert!(rt; script.take(rt, 0) == Some(0));
    assert!(rt; script.take(rt, 1).is_none());
    script.steps(rt, 1, 1);
    assert!(rt; !script.step(0));
    assert!(rt; script.take(rt, 1) == Some(7));
    script.send(rt, 0, Kind::Lw, 0);
    assert!(rt; script.take(rt, 0) == Some(7));
    assert!(rt; script.main_word() == 0);
}

/// A request that is given up leaves the queue, and the one behind it is moved next.
fn check_given_up(rt: &impl Abort, script: &mut Script<MemSystem<'_>>)
    requires fits { Fits script.old.made script.old.left (⟦<MemSystem<'static> as MemoryCore>⟧.view script.old.memory) }
{
    script.send(rt, 0, Kind::Sw, 7);
    script.send(rt, 1, Kind::Lw, 0);
    assert!(rt; script.withdraw(rt, 0).is_none());
    script.steps(rt, 1, 0);
    assert!(rt; script.take(rt, 1) == Some(0));
    assert!(rt; !script.step(0));
}

/// Each request is answered when it was the first one for eleven steps.
fn check_waits<M: MemoryCore>(rt: &impl Abort, script: &mut Script<M>)
    requires fits { Fits script.old.made script.old.left (M.view script.old.memory) }
{
    script.send(rt, 0, Kind::Sw, 7);
    script.send(rt, 1, Kind::Lw, 0);
    script.steps(rt, 10, 0);
    assert!(rt; script.take(rt, 0).is_none());
    script.steps(rt, 1, 0);
    assert!(rt; script.take(rt, 0) == Some(0));
    script.steps(rt, 10, 0);
    assert!(rt; script.take(rt, 1).is_none());
    script.steps(rt, 1, 0);
    assert!(rt; script.take(rt, 1) == Some(7));
    assert!(rt; !script.step(0));
}

/// Behind a request that is given up, the next one needs all its steps.
fn check_next<M: MemoryCore>(rt: &impl Abort, script: &mut Script<M>)
    requires fits { Fits script.old.made script.old.left (M.view script.old.memory) }
{
    script.send(rt, 0, Kind::Sw, 7);
    script.send(rt, 1, Kind::Lw, 0);
    script.steps(rt, 4, 0);
    assert!(rt; script.withdraw(rt, 0).is_none());
    script.steps(rt, 10, 0);
    assert!(rt; script.take(rt, 1).is_none());
    script.steps(rt, 1, 0);
    assert!(rt; script.take(rt, 1) == Some(0));
}

/// With an odd choice the second request is answered before the first, and the next one isn't.
fn check_overtakes<M: MemoryCore>(rt: &impl Abort, script: &mut Script<M>)
    requires fits { Fits script.old.made script.old.left (M.view script.old.memory) }
{
    script.send(rt, 0, Kind::Sw, 7);
    script.send(rt, 1, Kind::Lw, 0);
    script.steps(rt, 11, 1);
    assert!(rt; script.take(rt, 0).is_none());
    assert!(rt; script.take(rt, 1) == Some(0));
    script.send(rt, 1, Kind::Lw, 0);
    script.steps(rt, 11, 1);
    assert!(rt; script.take(rt, 1).is_none());
    assert!(rt; script.take(rt, 0) == Some(0));
    script.send(rt, 0, Kind::Sw, 9);
    script.steps(rt, 10, 0);
    script.steps(rt, 1, u32::MAX);
    assert!(rt; script.take(rt, 1).is_none());
    assert!(rt; script.take(rt, 0) == Some(7));
    script.steps(rt, 11, u32::MAX);
    assert!(rt; script.take(rt, 1) == Some(9));
    assert!(rt; !script.step(1));
}

/// What was done stays done, and what was given up is never done.
fn check_ends<M: MemoryCore>(rt: &impl Abort, mut script: Script<M>)
    requires fits { Fits script.made script.left (M.view script.memory) }
{
    script.send(rt, 0, Kind::Sw, 7);
    script.send(rt, 1, Kind::Sw, 9);
    script.steps(rt, 11, 0);
    assert!(rt; script.withdraw(rt, 0) == Some(0));
    script.steps(rt, 4, 0);
    assert!(rt; script.withdraw(rt, 1).is_none());
    assert!(rt; !script.step(0));
    assert!(rt; script.settle(rt) == (7, Some(7)));
}

#[test]
fn requests_wait_in_a_queue(rt: HostRuntime) -> Result<(), Fail> {
    let image = halt(&rt, rt.alloc())?;
    check_waits(&rt, &mut start(rt.alloc(), &image)?);
    check_next(&rt, &mut start(rt.alloc(), &image)?);
    check_overtakes(&rt, &mut start(rt.alloc(), &image)?);
    check_ends(&rt, start(rt.alloc(), &image)?);
    Ok(())
}

#[test]
fn requests_wait_for_the_bus(rt: HostRuntime) -> Result<(), Fail> {
    let image = halt(&rt, rt.alloc())?;
    check_copies(&rt, &mut start_caches(rt.alloc(), &image, 4)?);
    check_given_up(&rt, &mut start_caches(rt.alloc(), &image, 1)?);
    Ok(())
}
