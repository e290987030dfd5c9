//! Two cores' callers that share a memory by a turn.
ghost use Rattle.std.specs.Prelude.{◌≡◌, ◌+◌, ◌<◌, ◌++◌, IsTrue, None, IfOk, length};
ghost use Rattle.mips_isa.specs.Steps.{IsAccess};
ghost use Rattle.mem_port.specs.declared.port.Port.{Port};
ghost use Rattle.mem_port.specs.Ports.{core_of, IsAtRest};
ghost use Rattle.mem_port.specs.Memory.{IsFresh, IsLawful};
ghost use Rattle.turn.specs.Passes.{IsOf, first_view, all_cores, counts};
ghost use Rattle.machine_tests.specs.Turns.{HasWord, Knows};

use crate::answers::Answers;
use crate::memories::halt;
use access_log::{Entry, Item, Request};
use image_file::Image;
use mem_port::{FlatMemory, MemoryCore, Moved, Port, PortState, Withdrawal};
use mips_isa::Kind;
use queued_memory::QueuedMemory;
use std::alloc::Global;
use std::process::Abort;
use std::sync::Wait;
use std::test::Fail;
use turn::{Pass, Turn, make};

/// The byte address of the word that is loaded and stored.
const ADDR: u32 = 256;

/// A core's caller, and what it made of its access port: a request that was served counts as waiting
/// until its answer is taken.
#[derive(Drop)]
struct Caller<M: MemoryCore> {
    pass: Pass<M>,
    made: PortState,
    /// How many requests it may still ask.
    left: u32,
    answers: Answers,
}

/// One more of a few.
fn one_more(rt: &impl Abort, number: u32) -> u32
    ensures more { result ≡ number + 1 }
{
    assert!(rt; number < 1000);
    number + 1
}

impl<M: MemoryCore> Caller<M> {
    /// Asks for an access, the one behind so many, and serves it.
    fn send<R: Wait + Abort>(&mut self, rt: &R, turn: &Turn<M>, nth: u32, kind: Kind, value: u32)
        requires word { HasWord (first_view turn.now) }
        requires knows { Knows turn.now self.old.made self.old.left self.old.answers self.old.pass }
        requires kind { IsAccess kind }
        ensures knows { Knows turn.now self.new.made self.new.left self.new.answers self.new.pass }
    {
        let PortState::Free = self.made else {
            panic!(rt; "it has a request")
        };
        assert!(rt; self.left > 0);
        let request = Request {
            nth,
            kind,
            addr: ADDR,
            expected: 0,
            value,
        };
        let port = Port::Access(self.pass.core());
        turn.ask(rt, &mut self.pass, port, request);
        turn.serve(rt, &mut self.pass, port);
        self.made = PortState::Waiting(request);
        self.left -= 1;
    }

    /// Makes a step, and tells whether something was moved.
    fn step<R: Wait + Abort>(&mut self, rt: &R, turn: &Turn<M>) -> bool
        requires knows { Knows turn.now self.old.made self.old.left self.old.answers self.old.pass }
        ensures knows { Knows turn.now self.new.made self.new.left self.new.answers self.new.pass }
    {
        match turn.step(rt, &mut self.pass, 0) {
            Moved::Moved => {
                self.answers.moved = one_more(rt, self.answers.moved);
                true
            }
            Moved::Idle => {
                self.answers.idles = one_more(rt, self.answers.idles);
                false
            }
        }
    }

    /// Makes so many steps, each of which moves something.
    fn steps<R: Wait + Abort>(&mut self, rt: &R, turn: &Turn<M>, count: u32)
        requires knows { Knows turn.now self.old.made self.old.left self.old.answers self.old.pass }
        ensures knows { Knows turn.now self.new.made self.new.left self.new.answers self.new.pass }
    {
        for _ in 0..count {
            assert!(rt; self.step(rt, turn));
        }
    }

    /// Takes the answer, if it is there.
    fn take<R: Wait + Abort>(&mut self, rt: &R, turn: &Turn<M>) -> Option<u32>
        requires knows { Knows turn.now self.old.made self.old.left self.old.answers self.old.pass }
        ensures knows { Knows turn.now self.new.made self.new.left self.new.answers self.new.pass }
    {
        let PortState::Waiting(_) = self.made else {
            panic!(rt; "nothing was served")
        };
        let port = Port::Access(self.pass.core());
        let answer = turn.take(rt, &mut self.pass, port);
        match answer {
            Some(_) => self.made = PortState::Free,
            None => self.answers.nones = one_more(rt, self.answers.nones),
        }
        answer
    }

    /// Withdraws the request, and tells the answer of one that was done.
    fn withdraw<R: Wait + Abort>(&mut self, rt: &R, turn: &Turn<M>) -> Option<u32>
        requires knows { Knows turn.now self.old.made self.old.left self.old.answers self.old.pass }
        ensures knows { Knows turn.now self.new.made self.new.left self.new.answers self.new.pass }
    {
        let PortState::Waiting(_) = self.made else {
            panic!(rt; "nothing was served")
        };
        let port = Port::Access(self.pass.core());
        self.made = PortState::Closed;
        match turn.withdraw(rt, &mut self.pass, port) {
            Withdrawal::Withdrawn => {
                self.answers.withdrawns = one_more(rt, self.answers.withdrawns);
                None
            }
            Withdrawal::Answered(word) => Some(word),
        }
    }
}

/// A turn over a memory of two cores, in which each may ask ten times, and their callers.
fn start<M: MemoryCore>(
    rt: &impl Abort,
    alloc: Global,
    image: &Image,
    memory: M,
) -> Result<(Turn<M>, Caller<M>, Caller<M>), Fail>
    requires fresh { IsFresh image.now 2 10 None (M.view memory) }
    ensures memory { IfOk result (λ t. first_view t.0 ≡ M.view memory) }
    ensures zero { IfOk result (λ t. Knows t.0 t.1.made t.1.left t.1.answers t.1.pass) }
    ensures one { IfOk result (λ t. Knows t.0 t.2.made t.2.left t.2.answers t.2.pass) }
{
    let (turn, mut passes) = make(alloc, memory, 2)?;
    let (Some(one), Some(zero)) = (passes.pop(), passes.pop()) else {
        panic!(rt; "there are two passes")
    };
    let answers = Answers {
        moved: 0,
        nones: 0,
        idles: 0,
        withdrawns: 0,
    };
    let zero = Caller {
        pass: zero,
        made: PortState::Free,
        left: 10,
        answers,
    };
    let one = Caller {
        pass: one,
        made: PortState::Free,
        left: 10,
        answers,
    };
    Ok((turn, zero, one))
}

/// Whether no request is open.
fn rests(made: &PortState) -> bool
    ensures rests { IsTrue result → IsAtRest made.now }
{
    match made {
        PortState::Free | PortState::Closed => true,
        _ => false,
    }
}

/// The first caller's pass speaks for the core of the other one too, and counts the answers of both.
fn join<M: MemoryCore>(turn: &Turn<M>, zero: &mut Caller<M>, one: Caller<M>)
    requires zero { Knows turn.now zero.old.made zero.old.left zero.old.answers zero.old.pass }
    requires one { Knows turn.now one.made one.left one.answers one.pass }
    requires rest { IsAtRest one.made }
    ensures turn { IsOf turn.now zero.new.pass }
    ensures core { zero.new.pass.core ≡ zero.old.pass.core }
    ensures cores { all_cores zero.new.pass ≡ all_cores zero.old.pass ++ all_cores one.pass }
    ensures nones { (counts zero.new.pass).nones ≡ zero.old.answers.nones + one.answers.nones }
    ensures idles { (counts zero.new.pass).idles ≡ zero.old.answers.idles + one.answers.idles }
    ensures withdrawns { (counts zero.new.pass).withdrawns ≡ zero.old.answers.withdrawns + one.answers.withdrawns }
{
    turn.join_pass(&mut zero.pass, one.pass);
}

/// Joins the passes of cores 0 and 1, and gives the memory.
fn end<M: MemoryCore>(rt: &impl Abort, turn: Turn<M>, mut zero: Caller<M>, one: Caller<M>) -> M
    requires cores { (first_view turn).cores ≡ 2 }
    requires zero { Knows turn zero.made zero.left zero.answers zero.pass }
    requires one { Knows turn one.made one.left one.answers one.pass }
    ensures lawful { IsLawful (M.view result) }
    ensures rest { (q : Port) → core_of q < (M.view result).cores → IsAtRest ((M.view result).port q) }
{
    assert!(rt; rests(&zero.made) && rests(&one.made));
    assert!(rt; zero.pass.core() == 0 && one.pass.core() == 1);
    join(&turn, &mut zero, one);
    turn.close(zero.pass)
}

/// The history has three accesses in their order: a store by core 0, a load by core 1 and one by core 0.
fn check<M: MemoryCore>(rt: &impl Abort, memory: M)
    requires lawful { IsLawful (M.view memory) }
    requires rest { (q : Port) → core_of q < (M.view memory).cores → IsAtRest ((M.view memory).port q) }
{
    let row = |core, nth, kind, old, new| {
        Item::Done(Entry {
            core,
            nth,
            kind,
            addr: ADDR,
            old,
            new,
        })
    };
    let (words, history) = memory.settle();
    let [first, second, third] = history.items() else {
        panic!(rt; "there are three rows")
    };
    assert!(rt; *first == row(0, 0, Kind::Sw, 0, Some(7)));
    assert!(rt; *second == row(1, 0, Kind::Lw, 7, None));
    assert!(rt; *third == row(0, 1, Kind::Lw, 7, None));
    assert!(rt; words.words.get(64) == Some(&7));
}

/// Each core's request has its answer after so many steps; the last one is given up when it is done.
fn play<M: MemoryCore, R: Wait + Abort>(
    rt: &R,
    alloc: Global,
    image: &Image,
    memory: M,
    count: u32,
) -> Result<(), Fail>
    requires fresh { IsFresh image.now 2 10 None (M.view memory) }
    requires code { length image.now.code ≡ 2 }
    requires lines { image.now.memory_lines ≡ 8192 }
{
    let (turn, mut zero, mut one) = start(rt, alloc, image, memory)?;
    zero.send(rt, &turn, 0, Kind::Sw, 7);
    zero.steps(rt, &turn, count);
    assert!(rt; zero.take(rt, &turn) == Some(0));
    one.send(rt, &turn, 0, Kind::Lw, 0);
    one.steps(rt, &turn, count);
    assert!(rt; one.take(rt, &turn) == Some(7));
    zero.send(rt, &turn, 1, Kind::Lw, 0);
    zero.steps(rt, &turn, count);
    assert!(rt; zero.withdraw(rt, &turn) == Some(7));
    assert!(rt; !one.step(rt, &turn));
    check(rt, end(rt, turn, zero, one));
    Ok(())
}

/// A request that waits has no answer, and leaves nothing when it is given up.
fn give_up<M: MemoryCore, R: Wait + Abort>(
    rt: &R,
    alloc: Global,
    image: &Image,
    memory: M,
) -> Result<(), Fail>
    requires fresh { IsFresh image.now 2 10 None (M.view memory) }
    requires code { length image.now.code ≡ 2 }
    requires lines { image.now.memory_lines ≡ 8192 }
{
    let (turn, mut zero, one) = start(rt, alloc, image, memory)?;
    zero.send(rt, &turn, 0, Kind::Sw, 7);
    assert!(rt; zero.take(rt, &turn).is_none());
    assert!(rt; zero.withdraw(rt, &turn).is_none());
    let (_, history) = end(rt, turn, zero, one).settle();
    assert!(rt; history.items().is_empty());
    Ok(())
}

#[test]
fn a_request_that_waits_is_given_up(rt: HostRuntime) -> Result<(), Fail> {
    let alloc = rt.alloc();
    let image = halt(&rt, alloc)?;
    let memory = QueuedMemory::new(alloc, FlatMemory::new(alloc, &image, 2, 10)?, 2)?;
    give_up(&rt, alloc, &image, memory)
}

#[test]
fn two_passes_share_a_memory(rt: HostRuntime) -> Result<(), Fail> {
    let alloc = rt.alloc();
    let image = halt(&rt, alloc)?;
    play(
        &rt,
        alloc,
        &image,
        FlatMemory::new(alloc, &image, 2, 10)?,
        0,
    )?;
    let memory = QueuedMemory::new(alloc, FlatMemory::new(alloc, &image, 2, 10)?, 2)?;
    play(&rt, alloc, &image, memory, 11)
}
