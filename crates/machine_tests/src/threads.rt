//! Cores on threads: gates that hold them, the order that these force, and a memory in which requests
//! wait.
ghost use Rattle.std.specs.Prelude.{◌≤◌};

use crate::cores::OWN_WORDS;
use access_log::Item;
use core_run::plain_slots;
use core_threads::{Gate, OpenGate, run_slots, run_threads};
use image_file::read_image;
use kmp_base::{MachineKind, Policy, Setup, Turns};
use mem_port::FlatMemory;
use queued_memory::QueuedMemory;
use std::alloc::Global;
use std::process::Abort;
use std::sync::Wait;
use std::sync::atomic::{AtomicU64, Ordering};
use std::test::Fail;
use std::thread;
use std::thread::Threads;
use timetable::{CoreEnd, Outcome};

/// An image of a program in which each core counts to 100 in the word at 0x100: it loads the word,
/// stores it and 1 by `cas`, tries again where the other core came first, and halts at the end.
const COUNTER: [u8; 84] =
    *b"KMP1\x00\x20\x00\x00\x0e\x00\x00\x00\x01\x00\x00\x00\x00\x00\x08\x3c\x00\x01\x08\x35\x00\x00\x09\x3c\
\x64\x00\x29\x35\x00\x00\x0a\x8d\x01\x00\x4b\x25\x21\x60\x40\x01\x3f\x60\x0b\xfd\xfb\xff\x8a\x15\x00\x00\x00\x00\
\xff\xff\x29\x25\xf8\xff\x20\x15\x00\x00\x00\x00\x0d\x00\x00\x00\x00\x01\x00\x00\x01\x00\x00\x00\x00\x00\x00\x00";

/// How often a held core looks before the test fails.
const MOST_LOOKS: u32 = 100_000_000;

/// A core is held in a cycle until all others have come to a cycle.
#[derive(Drop)]
struct Hold {
    core: u32,
    cycle: u32,
    until: u32,
}

/// Holds cores, and counts what it sees.
#[derive(Drop)]
struct Holds<'a> {
    holds: &'a [Hold],
    cores: u32,
    /// How often it was called for each core.
    calls: [AtomicU64; 8],
    /// How often it was called with another number than that of the core's next cycle, or for no core.
    misnumbered: AtomicU64,
    /// How often a core was held until the others had come.
    met: AtomicU64,
}

impl<'a> Holds<'a> {
    fn new(holds: &'a [Hold], cores: u32) -> Holds<'a> {
        Holds {
            holds,
            cores,
            calls: [0; 8].map(AtomicU64::new),
            misnumbered: AtomicU64::new(0),
            met: AtomicU64::new(0),
        }
    }

    /// Whether all other cores have come to a cycle.
    fn have_come(&self, core: u32, cycle: u32) -> bool {
        (0..self.cores).zip(&self.calls).all(|(other, calls)| {
            other == core || calls.load(Ordering::SeqCst) >= u64::from(cycle)
        })
    }

    /// Waits until all other cores have come to a cycle.
    fn wait_for(&self, core: u32, cycle: u32) {
        for _ in 0..MOST_LOOKS {
            if self.have_come(core, cycle) {
                self.met.fetch_add(1, Ordering::SeqCst);
                return;
            }
            thread::yield_now();
        }
    }
}

impl Gate for Holds<'_> {
    fn at(&self, core: u32, cycle: u32) {
        let own = self.calls.get(core as usize);
        let before = own.map(|calls| calls.fetch_add(1, Ordering::SeqCst));
        if before != Some(u64::from(cycle.saturating_sub(1))) || core >= self.cores {
            self.misnumbered.fetch_add(1, Ordering::SeqCst);
        }
        for hold in self.holds {
            if hold.core == core && hold.cycle == cycle {
                self.wait_for(core, hold.until);
            }
        }
    }
}

/// What is asked of unpipelined cores on threads.
const ON_THREADS: Setup = Setup {
    machine: MachineKind::Plain,
    cores: 1,
    budget: 100_000,
    policy: Policy::Fifo,
    turns: Turns::Threads,
    seed: 0,
    sets: 1,
    ways: 1,
};

/// Runs the counter on cores that are held, each of which counts to 100; the gate was called once before
/// each cycle, with its number, and each hold met the other cores.
fn run_held<R: Threads + Wait + Sync + Abort>(
    rt: &R,
    alloc: Global,
    cores: u32,
    holds: &[Hold],
) -> Result<Outcome, Fail>
    requires some_cores { 1 ≤ cores }
    requires cores { cores ≤ 8 }
{
    let image = read_image(alloc, &COUNTER)?;
    let gate = Holds::new(holds, cores);
    let setup = Setup {
        cores,
        ..ON_THREADS
    };
    let outcome = run_threads(rt, alloc, &image, &setup, &gate)?;
    assert!(rt; outcome.cores.iter().all(|core| core.end.is_halt()));
    assert!(rt; outcome.words.words.get(64) == Some(&(100 * cores)));
    assert!(rt; gate.misnumbered.load(Ordering::SeqCst) == 0);
    assert!(rt; gate.met.load(Ordering::SeqCst) == holds.len() as u64);
    let cycles = |core: &CoreEnd| u64::from(core.cycles);
    for (calls, core) in gate.calls.iter().zip(&outcome.cores) {
        assert!(rt; calls.load(Ordering::SeqCst) == cycles(core));
    }
    Ok(outcome)
}

/// The accesses that the one core makes in cycles before this one, of which there are some, come before
/// all of the other core.
fn comes_first(rt: &impl Abort, order: &[Item], first: u32, until: u32) {
    let (mut earlier, mut is_begun) = (0u32, false);
    for item in order {
        let Item::Done(entry) = item else {
            panic!(rt; "there is no bus")
        };
        if entry.core != first {
            is_begun = true;
            continue;
        }
        // An unpipelined core has used a cycle for each instruction, and a second one for each access.
        let cycle = entry.nth.saturating_add(earlier).saturating_add(2);
        assert!(rt; cycle >= until || !is_begun);
        earlier = earlier.saturating_add(1);
    }
    assert!(rt; is_begun && earlier > 0);
}

/// A core is held in a cycle until all others have come to the same one.
fn meeting(core: u32, cycle: u32) -> Hold {
    Hold {
        core,
        cycle,
        until: cycle,
    }
}

#[test]
fn two_cores_meet(rt: HostRuntime) -> Result<(), Fail> {
    let holds = [
        meeting(0, 1),
        meeting(1, 1),
        meeting(0, 500),
        meeting(1, 500),
    ];
    run_held(&rt, rt.alloc(), 2, &holds)?;
    Ok(())
}

/// So each of them has a thread of its own.
#[test]
fn eight_cores_meet(rt: HostRuntime) -> Result<(), Fail> {
    let holds = [0, 1, 2, 3, 4, 5, 6, 7].map(|core| meeting(core, 300));
    run_held(&rt, rt.alloc(), 8, &holds)?;
    Ok(())
}

/// A core is held before its first cycle, or before the one of its first access.
#[test]
fn one_core_comes_behind_the_other(rt: HostRuntime) -> Result<(), Fail> {
    for (core, cycle) in [(0, 1), (1, 1), (0, 6), (1, 6)] {
        let hold = Hold {
            core,
            cycle,
            until: 500,
        };
        let outcome = run_held(&rt, rt.alloc(), 2, &[hold])?;
        comes_first(&rt, outcome.history.items(), 1 - core, 500);
    }
    Ok(())
}

/// Each core has halted behind two instructions, and stored the number of cores in a word of its own.
fn have_stored(rt: &impl Abort, outcome: &Outcome, cores: u32) {
    for core in &outcome.cores {
        assert!(rt; core.end.is_halt() && core.retired == 2);
    }
    assert!(rt; outcome.history.items().len() == cores as usize);
    for index in 0..cores as usize {
        assert!(rt; outcome.words.words.get(64 + index) == Some(&cores));
    }
}

/// Runs so many cores, each of which stores, over a memory in which requests wait.
fn run_queued<R: Threads + Wait + Sync>(rt: &R, alloc: Global, cores: u32) -> Result<Outcome, Fail>
    requires some_cores { 1 ≤ cores }
    requires cores { cores ≤ 8 }
{
    let image = read_image(alloc, &OWN_WORDS)?;
    let flat = FlatMemory::new(alloc, &image, cores, 20_000)?;
    let memory = QueuedMemory::new(alloc, flat, cores)?;
    let slots = plain_slots(alloc, &image, cores)?;
    Ok(run_slots(rt, alloc, memory, slots, 20_000, &OpenGate)?)
}

#[test]
fn requests_wait_on_threads(rt: HostRuntime) -> Result<(), Fail> {
    for cores in [1, 2, 4] {
        let outcome = run_queued(&rt, rt.alloc(), cores)?;
        have_stored(&rt, &outcome, cores);
    }
    Ok(())
}
