//! Cores that take turns on a memory in which their requests wait: a word of code and an access take
//! as many steps, and only a core with an open request makes one in its cycle.
ghost use Rattle.std.specs.Prelude.{◌≤◌};

use access_log::Item;
use core_run::{plain_slots, run_slots};
use image_file::{Image, read_image};
use mem_port::FlatMemory;
use queued_memory::QueuedMemory;
use std::alloc::Global;
use std::process::Abort;
use std::test::Fail;
use timetable::{CoreEnd, End, Outcome};

/// An image of `sll $t0,$a0,2`, `sw $a1,0x100($t0)` and `halt`: each core stores the number of cores
/// in a word of its own.
pub const OWN_WORDS: [u8; 32] =
    *b"KMP1\x00\x20\x00\x00\x04\x00\x00\x00\x00\x00\x00\x00\x80\x40\x04\x00\x00\x01\x05\xad\x0d\x00\x00\x00\x00\x00\x00\x00";

fn run(alloc: Global, image: &Image, cores: u32, budget: u32) -> Result<Outcome, Fail>
    requires some_cores { 1 ≤ cores }
    requires cores { cores ≤ 8 }
    requires some_budget { 1 ≤ budget }
    requires budget { budget ≤ 100000 }
{
    let flat = FlatMemory::new(alloc, image, cores, budget)?;
    let memory = QueuedMemory::new(alloc, flat, cores)?;
    let slots = plain_slots(alloc, image, cores)?;
    let ends = Vec::with_capacity(alloc, cores as usize)?;
    Ok(run_slots(alloc, memory, slots, ends, budget))
}

/// Whether the cores ended after these cycles and executed instructions, each at its `halt` or with
/// its budget spent.
fn are_ended(cores: &[CoreEnd], budget: u32, ends: &[(u32, u32)]) -> bool {
    cores.len() == ends.len()
        && cores.iter().zip(ends).all(|(core, (cycles, retired))| {
            let is_spent = matches!(core.end, End::Spent);
            core.cycles == *cycles && core.retired == *retired && is_spent == (*cycles == budget)
        })
}

/// Whether the first so many cores have stored, in their order.
fn have_stored(order: &[Item], stores: usize) -> bool {
    order.len() == stores
        && order.iter().enumerate().all(|(index, item)| match item {
            Item::Done(entry) => entry.core as usize == index && entry.new.is_some(),
            Item::Bus(_) => false,
        })
}

fn check(
    rt: &impl Abort,
    alloc: Global,
    cores: u32,
    budget: u32,
    ends: &[(u32, u32)],
    stores: usize,
) -> Result<(), Fail>
    requires some_cores { 1 ≤ cores }
    requires cores { cores ≤ 8 }
    requires some_budget { 1 ≤ budget }
    requires budget { budget ≤ 100000 }
{
    let image = read_image(alloc, &OWN_WORDS)?;
    let outcome = run(alloc, &image, cores, budget)?;
    assert!(rt; are_ended(&outcome.cores, budget, ends));
    assert!(rt; have_stored(outcome.history.items(), stores));
    Ok(())
}

#[test]
fn cores_wait_for_each_other(rt: HostRuntime) -> Result<(), Fail> {
    let alloc = rt.alloc();
    check(&rt, alloc, 1, 20_000, &[(32, 2)], 1)?;
    check(&rt, alloc, 2, 20_000, &[(43, 2), (53, 2)], 2)?;
    check(&rt, alloc, 3, 20_000, &[(54, 2), (62, 2), (76, 2)], 3)
}

#[test]
fn a_store_that_waits_still_is_given_up(rt: HostRuntime) -> Result<(), Fail> {
    check(&rt, rt.alloc(), 2, 30, &[(30, 2), (30, 1)], 1)
}
