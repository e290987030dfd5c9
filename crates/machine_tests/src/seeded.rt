//! Two cores whose turns a seed draws. The orders were computed apart from this code: by the words that
//! Rust's `Pcg32` gives, and the cycles of each instruction.
use access_log::Item;
use core_run::run_serial;
use image_file::read_image;
use kmp_base::{MachineKind, Policy, Setup, Turns};
use std::alloc::Global;
use std::process::Abort;
use std::test::Fail;
use timetable::Outcome;

/// An image of a program in which each core counts to 3 in the word at 0x100: it loads the word, stores
/// it and 1 by `cas`, tries again where the other core came first, and halts at the end.
const COUNT_TO_3: [u8; 84] =
    *b"KMP1\x00\x20\x00\x00\x0e\x00\x00\x00\x01\x00\x00\x00\x00\x00\x08\x3c\x00\x01\x08\x35\x00\x00\x09\x3c\
\x03\x00\x29\x35\x00\x00\x0a\x8d\x01\x00\x4b\x25\x21\x60\x40\x01\x3f\x60\x0b\xfd\xfb\xff\x8a\x15\x00\x00\x00\x00\
\xff\xff\x29\x25\xf8\xff\x20\x15\x00\x00\x00\x00\x0d\x00\x00\x00\x00\x01\x00\x00\x01\x00\x00\x00\x00\x00\x00\x00";

/// What is asked of two unpipelined cores.
const TWO_CORES: Setup = Setup {
    machine: MachineKind::Plain,
    cores: 2,
    budget: 100_000,
    policy: Policy::Fifo,
    turns: Turns::Seeded,
    seed: 0,
    sets: 1,
    ways: 1,
};

/// Whether a letter is the digit of a number.
fn is_digit(letter: u8, number: u32) -> bool {
    number < 10 && u32::from(b'0') + number == u32::from(letter)
}

/// Whether these cores, one after the other, made accesses that found these words.
fn is_order(items: &[Item], cores: &[u8], found: &[u8]) -> bool {
    items.len() == cores.len()
        && items.len() == found.len()
        && items.iter().zip(cores).zip(found).all(|((item, core), old)| match item {
            Item::Done(entry) => is_digit(*core, entry.core) && is_digit(*old, entry.old),
            Item::Bus(_) => false,
        })
}

/// Whether both cores halted behind these cycles.
fn are_ended(outcome: &Outcome, cycles: [u32; 2]) -> bool {
    outcome.cores.len() == 2
        && outcome.cores.iter().zip(&cycles).all(|(core, cycles)| core.end.is_halt()
            && core.cycles == *cycles)
}

fn check(
    rt: &impl Abort,
    alloc: Global,
    seed: u32,
    cores: &[u8],
    found: &[u8],
    cycles: [u32; 2],
) -> Result<(), Fail> {
    let image = read_image(alloc, &COUNT_TO_3)?;
    let setup = Setup { seed, ..TWO_CORES };
    let outcome = run_serial(alloc, &image, &setup)?;
    assert!(rt; is_order(outcome.history.items(), cores, found));
    assert!(rt; are_ended(&outcome, cycles));
    Ok(())
}

#[test]
fn a_seed_draws_the_turns(rt: HostRuntime) -> Result<(), Fail> {
    let alloc = rt.alloc();
    check(
        &rt,
        alloc,
        0,
        b"1010010111001100",
        b"0001111222334455",
        [46, 46],
    )?;
    check(
        &rt,
        alloc,
        1,
        b"010101010101111111",
        b"000111122223334455",
        [38, 62],
    )?;
    check(
        &rt,
        alloc,
        7,
        b"101000101010100000",
        b"000111222333344455",
        [62, 38],
    )
}

#[test]
fn the_greatest_seed_draws_the_turns(rt: HostRuntime) -> Result<(), Fail> {
    check(
        &rt,
        rt.alloc(),
        u32::MAX,
        b"01010011001111",
        b"00011122334455",
        [38, 46],
    )
}
