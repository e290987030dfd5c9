//! Cores with five stages over coherent caches, in turns and on threads. What the cores in turns leave was computed
//! apart from this code, by a model of its own of the cores, the caches and the bus.
ghost use Rattle.std.specs.Prelude.{◌≤◌};

use crate::cores::OWN_WORDS;
use crate::timetables::are_rows;
use access_log::{Entry, Item, Letter, Transaction};
use core_run::run_serial;
use core_threads::{OpenGate, run_threads};
use image_file::read_image;
use kmp_base::{MachineKind, Policy, Setup, Turns};
use mips_isa::{CoreState, Kind};
use std::process::Abort;
use std::test::Fail;
use timetable::CoreEnd;

/// An image of a program in which both cores load the word at 0x100; then core 0 counts from 8 to 0 and stores to
/// that word how many cores there are.
const UPGRADE: [u8; 68] =
    *b"KMP1\x00\x20\x00\x00\x0a\x00\x00\x00\x01\x00\x00\x00\x00\x00\x08\x3c\x00\x01\x08\x35\x00\x00\x09\x8d\
\x05\x00\x80\x14\x08\x00\x0a\x24\xff\xff\x4a\x25\xfe\xff\x40\x15\x00\x00\x00\x00\x00\x00\x05\xad\x0d\x00\x00\x00\
\x00\x01\x00\x00\x01\x00\x00\x00\x00\x00\x00\x00";

/// The code of that program, which stands at the start of memory.
const CODE: [u32; 10] = [
    0x3c08_0000,
    0x3508_0100,
    0x8d09_0000,
    0x1480_0005,
    0x240a_0008,
    0x254a_ffff,
    0x1540_fffe,
    0,
    0xad05_0000,
    0x0000_000d,
];

/// What is asked of two cores with caches of 16 lines.
const TWO_CORES: Setup = Setup {
    machine: MachineKind::Full,
    cores: 2,
    budget: 100,
    policy: Policy::Fifo,
    turns: Turns::Round,
    seed: 0,
    sets: 16,
    ways: 1,
};

/// A cache takes a line, which these caches hold, for a load.
fn load_of(master: u32, line: u32, ch: u16, letter: Letter) -> Item {
    Item::Bus(Transaction {
        master,
        line,
        im: false,
        ch,
        di: None,
        victim: None,
        letter,
    })
}

/// An access to the word at 0x100, which held 0.
fn access(core: u32, nth: u32, kind: Kind, new: Option<u32>) -> Item {
    Item::Done(Entry {
        core,
        nth,
        kind,
        addr: 0x100,
        old: 0,
        new,
    })
}

/// Each core takes the lines of its code and the one of the word. Then core 0, which shares that one with core 1,
/// makes its copy the only one.
fn is_history(items: &[Item]) -> bool {
    let upgrade = Item::Bus(Transaction {
        master: 1,
        line: 32,
        im: true,
        ch: 8,
        di: None,
        victim: None,
        letter: Letter::M,
    });
    let expected = [
        load_of(0, 0, 0, Letter::E),
        load_of(2, 0, 1, Letter::S),
        load_of(0, 1, 0, Letter::E),
        load_of(2, 1, 1, Letter::S),
        load_of(0, 2, 0, Letter::E),
        load_of(2, 2, 1, Letter::S),
        load_of(1, 32, 0, Letter::E),
        access(0, 2, Kind::Lw, None),
        load_of(3, 32, 2, Letter::S),
        access(1, 2, Kind::Lw, None),
        load_of(2, 4, 0, Letter::E),
        load_of(0, 3, 0, Letter::E),
        load_of(0, 4, 4, Letter::S),
        upgrade,
        access(0, 29, Kind::Sw, Some(2)),
    ];
    items == expected.as_slice()
}

/// Memory has the code, 2 at 0x100, and 0 at all other addresses.
fn is_memory(words: &[u32]) -> bool {
    words.len() == 16_384
        && words.iter().enumerate().all(|(index, word)| match CODE.get(index) {
            Some(code) => word == code,
            None => *word == if index == 64 { 2 } else { 0 },
        })
}

/// The core halted at the last instruction behind these cycles and executed instructions, with this number in register 10.
fn is_end(core: &CoreEnd, number: u32, cycles: u32, retired: u32, count: u32) -> bool {
    let mut regs = [0; 32];
    regs[4] = number;
    regs[5] = 2;
    regs[8] = 0x100;
    regs[10] = count;
    let state = CoreState {
        pc: 0x28,
        dpc: 0x24,
        regs,
    };
    core.end.is_halt() && (core.cycles, core.retired) == (cycles, retired) && core.state == state
}

#[test]
fn a_shared_line_is_upgraded(rt: HostRuntime) -> Result<(), Fail> {
    let alloc = rt.alloc();
    let image = read_image(alloc, &UPGRADE)?;
    let left = run_serial(alloc, &image, &TWO_CORES)?;
    let outcome = &left;
    assert!(&rt; is_history(outcome.history.items()));
    assert!(&rt; is_memory(&outcome.words.words));
    let [zero, one] = outcome.cores.as_slice() else {
        panic!(&rt; "there are two cores")
    };
    assert!(&rt; is_end(zero, 0, 40, 30, 0));
    assert!(&rt; is_end(one, 1, 13, 5, 8));
    let expected = [
        (2, 2, 3, 4, None, 5, Some(6)),
        (3, 3, 4, 5, None, 6, Some(7)),
        (5, 5, 6, 7, Some(9), 9, Some(10)),
        (6, 6, 7, 9, None, 10, Some(11)),
        (8, 8, 9, 10, None, 11, Some(12)),
        (10, 10, 11, 12, None, 13, None),
    ];
    assert!(&rt; are_rows(&one.rows, &expected));
    Ok(())
}

/// Whatever the order on threads, each core has stored the number of cores in a word of its own.
#[test]
fn cores_on_threads_share_a_line(rt: HostRuntime) -> Result<(), Fail> {
    let alloc = rt.alloc();
    let image = read_image(alloc, &OWN_WORDS)?;
    let setup = Setup {
        turns: Turns::Threads,
        ..TWO_CORES
    };
    let left = run_threads(&rt, alloc, &image, &setup, &OpenGate)?;
    let outcome = &left;
    assert!(&rt; outcome.cores.len() == 2);
    assert!(&rt;
        outcome
            .cores
            .iter()
            .all(|core| core.end.is_halt() && core.retired == 2)
    );
    let words = &outcome.words.words;
    assert!(&rt; words.get(64) == Some(&2) && words.get(65) == Some(&2));
    let stores = outcome
        .history
        .items()
        .iter()
        .filter(|item| matches!(item, Item::Done(_)))
        .count();
    assert!(&rt; stores == 2);
    Ok(())
}
