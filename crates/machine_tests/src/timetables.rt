//! The timetables of cores with five stages, over flat memory.
ghost use Rattle.std.specs.Prelude.{◌≤◌, length};

use core_run::run_serial;
use core_threads::{OpenGate, run_threads};
use image_file::{Image, read_image};
use kmp_base::{MachineKind, Policy, Setup, Turns};
use std::alloc::Global;
use std::process::Abort;
use std::sync::Wait;
use std::test::Fail;
use std::thread::Threads;
use timetable::{Outcome, Rows, TimeRow};

/// `lw $t0,0x100($zero)`, `beq $t0,$zero,1`, `nop` and `halt`.
const LOAD_AND_BRANCH: [u8; 32] =
    *b"KMP1\x00\x20\x00\x00\x04\x00\x00\x00\x00\x00\x00\x00\x00\x01\x08\x8c\x01\x00\x00\x11\x00\x00\x00\x00\x0d\x00\x00\x00";

/// `addiu $t0,$zero,5`, `sw $t0,0x100($zero)`, `lw $t1,0x100($zero)`, `addu $t2,$t1,$t1` and `halt`.
const STORE_LOAD_USE: [u8; 40] =
    *b"KMP1\x00\x20\x00\x00\x06\x00\x00\x00\x00\x00\x00\x00\x05\x00\x08\x24\x00\x01\x08\xac\x00\x01\x09\x8c\x21\x50\x29\x01\x0d\x00\x00\x00\x00\x00\x00\x00";

/// What is asked of one core with five stages.
const ONE_CORE: Setup = Setup {
    machine: MachineKind::Pipe,
    cores: 1,
    budget: 100,
    policy: Policy::Fifo,
    turns: Turns::Round,
    seed: 0,
    sets: 1,
    ways: 1,
};

fn run<R: Threads + Wait + Sync>(
    rt: &R,
    alloc: Global,
    image: &Image,
    turns: Turns,
) -> Result<Outcome, Fail> {
    let setup = Setup { turns, ..ONE_CORE };
    match turns {
        Turns::Round | Turns::Seeded => Ok(run_serial(alloc, image, &setup)?),
        Turns::Threads => Ok(run_threads(rt, alloc, image, &setup, &OpenGate)?),
    }
}

/// I, F, D, E, A, M and W.
pub type Cycles = (u32, u32, u32, u32, Option<u32>, u32, Option<u32>);

fn is_row(row: TimeRow, cycles: &Cycles) -> bool {
    (row.i, row.f, row.d, row.e, row.a, row.m, row.w) == *cycles
}

/// Whether a timetable has these rows.
pub fn are_rows(rows: &Rows, cycles: &[Cycles]) -> bool {
    rows.len() as usize == cycles.len()
        && (0..rows.len()).zip(cycles).all(|(nth, expected)| rows
            .get(nth)
            .is_some_and(|row| is_row(row, expected)))
}

/// One core has the same timetable in all turns.
fn check<R: Threads + Wait + Sync + Abort>(
    rt: &R,
    alloc: Global,
    spelling: &[u8],
    cycles: u32,
    rows: &[Cycles],
) -> Result<(), Fail>
    requires spelling { length spelling.now ≤ 268435456 }
{
    let image = read_image(alloc, spelling)?;
    for turns in [Turns::Round, Turns::Seeded, Turns::Threads] {
        let outcome = run(rt, alloc, &image, turns)?;
        assert!(rt; outcome.cores.len() == 1);
        assert!(rt;
            outcome
                .cores
                .iter()
                .all(|core| core.cycles == cycles && are_rows(&core.rows, rows))
        );
    }
    Ok(())
}

#[test]
fn a_branch_waits_for_its_load(rt: HostRuntime) -> Result<(), Fail> {
    check(
        &rt,
        rt.alloc(),
        &LOAD_AND_BRANCH,
        9,
        &[
            (1, 1, 2, 3, Some(4), 4, Some(5)),
            (2, 2, 5, 6, None, 7, Some(8)),
            (3, 5, 6, 7, None, 8, Some(9)),
            (6, 6, 7, 8, None, 9, None),
        ],
    )
}

#[test]
fn a_sum_waits_for_its_load(rt: HostRuntime) -> Result<(), Fail> {
    check(
        &rt,
        rt.alloc(),
        &STORE_LOAD_USE,
        10,
        &[
            (1, 1, 2, 3, None, 4, Some(5)),
            (2, 2, 3, 4, Some(5), 5, Some(6)),
            (3, 3, 4, 5, Some(6), 6, Some(7)),
            (4, 4, 7, 8, None, 9, Some(10)),
            (5, 7, 8, 9, None, 10, None),
        ],
    )
}
