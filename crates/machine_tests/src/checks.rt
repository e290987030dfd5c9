//! The check of histories that caches leave.
ghost use Rattle.std.specs.Prelude.{◌<◌, length};
ghost use Rattle.std.specs.List.{AllByRecursion};
ghost use Rattle.kmp_base.specs.declared.setup.MachineKind.TheVariants.{Full};
ghost use Rattle.report_rows.specs.Bounds.{IsItem};

use access_log::{Entry, Field, Found, Item, Letter, Transaction};
use history_check::history_difference;
use image_file::read_image;
use kmp_base::{MachineKind, Policy, Setup, Turns};
use mips_isa::Kind;
use row_check::Difference;
use seq_machine::Machine;
use std::alloc::Global;
use std::test::Fail;

/// The image of `lw $t0, 0($zero)` and `halt` in a memory of sixteen bytes.
const LOAD: [u8; 24] = *b"KMP1\x02\0\0\0\x02\0\0\0\0\0\0\0\0\0\x08\x8c\x0d\0\0\0";

/// One core with caches of one line.
const SETUP: Setup = Setup {
    machine: MachineKind::Full,
    cores: 1,
    budget: 1,
    policy: Policy::Fifo,
    turns: Turns::Round,
    seed: 0,
    sets: 1,
    ways: 1,
};

/// A cache reads line 0.
fn read(master: u32, ch: u16, letter: Letter) -> Item
    requires master { master < 2 }
    ensures item { IsItem Full 1 16 result }
{
    Item::Bus(Transaction {
        master,
        line: 0,
        im: false,
        ch,
        di: None,
        victim: None,
        letter,
    })
}

/// The core loads the first word, which is the load.
const ENTRY: Item = Item::Done(Entry {
    core: 0,
    nth: 0,
    kind: Kind::Lw,
    addr: 0,
    old: 0x8c08_0000,
    new: None,
});

/// The first difference of a history whose first row is row 13 of its report.
fn check(alloc: Global, items: &[Item]) -> Result<Option<Difference>, Fail>
    requires within { AllByRecursion (IsItem Full 1 16) items.now }
    requires few { length items.now < 8 }
{
    let image = read_image(alloc, &LOAD)?;
    if image.memory_lines != 2 {
        return Err(Fail::new("another memory"));
    }
    let mut machine = Machine::new(alloc, &image, 1)?;
    Ok(history_difference(alloc, &SETUP, &image, &mut machine, items, 13)?)
}

#[test]
fn a_transaction_that_differs_is_told(rt: HostRuntime) -> Result<(), Fail> {
    let fetched = read(0, 0, Letter::E);
    let right = [fetched, read(1, 1, Letter::S), ENTRY];
    assert!(rt; check(rt.alloc(), &right)?.is_none());
    let wrong = [fetched, read(1, 0, Letter::E), ENTRY];
    let Some(told) = check(rt.alloc(), &wrong)? else {
        return Err(Fail::new("no difference"));
    };
    assert!(rt; told.line == 14 && told.field == Field::Ch);
    assert!(rt; told.kept == Found::Set(0) && told.found == Found::Set(1));
    Ok(())
}
