//! Where a core's entries stand in a history.
ghost use Rattle.std.specs.Prelude.{◌≡◌, ◌<◌};
ghost use Rattle.access_log.specs.Indices.{IsOfCore};

use access_log::{Entry, History, Item, Letter, Transaction};
use mips_isa::Kind;
use std::test::Fail;

// A load that found 1 at the byte address 0x100.
fn load(core: u32, nth: u32) -> Item
    requires core { core < 8 }
    ensures core { IsOfCore result }
{
    Item::Done(Entry {
        core,
        nth,
        kind: Kind::Lw,
        addr: 0x100,
        old: 1,
        new: None,
    })
}

// The transaction of a data cache that takes its line from main memory.
const TRANSACTION: Item = Item::Bus(Transaction {
    master: 1,
    line: 32,
    im: false,
    ch: 0,
    di: None,
    victim: None,
    letter: Letter::E,
});

#[test]
fn a_history_links_the_entries_of_a_core(rt: HostRuntime) -> Result<(), Fail> {
    let mut history = History::new(rt.alloc(), 6)?;
    history.push(load(0, 2));
    history.push(TRANSACTION);
    history.push(load(7, 4));
    history.push(load(0, 5));
    history.push(load(7, 9));
    history.push(load(0, 6));
    let before = [0, 1, 2, 3, 4, 5, 6, u32::MAX].map(|index| history.before(index));
    assert!(rt; before == [None, None, None, Some(0), Some(2), Some(3), None, None]);
    let last = [0, 7, 1, 8, u32::MAX].map(|core| history.last_of(core));
    assert!(rt; last == [Some(5), Some(4), None, None, None]);
    Ok(())
}
