//! The rows of a report, and what they may say.
#![tactic(auto)]

ghost use Rattle.std.specs.Prelude.{◌≡◌, ◌<◌, ◌≤◌, [], length, slice_index_or};
ghost use Rattle.report_rows.specs.Names.{count_names};
ghost use Rattle.report_rows.specs.Bounds.{has_bus, most_rows};

use kmp_base::{MOST_BUDGET, MachineKind};

/// A word of memory, and the address of its first byte.
#[derive(Clone, Copy, Debug, PartialEq, Eq)]
pub struct MemoryWord {
    pub addr: u32,
    pub value: u32,
}

/// The counts of a report, in the order of their rows.
#[derive(Clone, Copy)]
pub struct Counts {
    pub values: [u64; 13],
}

/// More than any number of instructions or cycles, which a budget bounds.
pub const MOST_TIME: u32 = MOST_BUDGET + 2;

/// Whether a machine has caches and a bus.
pub fn has_bus(machine: MachineKind) -> bool
    ensures bus { result ≡ has_bus machine }
{
    machine == MachineKind::Full
}

/// How many rows the timetable of a core may have: an unpipelined core has none.
pub fn most_rows(machine: MachineKind) -> u32
    ensures most { result ≡ most_rows machine }
    ensures few { result ≤ 100002 }
{
    match machine {
        MachineKind::Plain => 0,
        MachineKind::Pipe | MachineKind::Full => MOST_TIME,
    }
}

/// The names of the counts, in the order of their rows.
const COUNT_NAMES: [&str; 13] = [
    "retired",
    "loads",
    "stores",
    "cas",
    "swapped",
    "transactions",
    "exclusive",
    "owned",
    "upgrades",
    "flushes",
    "wait-fetch",
    "wait-operand",
    "wait-access",
];

/// The name of the count at an index.
pub fn count_name(index: usize) -> &'static str
    requires index { index < 13 }
    ensures name { result.now ≡ slice_index_or count_names index [] }
    ensures short { length result.now ≤ 12 }
{
    COUNT_NAMES[index]
}
